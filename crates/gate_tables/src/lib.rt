//! The nine tables of the records in a SQLite database, as rows: they are made, or found and taken over, read whole, and changed
//! row by row with one answer, in one transaction or not at all. What rows stand for isn't known here.
#![tactic(auto)]

mod answers;
mod apply;
mod batches;
mod change;
mod changes;
mod complete;
mod create;
mod desk;
mod fault;
mod found;
mod found_tables;
mod kind;
mod laws;
mod look;
mod make;
mod marks;
mod members;
mod people;
mod read;
mod row;
mod rowids;
mod same_schema;
mod statement;
mod statuses;
mod tables;
mod version;
mod wanted;

pub use change::{Row, RowChange, RowKey};
pub use fault::TablesFault;
pub use found::{Found, found_in};
pub use found_tables::FoundTables;
pub use laws::{law_of_differences, law_of_parts};
pub use look::Contents;
pub use make::is_blank;
pub use row::{
    BatchRow, ChangeRow, DeskRow, MarkRow, MemberRow, PersonRow, Rows, StatusRow, WantedRow,
};
pub use tables::{NotMade, Tables};
pub use version::Version;
