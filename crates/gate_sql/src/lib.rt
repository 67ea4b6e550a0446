//! The records of the merge bot in a SQLite database: a book over nine tables. One transaction writes the rows that differ and an
//! answer, or nothing.
#![tactic(auto)]

mod book;
mod fault;
mod files;
mod gate;
mod opening;

pub use book::{Refused, SqlBook};
pub use files::{book_in_files, book_in_files_in_memory};
pub use gate::gate_of;
pub use gate_rows::{
    changed_rows, changes_since, law_of_changed_rows, law_of_changes_since, law_of_first_keys,
    law_of_first_rows, law_of_keys, law_of_keys_since, law_of_rows, rows_of,
};
pub use gate_tables::{Row, RowChange, RowKey};
