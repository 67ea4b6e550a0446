//! The rows of a state of the merge bot: what each table holds of it, the state for which rows stand, and the row changes between two
//! states. By a law the rows of a state stand for that state alone. No database is asked here.
#![tactic(auto)]

mod changed;
mod first_rows;
mod laws;
mod reading;
mod rows;
mod sorting;
mod upgrading;

pub use changed::{changed_rows, changes_since, row_changes};
pub use first_rows::in_first;
pub use laws::{
    is_of_machine, law_of_changed_rows, law_of_changes_since, law_of_first_keys,
    law_of_first_keys_of, law_of_first_rows, law_of_keys, law_of_keys_of, law_of_keys_since,
    law_of_rows, law_of_rows_of,
};
pub use reading::read_gate;
pub use rows::rows_of;
pub use upgrading::upgraded;
