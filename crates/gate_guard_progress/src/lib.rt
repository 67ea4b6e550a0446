//! What comes of what a host tells the bot: the batch that waits first comes onto the main branch, if the host does its part, and what is
//! handed in again changes nothing. Nothing here runs: each law is a function that at most calls other laws, and its clauses are the
//! statement.
#![tactic(auto)]

mod laws;

pub use laws::{law_of_arrivals, law_of_journals, law_of_starts};
