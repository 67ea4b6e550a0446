//! What the program is asked for by its words: its jobs, and how they are read.
#![tactic(auto)]

mod command;
mod words;

pub use words::{Job, WordsFault, no_text, read_words};
