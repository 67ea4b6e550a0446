//! The queue of a gate, or one of its changes, as text for people.
#![tactic(auto)]

mod batches;
mod change;
mod columns;
mod lists;
mod queue;

pub use change::change_text;
pub use queue::queue_text;
