//! Lines for a host: each delivery is answered, and what the host has to do then is told.
#![tactic(auto)]

mod lines;
mod text;

pub use lines::guard_lines;
pub use text::told_text;
