//! Who may do what, and when: people, changes, the levels of the commands, and the rules that a command is judged by.
#![tactic(auto)]

mod change;
mod condition;
mod desk;
mod fitness;
mod heads;
mod role;
mod rule;

pub use change::{Change, Phase, Repeat};
pub use condition::Condition;
pub use desk::Desk;
pub use fitness::{blocking_label, has_too_few_reviews, is_blocked};
pub use role::{Level, Role};
pub use rule::Rule;
