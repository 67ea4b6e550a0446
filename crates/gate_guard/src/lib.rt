//! What a host has to do, and why each move that it makes of the main branch is right.
#![tactic(auto)]

mod duty;
mod laws;

pub use duty::{Duties, Duty, duties_in};
pub use laws::law_of_moves;
