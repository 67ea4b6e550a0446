//! Who of many connections is served next, who waits, and who is waited for no longer. It touches no socket and no clock: it is told what
//! comes, and when.

#![tactic(auto)]

mod bytes;
mod guest;
mod laws;
mod places;
mod taking;
mod waiting;

pub use bytes::Bytes;
pub use guest::{Guest, Ready, Reason};
pub use laws::law_of_turns;
pub use places::MOST;
pub use waiting::{Waiting, Whole};
