//! What the machine of the merge bot takes, gives and keeps: acts, replies and orders; and a state, which is the desk and the
//! batches of both branches in order of service, and what is done to batches.
#![tactic(auto)]

mod act;
mod batch;
mod checking;
mod choice;
mod lane;
mod laws;
mod moment;
mod queue;
mod reply;
mod state;
mod waiting;

pub use act::{Act, ChangeFact, Deed, Fact, StatusState};
pub use batch::{Batch, Branch, Changes, Report, Reports, Stage};
pub use choice::{AllBut, Approved, Choice, Tried};
pub use lane::{Batches, Lane};
pub use laws::{law_of_changes, law_of_checks, law_of_service};
pub use moment::Moment;
pub use queue::Queue;
pub use reply::{Head, Heads, Order, Orders, Reply, Why};
pub use state::State;
pub use waiting::MAX_NEXT;
