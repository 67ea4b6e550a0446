ghost use Rattle.std.specs.Prelude.{◌≡◌, ◌↔◌, true, IfOk};
ghost use Rattle.gate_state.specs.State.{IsState};

use crate::checking::fits;
use crate::queue::Queue;
use gate_rules::Desk;
use std::alloc::{AllocError, Global};

/// The parts of a state of the machine: the desk and the batches. They may also not fit together, if they come from elsewhere.
#[derive(Drop)]
pub struct State {
    /// Roles, changes, settings, base and clock.
    pub desk: Desk,
    /// The batches, and the next number.
    pub queue: Queue,
}

impl State {
    /// Whether the parts fit together: whether they stand for a state of the machine. It takes no memory.
    pub fn fits(&self) -> bool
        ensures state { (result ≡ true) ↔ IsState self.now }
    {
        fits(self)
    }

    /// A copy, or `AllocError` if there is no memory for it.
    pub fn copy(&self, alloc: Global) -> Result<State, AllocError>
        ensures value { IfOk result (λ copy. copy ≡ self.now) }
    {
        Ok(State {
            desk: self.desk.copy(alloc)?,
            queue: self.queue.copy(alloc)?,
        })
    }
}
