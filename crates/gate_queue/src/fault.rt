use std::alloc::AllocError;
use thiserror::Error;

/// Why an act or a delivery could not be answered at all.
#[derive(Clone, Copy, Debug, PartialEq, Eq, Error)]
pub enum Fault {
    /// The allocator had no memory.
    #[error("Memory")]
    Memory,
    /// The records could not be read or written.
    #[error("Store")]
    Store,
    /// The batch numbers are used up.
    #[error("Full")]
    Full,
    /// The rows of a database that was to be opened stand for no state and answers.
    #[error("Foreign")]
    Foreign,
}

impl From<AllocError> for Fault {
    ghost use Rattle.std.specs.Prelude.{◌≡◌};
    ghost use Rattle.gate_queue.specs.declared.fault.Fault.TheVariants.{Memory};

    ghost from_gives = { λ _ fault. fault ≡ Memory };

    fn from(_error: AllocError) -> Fault {
        Fault::Memory
    }
}
