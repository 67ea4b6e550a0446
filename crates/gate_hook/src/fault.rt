use gate_queue::Fault;
use std::alloc::AllocError;
use thiserror::Error;

/// Why serving stopped before its end.
#[derive(Clone, Copy, Debug, PartialEq, Eq, Error)]
pub enum HookFault {
    /// A delivery met a fault, or there was no memory to read a line or a token, or for what was to be written. `serve_one`,
    /// `serve_guarded` and `send` never answer it.
    #[error(transparent)]
    Gate(Fault),
    /// The reader failed; an interrupted read is a failure too.
    #[error("Read")]
    Read,
    /// The writer failed, or took no byte.
    #[error("Write")]
    Write,
    /// The input isn't at its end after 4,294,967,296 bytes. From `serve_lines` alone.
    #[error("TooMuch")]
    TooMuch,
}

impl From<Fault> for HookFault {
    ghost use Rattle.std.specs.Prelude.{◌≡◌};
    ghost use Rattle.gate_hook.specs.declared.fault.HookFault.TheVariants.{Gate};

    ghost from_gives = { λ gate fault. fault ≡ Gate gate };

    fn from(fault: Fault) -> HookFault {
        HookFault::Gate(fault)
    }
}

impl From<AllocError> for HookFault {
    ghost use Rattle.std.specs.Prelude.{◌≡◌};
    ghost use Rattle.gate_hook.specs.declared.fault.HookFault.TheVariants.{Gate};
    ghost use Rattle.gate_queue.specs.declared.fault.Fault.TheVariants.{Memory};

    ghost from_gives = { λ _ fault. fault ≡ Gate Memory };

    fn from(_error: AllocError) -> HookFault {
        HookFault::Gate(Fault::Memory)
    }
}
