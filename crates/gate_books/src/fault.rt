use gate_hook::HookFault;
use gate_queue::Fault;
use std::alloc::AllocError;
use std::io;
use thiserror::Error;

/// Why the program stopped before its end.
#[derive(Debug, Drop, Error)]
pub(crate) enum BooksFault {
    /// It was started without a word, or with one that means nothing.
    #[error("Usage")]
    Usage,
    /// The lines weren't served to their end.
    #[error("{0}")]
    Hook(HookFault),
    /// Standard input or output failed.
    #[error("Device")]
    Device,
    /// The rows of the tables weren't read.
    #[error("Rows")]
    Rows,
}

impl From<HookFault> for BooksFault {
    fn from(fault: HookFault) -> BooksFault {
        BooksFault::Hook(fault)
    }
}

impl From<Fault> for BooksFault {
    fn from(fault: Fault) -> BooksFault {
        BooksFault::Hook(HookFault::Gate(fault))
    }
}

impl From<AllocError> for BooksFault {
    fn from(_: AllocError) -> BooksFault {
        BooksFault::Hook(HookFault::Gate(Fault::Memory))
    }
}

impl From<io::Error> for BooksFault {
    fn from(error: io::Error) -> BooksFault {
        match error.kind() {
            io::ErrorKind::OutOfMemory => BooksFault::from(Fault::Memory),
            _ => BooksFault::Device,
        }
    }
}

impl From<sqlite::Error> for BooksFault {
    fn from(_: sqlite::Error) -> BooksFault {
        BooksFault::Rows
    }
}
