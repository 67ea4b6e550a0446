ghost use Rattle.std.specs.Prelude.{◌≡◌};
ghost use Rattle.gate_tables.specs.Faults.{fault_of};

use sqlite::{Error, ErrorCode};
use std::alloc::AllocError;

/// Why a call on the tables was refused. It then changed nothing.
#[derive(Clone, Copy, Debug, Drop, PartialEq, Eq)]
pub enum TablesFault {
    /// There was no memory for what was asked.
    Memory,
    /// The database failed, or refused what was asked.
    Store,
}

impl From<Error> for TablesFault {
    ghost from_gives = { λ error fault. fault ≡ fault_of error };

    fn from(error: Error) -> TablesFault {
        match error {
            Error::SqliteFailure(ErrorCode::OutOfMemory) => TablesFault::Memory,
            _ => TablesFault::Store,
        }
    }
}

impl From<AllocError> for TablesFault {
    ghost use Rattle.gate_tables.specs.declared.fault.TablesFault.TheVariants.{Memory};

    ghost from_gives = { λ _ fault. fault ≡ Memory };

    fn from(_error: AllocError) -> TablesFault {
        TablesFault::Memory
    }
}
