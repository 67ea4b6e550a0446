ghost use Rattle.gate_tables.specs.Calls.{CompletesTables, Does};

use crate::create::create_wanted;
use crate::fault::TablesFault;
use crate::version::Version;
use sqlite::{Alter, Transaction};

// Brings the tables of a version to those of the last one. Each version but the last has one step, which leads to the next.
pub(crate) fn complete<S: Alter>(
    tx: &mut Transaction<'_, S>,
    version: Version,
) -> Result<(), TablesFault>
    ensures { Does S.Store tx.old tx.new (CompletesTables result version) }
{
    match version {
        Version::Version1 => {
            create_wanted(tx)?;
            complete(tx, Version::Version2)
        }
        Version::Version2 => Ok(()),
    }
}
