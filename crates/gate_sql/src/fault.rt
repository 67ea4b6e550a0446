ghost use Rattle.std.specs.Prelude.{◌≡◌};
ghost use Rattle.gate_sql.specs.Faults.{told_as};

use gate_queue::Fault;
use gate_tables::TablesFault;

// What a book tells of a fault of its tables.
pub(crate) fn told(fault: TablesFault) -> Fault
    ensures value { result ≡ told_as fault }
{
    match fault {
        TablesFault::Memory => Fault::Memory,
        TablesFault::Store => Fault::Store,
    }
}
