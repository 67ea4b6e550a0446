ghost use Rattle.std.specs.Prelude.{◌≡◌, IfOk, IfErr};
ghost use Rattle.gate_rows.specs.Decoding.{state_in};
ghost use Rattle.gate_rows.specs.Encoding.{rows_of as rows_of_state};
ghost use Rattle.gate_store.specs.Run.{IsOfBooks};
ghost use Rattle.gate_tables.specs.Contents.{AreSame};
ghost use Rattle.gate_tables.specs.declared.row.Rows.{Rows as RowsOf};

use crate::fault::told;
use gate_queue::{Fault, Gate};
use gate_rows::read_gate;
use gate_tables::Rows;
use std::alloc::Global;

/// The gate of whose state these are the rows, in any order. `Store` if there is none, and `Memory` if there is no memory for
/// it.
pub fn gate_of(alloc: Global, rows: Rows) -> Result<Gate, Fault>
    ensures rows { IfOk result (λ gate. AreSame (rows_of_state gate) rows) }
    ensures state { IfOk result (λ gate. (others : RowsOf) → AreSame others rows → gate ≡ state_in others) }
    ensures fault { IfErr result IsOfBooks }
{
    read_gate(alloc, rows).map_err(told)
}
