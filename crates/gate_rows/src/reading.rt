ghost use Rattle.std.specs.Prelude.{◌≡◌, IfOk, IsTrue};
ghost use Rattle.gate_tables.specs.Contents.{AreSame};
ghost use Rattle.gate_rows.specs.Decoding.{state_in};
ghost use Rattle.gate_rows.specs.Encoding.{rows_of as rows_of_state};
ghost use Rattle.gate_tables.specs.declared.row.Rows.{Rows as RowsOf};

mod batches;
mod changes;
mod desk;
mod words;

use crate::laws::law_of_rows_of;
use crate::reading::batches::queue_in;
use crate::reading::desk::desk_in;
use crate::reading::words::natural;
use crate::rows::rows_of;
use crate::sorting::{are_same, in_order};
use gate_queue::Gate;
use gate_state::State;
use gate_tables::{Rows, TablesFault};
use std::alloc::{AllocError, Global};

/// The gate of whose state these are the rows, in any order. `Store` if there is none, and `Memory` if there is no memory for
/// it.
pub fn read_gate(alloc: Global, rows: Rows) -> Result<Gate, TablesFault>
    ensures rows { IfOk result (λ gate. AreSame (rows_of_state gate) rows) }
    ensures state { IfOk result (λ gate. (others : RowsOf) → AreSame others rows → gate ≡ state_in others) }
{
    let rows = in_order(rows);
    match guess(alloc, &rows) {
        Ok(gate) => if_same(alloc, gate, rows),
        Err(fault) => {
            drop(rows);
            Err(fault)
        }
    }
}

// A gate, if these are the rows of its state.
fn if_same(alloc: Global, gate: Gate, rows: Rows) -> Result<Gate, TablesFault>
    ensures rows { IfOk result (λ gate. AreSame (rows_of_state gate) rows) }
    ensures state { IfOk result (λ gate. (others : RowsOf) → AreSame others rows → gate ≡ state_in others) }
{
    law_of_rows_of(&gate);
    match has_rows(alloc, &gate, rows) {
        Ok(true) => Ok(gate),
        Ok(false) => {
            drop(gate);
            Err(TablesFault::Store)
        }
        Err(_) => {
            drop(gate);
            Err(TablesFault::Memory)
        }
    }
}

fn has_rows(alloc: Global, gate: &Gate, rows: Rows) -> Result<bool, AllocError>
    ensures { IfOk result (λ has. IsTrue has → AreSame (rows_of_state gate.now) rows) }
{
    match rows_of(alloc, gate) {
        Ok(own) => Ok(are_same(own, rows)),
        Err(error) => {
            drop(rows);
            Err(error)
        }
    }
}

// What may be the gate of these rows. It needs no contract: the rows of what is found are compared with these.
fn guess(alloc: Global, rows: &Rows) -> Result<Gate, TablesFault> {
    Gate::from_state(state_of(alloc, rows)?).ok_or(TablesFault::Store)
}

fn state_of(alloc: Global, rows: &Rows) -> Result<State, TablesFault> {
    let row = rows.desk.as_slice().first().ok_or(TablesFault::Store)?;
    let next = natural(row.next_batch)?;
    let mut desk = desk_in(alloc, rows, row)?;
    match queue_in(alloc, &mut desk, rows, next) {
        Ok(queue) => Ok(State { desk, queue }),
        Err(fault) => {
            drop(desk);
            Err(fault)
        }
    }
}
