ghost use Rattle.std.specs.Prelude.{◌≡◌, ◌∷◌, [], IfOk};
ghost use Rattle.gate_rows.specs.Encoding as encoding;

mod batches;
mod changes;
mod desk;
mod marks;
mod members;
mod numbers;
mod parts;
mod people;
mod statuses;
mod wanted;

use batches::batch_rows;
use changes::change_rows;
use desk::desk_row;
use gate_queue::Gate;
use gate_tables::{DeskRow, Rows};
use gate_text::List;
use marks::mark_rows;
use members::member_rows;
pub(crate) use parts::{rows_now, rows_then};
use people::person_rows;
use statuses::status_rows;
use std::alloc::{AllocError, Global};
use wanted::wanted_rows;

/// The rows of the state of a gate. `AllocError` if there is no memory for them.
pub fn rows_of(alloc: Global, gate: &Gate) -> Result<Rows, AllocError>
    ensures value { IfOk result (λ rows. rows ≡ encoding.rows_of gate.now) }
{
    let state = gate.state();
    let batches = state.queue.batches(alloc)?;
    Ok(Rows {
        desk: one(alloc, desk_row(alloc, gate)?)?,
        people: person_rows(alloc, &state.desk)?,
        changes: change_rows(alloc, &state.desk)?,
        marks: mark_rows(alloc, &state.desk)?,
        batches: batch_rows(alloc, &batches)?,
        members: member_rows(alloc, &batches)?,
        statuses: status_rows(alloc, &batches)?,
        wanted: wanted_rows(alloc, state.desk.settings())?,
    })
}

/// The one row of the desk, as a table.
pub(crate) fn one(alloc: Global, row: DeskRow) -> Result<List<DeskRow>, AllocError>
    ensures { IfOk result (λ rows. rows ≡ row ∷ []) }
{
    let mut rows = Vec::new(alloc);
    rows.push(row)?;
    Ok(List::from(rows))
}
