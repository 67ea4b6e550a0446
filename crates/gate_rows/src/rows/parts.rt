ghost use Rattle.std.specs.Prelude.{◌≡◌, IfOk};
ghost use Rattle.std.specs.Option.{option_copied};
ghost use Rattle.gate_rows.specs.Parts as parts;

use crate::rows::batches::{batch_rows, batches_now, batches_then};
use crate::rows::changes::{push_now, push_then};
use crate::rows::desk::{desk_row, desk_row_of};
use crate::rows::members::member_rows;
use crate::rows::one;
use crate::rows::people::{people_now, people_then};
use crate::rows::statuses::status_rows;
use crate::rows::wanted::wanted_rows;
use gate_queue::{Before, Gate};
use gate_tables::{Rows, WantedRow};
use gate_text::{List, Settings};
use std::alloc::{AllocError, Global};

/// The rows of the parts that were noted, as they were. `AllocError` if there is no memory for them.
pub(crate) fn rows_then(alloc: Global, before: &Before, gate: &Gate) -> Result<Rows, AllocError>
    ensures { IfOk result (λ rows. rows ≡ parts.rows_then before.now gate.now) }
{
    let batches = batches_then(alloc, before)?;
    let mut changes = Vec::new(alloc);
    let mut marks = Vec::new(alloc);
    push_then(alloc, &mut changes, &mut marks, before)?;
    let desk = desk_row_of(
        alloc,
        before.next(),
        before.clock(),
        before.base(),
        settings_then(before, gate),
    )?;
    Ok(Rows {
        desk: one(alloc, desk)?,
        people: people_then(alloc, before)?,
        changes: List::from(changes),
        marks: List::from(marks),
        batches: batch_rows(alloc, &batches)?,
        members: member_rows(alloc, &batches)?,
        statuses: status_rows(alloc, &batches)?,
        wanted: wanted_then(alloc, before)?,
    })
}

/// The rows of the parts that were noted, as a gate has them. `AllocError` if there is no memory for them.
pub(crate) fn rows_now(alloc: Global, before: &Before, gate: &Gate) -> Result<Rows, AllocError>
    ensures { IfOk result (λ rows. rows ≡ parts.rows_now before.now gate.now) }
{
    let batches = batches_now(alloc, before, gate)?;
    let mut changes = Vec::new(alloc);
    let mut marks = Vec::new(alloc);
    push_now(alloc, &mut changes, &mut marks, before, gate.desk())?;
    Ok(Rows {
        desk: one(alloc, desk_row(alloc, gate)?)?,
        people: people_now(alloc, before, gate.desk())?,
        changes: List::from(changes),
        marks: List::from(marks),
        batches: batch_rows(alloc, &batches)?,
        members: member_rows(alloc, &batches)?,
        statuses: status_rows(alloc, &batches)?,
        wanted: wanted_now(alloc, before, gate)?,
    })
}

// The settings that were noted, or else those of the gate.
fn settings_then<'a>(before: &'a Before, gate: &'a Gate) -> Option<&'a Settings>
    ensures { option_copied result ≡ parts.settings_then before.now gate.now }
{
    match before.settings() {
        Some(noted) => noted.as_ref(),
        None => gate.desk().settings(),
    }
}

// The lists of the settings that were noted.
fn wanted_then(alloc: Global, before: &Before) -> Result<List<WantedRow>, AllocError>
    ensures { IfOk result (λ rows. rows ≡ parts.wanted_then before.now) }
{
    match before.settings() {
        Some(noted) => wanted_rows(alloc, noted.as_ref()),
        None => Ok(List::from(Vec::new(alloc))),
    }
}

// The lists of the settings, if settings were noted.
fn wanted_now(alloc: Global, before: &Before, gate: &Gate) -> Result<List<WantedRow>, AllocError>
    ensures { IfOk result (λ rows. rows ≡ parts.wanted_now before.now gate.now) }
{
    match before.settings() {
        Some(_) => wanted_rows(alloc, gate.desk().settings()),
        None => Ok(List::from(Vec::new(alloc))),
    }
}
