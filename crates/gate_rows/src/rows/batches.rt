ghost use Rattle.std.specs.Prelude.{◌≡◌, ◌++◌, ◌-◌, IfOk, OnOk, [], map};
ghost use Rattle.std.specs.List.{cons_option, filter_map, range_with_len};
ghost use Rattle.std.specs.List.Sorted.{IsStrictlySortedBy};
ghost use Rattle.std.specs.Map.{keys_of};
ghost use Rattle.std.specs.Option.{option_copied};
ghost use Rattle.std.specs.Ordering.{nat_cmp};
ghost use Rattle.gate_rows.specs.Encoding as encoding;
ghost use Rattle.gate_rows.specs.Parts as parts;
ghost use Rattle.gate_rows.specs.Parts.{batches_under};

use crate::rows::numbers::{branch_number, flag, integer, stage_number};
use gate_queue::{Before, Gate};
use gate_state::{Batch, Stage};
use gate_tables::BatchRow;
use gate_text::{List, Text};
use std::alloc::{AllocError, Global};
use std::collections::BTreeMap;

/// A row for each batch.
pub(crate) fn batch_rows(alloc: Global, batches: &[&Batch]) -> Result<List<BatchRow>, AllocError>
    ensures { IfOk result (λ rows. rows ≡ map encoding.batch_row (map (λ batch. batch.now) batches.now)) }
{
    let mut rows = Vec::new(alloc);
    for batch in batches {
        rows.push(batch_row(alloc, batch)?)?;
    }
    Ok(List::from(rows))
}

/// The batches that were noted and were there.
pub(crate) fn batches_then(alloc: Global, before: &Before) -> Result<Vec<&Batch>, AllocError>
    ensures { IfOk result (λ batches. map (λ batch. batch.now) batches.items ≡ parts.batches_then before.now) }
{
    noted_batches(alloc, before.batches())
}

/// The batches that a gate has under the noted numbers, and those that it has under new ones.
pub(crate) fn batches_now<'a>(
    alloc: Global,
    before: &Before,
    gate: &'a Gate,
) -> Result<Vec<&'a Batch>, AllocError>
    ensures { IfOk result
        (λ batches. map (λ batch. batch.now) batches.items ≡ parts.batches_now before.now gate.now.queue) }
{
    let mut batches = Vec::new(alloc);
    push_present(&mut batches, before.batches(), gate)?;
    push_new(&mut batches, before.next(), gate)?;
    Ok(batches)
}

fn noted_batches(
    alloc: Global,
    noted: &BTreeMap<u64, Option<Batch>>,
) -> Result<Vec<&Batch>, AllocError>
    ensures value { IfOk result
        (λ batches. map (λ batch. batch.now) batches.items ≡ filter_map (λ e. e.1) noted.now.entries) }
    ensures ordered { IsStrictlySortedBy nat_cmp (keys_of noted.now.entries) }
{
    let mut batches = Vec::new(alloc);
    for (_, batch) in noted {
        push_one(&mut batches, batch.as_ref())?;
    }
    Ok(batches)
}

fn push_present<'a>(
    batches: &mut Vec<&'a Batch>,
    noted: &BTreeMap<u64, Option<Batch>>,
    gate: &'a Gate,
) -> Result<(), AllocError>
    ensures value { OnOk result (map (λ batch. batch.now) batches.new.items
        ≡ map (λ batch. batch.now) batches.old.items ++ batches_under (keys_of noted.now.entries) gate.now.queue) }
    ensures ordered { IsStrictlySortedBy nat_cmp (keys_of noted.now.entries) }
{
    for (number, _) in noted {
        push_one(batches, gate.batch(*number))?;
    }
    Ok(())
}

// Adds the batches under the numbers from one up to the next number.
fn push_new<'a>(batches: &mut Vec<&'a Batch>, from: u64, gate: &'a Gate) -> Result<(), AllocError>
    ensures { OnOk result (map (λ batch. batch.now) batches.new.items
        ≡ map (λ batch. batch.now) batches.old.items
        ++ batches_under (range_with_len from (gate.now.queue.next - from)) gate.now.queue) }
{
    for number in from..gate.next() {
        push_one(batches, gate.batch(number))?;
    }
    Ok(())
}

// Adds a batch, if there is one.
fn push_one<'a>(batches: &mut Vec<&'a Batch>, batch: Option<&'a Batch>) -> Result<(), AllocError>
    ensures { OnOk result (map (λ batch. batch.now) batches.new.items
        ≡ map (λ batch. batch.now) batches.old.items ++ cons_option (option_copied batch.entry) []) }
{
    if let Some(batch) = batch {
        batches.push(batch)?;
    }
    Ok(())
}

fn batch_row(alloc: Global, batch: &Batch) -> Result<BatchRow, AllocError>
    ensures { IfOk result (λ row. row ≡ encoding.batch_row batch.now) }
{
    Ok(BatchRow {
        number: integer(batch.number)?,
        branch: branch_number(batch.branch),
        priority: i64::from(batch.priority),
        again: flag(batch.again),
        phase: stage_number(&batch.stage),
        since: since_of(&batch.stage)?,
        sha: sha_of(alloc, &batch.stage)?,
    })
}

fn since_of(stage: &Stage) -> Result<i64, AllocError>
    ensures { IfOk result (λ since. since ≡ encoding.since_of stage.now) }
{
    match stage {
        Stage::Ordered { since } | Stage::Staged { since, .. } => integer(*since),
        Stage::Waiting | Stage::Landing { .. } => Ok(0),
    }
}

fn sha_of(alloc: Global, stage: &Stage) -> Result<Text, AllocError>
    ensures { IfOk result (λ text. text ≡ encoding.sha_of stage.now) }
{
    match stage {
        Stage::Staged { commit, .. } | Stage::Landing { commit } => {
            Text::from_str(alloc, commit.text())
        }
        Stage::Waiting | Stage::Ordered { .. } => Text::from_str(alloc, ""),
    }
}
