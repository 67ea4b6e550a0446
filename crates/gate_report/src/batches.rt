ghost use Rattle.std.specs.Prelude.{◌≡◌, ◌++◌, map, IfOk, OnOk, decimal};
ghost use Rattle.std.specs.Fmt.{signed_decimal};
ghost use Rattle.std.specs.String.{string_bytes};
ghost use Rattle.gate_report.specs.Columns as columns;
ghost use Rattle.gate_report.specs.Queue as queue;

use crate::columns::{left, right};
use gate_state::{Batch, Stage};
use gate_text::ChangeNo;
use std::alloc::{AllocError, Global};

// How many places the columns of a row have.
const BATCH: usize = 16;

const BRANCH: usize = 7;

const STATE: usize = 8;

const PRIORITY: usize = 5;

fn stage_word(stage: &Stage) -> &'static str
    ensures { result.now ≡ queue.stage_word stage.now }
{
    match stage {
        Stage::Waiting => "waiting",
        Stage::Ordered { .. } => "ordered",
        Stage::Staged { .. } => "staged",
        Stage::Landing { .. } => "landing",
    }
}

fn number_column(alloc: Global, number: u64) -> Result<String, AllocError>
    ensures { IfOk result (λ column. string_bytes column ≡ columns.right 16 (decimal number)) }
{
    let digits = number.to_string(alloc)?;
    right(alloc, BATCH, digits.as_str())
}

fn priority_column(alloc: Global, priority: i32) -> Result<String, AllocError>
    ensures { IfOk result (λ column. string_bytes column ≡ columns.right 5 (signed_decimal priority)) }
{
    let digits = priority.to_string(alloc)?;
    right(alloc, PRIORITY, digits.as_str())
}

// The numbers of changes, in their order.
fn change_numbers(alloc: Global, changes: &[ChangeNo]) -> Result<String, AllocError>
    ensures { IfOk result (λ text. string_bytes text ≡ queue.change_numbers changes.now) }
{
    let Some((first, others)) = changes.split_first() else {
        return Ok(String::new(alloc));
    };
    let mut text = first.number().to_string(alloc)?;
    for change in others {
        write!(text, ",{}", change.number())?;
    }
    Ok(text)
}

// A row of these columns.
fn row(
    alloc: Global,
    batch: &str,
    branch: &str,
    state: &str,
    priority: &str,
    changes: &str,
) -> Result<String, AllocError>
    ensures { IfOk result (λ text. string_bytes text ≡ queue.row batch.now branch.now state.now priority.now changes.now) }
{
    format!(in alloc; "{batch} {branch} {state} {priority} {changes}\n")
}

// The row of a batch.
#[tactic(auto, unfolding(crate::specs::Queue::batch_row))]
fn batch_row(alloc: Global, batch: &Batch) -> Result<String, AllocError>
    ensures { IfOk result (λ text. string_bytes text ≡ queue.batch_row batch.now) }
{
    let number = number_column(alloc, batch.number)?;
    let branch = left(alloc, BRANCH, batch.branch.word())?;
    let state = left(alloc, STATE, stage_word(&batch.stage))?;
    let priority = priority_column(alloc, batch.priority)?;
    let changes = change_numbers(alloc, batch.changes.as_slice())?;
    row(
        alloc,
        number.as_str(),
        branch.as_str(),
        state.as_str(),
        priority.as_str(),
        changes.as_str(),
    )
}

fn push_row(text: &mut String, alloc: Global, batch: &Batch) -> Result<(), AllocError>
    ensures { OnOk result (string_bytes text.new ≡ string_bytes text.old ++ queue.batch_row batch.now) }
{
    let row = batch_row(alloc, batch)?;
    text.push_str(row.as_str())
}

/// Adds the rows of batches, in their order. `AllocError` if there is no memory for them.
pub fn push_rows(text: &mut String, alloc: Global, batches: &[&Batch]) -> Result<(), AllocError>
    ensures { OnOk result (string_bytes text.new ≡ string_bytes text.old ++ queue.rows (map (λ batch. batch.now) batches.now)) }
{
    for batch in batches {
        push_row(text, alloc, batch)?;
    }
    Ok(())
}
