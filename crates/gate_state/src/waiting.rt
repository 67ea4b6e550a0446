ghost use Rattle.std.specs.Prelude.{◌≡◌, ◌<◌, if◌then◌else◌, is_some, IfOk, IfSome, OnOk, length, map};
ghost use Rattle.std.specs.List.{list_all, position};
ghost use Rattle.gate_text.specs.LastWhere.{last_where};
ghost use Rattle.gate_state.specs.Lanes as lanes;

use crate::batch::{Batch, Branch, Changes, Stage};
use crate::choice::Choice;
use gate_text::ChangeNo;
use std::alloc::{AllocError, Global};

/// The greatest next number. That of each batch is below it.
pub const MAX_NEXT: u64 = 9_000_000_000_000_000;

pub(crate) fn goes_before(one: &Batch, other: &Batch) -> bool
    ensures { result ≡ lanes.goes_before one.now other.now }
{
    if one.priority != other.priority {
        return one.priority > other.priority;
    }
    if one.again != other.again {
        return one.again;
    }
    one.number < other.number
}

// The place of the first batch that a batch goes before.
fn first_behind(waiting: &[Batch], batch: &Batch) -> Option<usize>
    ensures value { result ≡ position (lanes.goes_before batch.now) waiting.now }
    ensures within { IfSome result (λ place. place < length waiting.now) }
{
    waiting.iter().position(|other| goes_before(batch, other))
}

// Puts a batch at its place.
pub(crate) fn place(waiting: &mut Vec<Batch>, batch: Batch) -> Result<(), AllocError>
    ensures { OnOk result (waiting.new.items ≡ lanes.placed batch waiting.old.items) }
{
    let place = first_behind(waiting.as_slice(), &batch).unwrap_or(waiting.len());
    waiting.insert(place, batch)?;
    Ok(())
}

fn is_fresh_of(batch: &Batch, priority: i32) -> bool
    ensures { result ≡ lanes.is_fresh_of priority batch.now }
{
    !batch.again && batch.priority == priority
}

// The place of the last fresh batch of a priority.
pub(crate) fn last_fresh(waiting: &[Batch], priority: i32) -> Option<usize>
    ensures value { result ≡ last_where (lanes.is_fresh_of priority) waiting.now }
    ensures within { IfSome result (λ place. place < length waiting.now) }
{
    waiting
        .iter()
        .rposition(|batch| is_fresh_of(batch, priority))
}

// Whether a batch has other changes than this one.
fn has_others(batch: &Batch, change: ChangeNo) -> bool
    ensures { result ≡ lanes.has_others change batch.now }
{
    batch
        .changes
        .as_slice()
        .iter()
        .any(|other| *other != change)
}

// The place of the last fresh batch of a priority that has other changes than this one.
pub(crate) fn last_fresh_beside(waiting: &[Batch], priority: i32, change: ChangeNo) -> Option<usize>
    ensures value { result ≡ last_where (lanes.is_fresh_beside priority change) waiting.now }
    ensures within { IfSome result (λ place. place < length waiting.now) }
{
    waiting.iter().rposition(|batch| is_fresh_of(batch, priority) && has_others(batch, change))
}

fn has_room(batch: &Batch, size: Option<u32>) -> bool
    ensures { result ≡ lanes.has_room size batch.now }
{
    match size {
        Some(size) => (batch.changes.as_slice().len() as u64) < u64::from(size),
        None => true,
    }
}

// The place of the batch that a change of this priority joins.
fn joins(waiting: &[Batch], priority: i32, size: Option<u32>) -> Option<usize>
    ensures value { result ≡ lanes.joins size priority waiting.now }
    ensures within { IfSome result (λ place. place < length waiting.now) }
{
    let place = last_fresh(waiting, priority)?;
    if has_room(&waiting[place], size) {
        Some(place)
    } else {
        None
    }
}

fn join(batch: &mut Batch, change: ChangeNo) -> Result<(), AllocError>
    ensures { OnOk result (batch.new ≡ lanes.with_change change batch.old) }
{
    batch.changes.push(change)
}

fn fresh(alloc: Global, number: u64, priority: i32, change: ChangeNo) -> Result<Batch, AllocError>
    ensures { IfOk result (λ batch. batch ≡ lanes.fresh number priority change) }
{
    Ok(Batch {
        number,
        branch: Branch::Staging,
        priority,
        again: false,
        stage: Stage::Waiting,
        changes: Changes::from(vec![in alloc; change]?),
    })
}

// Puts a change among the waiting batches, and answers how many numbers that uses: none if it joins the batch at a place.
pub(crate) fn enter(
    waiting: &mut Vec<Batch>,
    alloc: Global,
    number: u64,
    priority: i32,
    change: ChangeNo,
    size: Option<u32>,
) -> Result<u64, AllocError>
    ensures waiting { OnOk result (waiting.new.items
        ≡ lanes.entered number priority change waiting.old.items (lanes.joins size priority waiting.old.items)) }
    ensures uses { IfOk result (λ used. used ≡ if is_some (lanes.joins size priority waiting.old.items) then 0 else 1) }
{
    match joins(waiting.as_slice(), priority, size) {
        Some(place) => {
            let batch = &mut waiting[place];
            join(batch, change)?;
            Ok(0)
        }
        None => {
            place(waiting, fresh(alloc, number, priority, change)?)?;
            Ok(1)
        }
    }
}

// A batch of this change alone, on `Trying`.
fn try_of(alloc: Global, number: u64, change: ChangeNo) -> Result<Batch, AllocError>
    ensures { IfOk result (λ batch. batch ≡ lanes.try_of number change) }
{
    Ok(Batch {
        number,
        branch: Branch::Trying,
        priority: 0,
        again: false,
        stage: Stage::Waiting,
        changes: Changes::from(vec![in alloc; change]?),
    })
}

// Puts a change among the waiting batches, as a batch of its own on `Trying`.
pub(crate) fn enter_alone(
    waiting: &mut Vec<Batch>,
    alloc: Global,
    number: u64,
    change: ChangeNo,
) -> Result<(), AllocError>
    ensures { OnOk result (waiting.new.items ≡ lanes.placed (lanes.try_of number change) waiting.old.items) }
{
    place(waiting, try_of(alloc, number, change)?)
}

pub(crate) fn has_changes(batch: &Batch) -> bool
    ensures { result ≡ lanes.has_changes batch.now }
{
    !batch.changes.as_slice().is_empty()
}

// The batch again, under another number.
fn retried(number: u64, mut batch: Batch) -> Batch
    ensures { result ≡ lanes.retried number batch }
{
    batch.number = number;
    batch.again = true;
    batch.stage = Stage::Waiting;
    batch
}

// Lets a batch wait again, if it has changes, and answers how many numbers that uses.
pub(crate) fn put_back(
    waiting: &mut Vec<Batch>,
    number: u64,
    batch: Batch,
) -> Result<u64, AllocError>
    ensures waiting { OnOk result (waiting.new.items ≡ lanes.back number batch waiting.old.items) }
    ensures uses { IfOk result (λ used. used ≡ lanes.back_uses batch) }
{
    if !has_changes(&batch) {
        return Ok(0);
    }
    place(waiting, retried(number, batch))?;
    Ok(1)
}

// Whether each of the changes is chosen.
pub(crate) fn has_all<C: Choice>(choice: &C, changes: &[ChangeNo]) -> bool
    ensures { result ≡ list_all (λ change. C.chooses change choice.now) changes.now }
{
    for change in changes {
        if !choice.has(*change) {
            return false;
        }
    }
    true
}

// Keeps the chosen changes of a batch.
pub(crate) fn keep<C: Choice>(batch: &mut Batch, choice: &C)
    ensures { batch.new ≡ lanes.only (λ change. C.chooses change choice.now) batch.old }
{
    batch.changes.retain(|change| choice.has(*change));
}

// Lets only the chosen changes stay, and drops the batches that are left empty.
pub(crate) fn leave<C: Choice>(waiting: &mut Vec<Batch>, choice: &C)
    ensures { waiting.new.items ≡ lanes.left (λ change. C.chooses change choice.now) waiting.old.items }
{
    keep_in_all(waiting, choice);
    waiting.retain(|batch| has_changes(batch));
}

// Keeps the chosen changes of each batch.
fn keep_in_all<C: Choice>(batches: &mut Vec<Batch>, choice: &C)
    ensures { batches.new.items ≡ map (lanes.only (λ change. C.chooses change choice.now)) batches.old.items }
{
    for batch in batches.iter_mut() {
        keep(batch, choice);
    }
}

// These changes of a batch, as one that waits again.
fn part(
    alloc: Global,
    number: u64,
    batch: &Batch,
    changes: &[ChangeNo],
) -> Result<Batch, AllocError>
    ensures { IfOk result (λ part. part ≡ lanes.retried number (record batch.now { changes = changes.now })) }
{
    let changes = Changes::from(Vec::from_slice(alloc, changes)?);
    Ok(Batch {
        number,
        branch: batch.branch,
        priority: batch.priority,
        again: true,
        stage: Stage::Waiting,
        changes,
    })
}

// The first half of a batch, rounded down.
fn first_half(alloc: Global, number: u64, batch: &Batch) -> Result<Batch, AllocError>
    ensures { IfOk result (λ half. half ≡ lanes.retried number (lanes.first_half batch.now)) }
{
    let changes = batch.changes.as_slice();
    part(alloc, number, batch, &changes[..changes.len() / 2])
}

// What the first half leaves of a batch.
fn second_half(alloc: Global, number: u64, batch: &Batch) -> Result<Batch, AllocError>
    ensures { IfOk result (λ half. half ≡ lanes.retried number (lanes.second_half batch.now)) }
{
    let changes = batch.changes.as_slice();
    part(alloc, number, batch, &changes[changes.len() / 2..])
}

// Puts the two halves of a batch among the waiting ones.
pub(crate) fn split_into(
    waiting: &mut Vec<Batch>,
    alloc: Global,
    number: u64,
    batch: &Batch,
) -> Result<(), AllocError>
    requires { number < MAX_NEXT }
    ensures { OnOk result (waiting.new.items ≡ lanes.split_into number batch.now waiting.old.items) }
{
    let first = first_half(alloc, number, batch)?;
    let second = second_half(alloc, number + 1, batch)?;
    place(waiting, first)?;
    place(waiting, second)?;
    Ok(())
}
