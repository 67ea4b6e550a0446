ghost use Rattle.std.specs.Prelude.{◌≡◌, [], ◌∷◌, ◌++◌, IfOk, OnOk};
ghost use Rattle.std.specs.Option.{option_copied};
ghost use Rattle.gate_queue.specs.MayChange as may;
ghost use Rattle.gate_queue.specs.Touching as touching;
ghost use Rattle.gate_state.specs.Lanes as lanes;

use crate::settings::LosesApproval;
use gate_rules::{Condition, Desk};
use gate_state::{AllBut, Batch, Choice, Lane, Queue, State};
use gate_text::{ChangeNo, Settings};
use std::alloc::{AllocError, Global};

/// The changes that stay tried if the running batch on `Staging` lands.
#[derive(Clone, Copy)]
pub struct StaysTried<'a> {
    /// The state.
    pub state: &'a State,
}

impl Choice for StaysTried<'_> {
    ghost use Rattle.gate_queue.specs.MayChange.{stays_tried};

    ghost chooses = { λ change stays. stays_tried stays.state.now change };

    fn has(&self, change: ChangeNo) -> bool {
        self.state.desk.is_trying(change) && !runs(change, &self.state.queue.staging)
    }
}

// Whether a change is in the running batch.
fn runs(change: ChangeNo, lane: &Lane) -> bool
    ensures { result ≡ may.is_run change lane.now }
{
    match &lane.running {
        Some(batch) => batch.loses(&AllBut { change }),
        None => false,
    }
}

/// The changes that stay approved under new settings.
#[derive(Clone, Copy)]
pub struct StaysApproved<'a> {
    /// The desk.
    pub desk: &'a Desk,
    /// The new settings.
    pub settings: &'a Settings,
}

impl Choice for StaysApproved<'_> {
    ghost use Rattle.gate_queue.specs.Machine.{with_new_settings};
    ghost use Rattle.gate_state.specs.State.{approved_on};

    ghost chooses = { λ change stays. approved_on (with_new_settings stays.desk.now stays.settings.now) change };

    fn has(&self, change: ChangeNo) -> bool {
        let loses = LosesApproval {
            settings: self.settings,
        };
        match self.desk.change(change) {
            Some(change) => change.approved.is_some() && !loses.is_met(change),
            None => false,
        }
    }
}

/// The numbers of the batches that a deed on a change may change, which has this priority after it: those that have it, and
/// those that it may join. `AllocError` if there is no memory for them.
pub fn that_may_join(
    alloc: Global,
    queue: &Queue,
    priority: i32,
    change: ChangeNo,
) -> Result<Vec<u64>, AllocError>
    ensures { IfOk result (λ numbers. numbers.items ≡ touching.joining priority change queue.now) }
{
    let but = AllBut { change };
    let mut numbers = Vec::new(alloc);
    push_losing(&mut numbers, &queue.staging, &but)?;
    push_losing(&mut numbers, &queue.trying, &but)?;
    push_number(&mut numbers, queue.staging.last_fresh(priority))?;
    let beside = queue.staging.last_fresh_beside(priority, change);
    push_number(&mut numbers, beside)?;
    Ok(numbers)
}

/// The numbers of the batches in front of both branches. `AllocError` if there is no memory for them.
pub fn in_front(alloc: Global, queue: &Queue) -> Result<Vec<u64>, AllocError>
    ensures { IfOk result (λ numbers. numbers.items ≡ touching.fronts queue.now) }
{
    let mut numbers = front(alloc, &queue.staging)?;
    let mut others = front(alloc, &queue.trying)?;
    numbers.append(&mut others)?;
    Ok(numbers)
}

// The numbers of the running batch and of the first that waits.
fn front(alloc: Global, lane: &Lane) -> Result<Vec<u64>, AllocError>
    ensures { IfOk result (λ numbers. numbers.items ≡ touching.front lane.now) }
{
    let mut numbers = Vec::new(alloc);
    push_number(&mut numbers, lane.running.as_ref())?;
    push_number(&mut numbers, lane.waiting.as_slice().first())?;
    Ok(numbers)
}

/// The numbers of the batches of a branch that lose a change if only the chosen ones stay. `AllocError` if there is no memory for
/// them.
pub fn that_lose<C: Choice>(alloc: Global, lane: &Lane, choice: &C) -> Result<Vec<u64>, AllocError>
    ensures { IfOk result
        (λ numbers. numbers.items ≡ touching.numbers_so (lanes.loses
        (λ change. C.chooses change choice.now)) (lanes.batches_of lane.now)) }
{
    let mut numbers = Vec::new(alloc);
    push_losing(&mut numbers, lane, choice)?;
    Ok(numbers)
}

/// The numbers of the batches that new settings may change. `AllocError` if there is no memory for them.
pub fn that_may_settle(
    alloc: Global,
    state: &State,
    settings: &Settings,
) -> Result<Vec<u64>, AllocError>
    ensures { IfOk result (λ numbers. numbers.items ≡ touching.settling state.now settings.now) }
{
    let State { desk, queue } = state;
    let mut numbers = Vec::new(alloc);
    push_number(&mut numbers, queue.staging.running.as_ref())?;
    push_number(&mut numbers, queue.trying.running.as_ref())?;
    let stays = StaysApproved { desk, settings };
    push_that_lose(&mut numbers, queue.staging.waiting.as_slice(), &stays)?;
    Ok(numbers)
}

// Adds the numbers of the batches of a branch that lose a change if only the chosen ones stay.
fn push_losing<C: Choice>(numbers: &mut Vec<u64>, lane: &Lane, choice: &C) -> Result<(), AllocError>
    ensures { OnOk result (numbers.new.items ≡ numbers.old.items ++ touching.numbers_so (lanes.loses
        (λ change. C.chooses change choice.now)) (lanes.batches_of lane.now)) }
{
    if let Some(batch) = &lane.running {
        push_if_losing(numbers, batch, choice)?;
    }
    push_that_lose(numbers, lane.waiting.as_slice(), choice)?;
    Ok(())
}

// The same for some batches.
fn push_that_lose<C: Choice>(
    numbers: &mut Vec<u64>,
    batches: &[Batch],
    choice: &C,
) -> Result<(), AllocError>
    ensures { OnOk result (numbers.new.items ≡ numbers.old.items ++ touching.numbers_so (lanes.loses
        (λ change. C.chooses change choice.now)) batches.now) }
{
    for batch in batches {
        push_if_losing(numbers, batch, choice)?;
    }
    Ok(())
}

// The same for one batch.
fn push_if_losing<C: Choice>(
    numbers: &mut Vec<u64>,
    batch: &Batch,
    choice: &C,
) -> Result<(), AllocError>
    ensures { OnOk result (numbers.new.items ≡ numbers.old.items ++ touching.numbers_so (lanes.loses
        (λ change. C.chooses change choice.now)) (batch.now ∷ [])) }
{
    if batch.loses(choice) {
        numbers.push(batch.number)?;
    }
    Ok(())
}

// Adds the number of a batch, if there is one.
fn push_number(numbers: &mut Vec<u64>, batch: Option<&Batch>) -> Result<(), AllocError>
    ensures { OnOk result (numbers.new.items ≡ numbers.old.items ++ touching.number_of (option_copied batch.entry)) }
{
    if let Some(batch) = batch {
        numbers.push(batch.number)?;
    }
    Ok(())
}
