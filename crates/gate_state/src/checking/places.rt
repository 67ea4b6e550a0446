ghost use Rattle.std.specs.Prelude.{◌≡◌, ◌&&◌};
ghost use Rattle.std.specs.FinMap as finite;
ghost use Rattle.std.specs.List.{list_all};
ghost use Rattle.std.specs.List.Sorted.{IsStrictlySortedBy};
ghost use Rattle.std.specs.Map.{keys_of};
ghost use Rattle.std.specs.Ordering.{nat_cmp};
ghost use Rattle.gate_state.specs.Checks as checks;
ghost use Rattle.gate_state.specs.Lanes as lanes;
ghost use Rattle.gate_state.specs.State.{marks_on};

use crate::batch::{Batch, Branch};
use crate::lane::Lane;
use gate_rules::{Change, Desk};
use gate_text::ChangeNo;
use std::collections::BTreeMap;

// Whether the changes of a branch's batches are those that it has to hold, each once and under its priority, and those of one
// that lands are those that are landing.
pub(crate) fn fit_places(desk: &Desk, on: Branch, lane: &Lane) -> bool
    ensures { result ≡ checks.fit_places (marks_on on desk.now) lane.now (finite.entries desk.now.changes) }
{
    are_all_apart(lane)
        && all_belong(desk, on, lane)
        && are_landing(desk, on, lane)
        && are_all_held(desk, on, lane)
}

fn are_all_apart(lane: &Lane) -> bool
    ensures { result ≡ checks.are_apart (lanes.batches_of lane.now) }
{
    let waiting = lane.waiting.as_slice();
    match &lane.running {
        Some(batch) => is_apart(batch, waiting) && are_apart(waiting),
        None => are_apart(waiting),
    }
}

// Whether no two batches have a change in common, and none has one twice.
fn are_apart(batches: &[Batch]) -> bool
    ensures { result ≡ checks.are_apart batches.now }
{
    let mut rest = batches;
    'batches: while let [first, others @ ..] = rest {
        if !is_apart(first, others) {
            return false;
        }
        rest = others;
    }
    true
}

fn is_apart(batch: &Batch, others: &[Batch]) -> bool
    ensures { result ≡ (checks.all_pairs checks.is_other_change batch.now.changes && checks.none_inside batch.now.changes others.now) }
{
    let changes = batch.changes.as_slice();
    are_different(changes) && none_inside(changes, others)
}

fn are_different(changes: &[ChangeNo]) -> bool
    ensures { result ≡ checks.all_pairs checks.is_other_change changes.now }
{
    let mut rest = changes;
    'changes: while let [first, others @ ..] = rest {
        if !is_unlike(*first, others) {
            return false;
        }
        rest = others;
    }
    true
}

#[tactic(auto, using(crate::proofs::Deciding::none_passes))]
fn is_unlike(change: ChangeNo, others: &[ChangeNo]) -> bool
    ensures { result ≡ list_all (checks.is_other_change change) others.now }
{
    !is_in(change, others)
}

fn none_inside(changes: &[ChangeNo], batches: &[Batch]) -> bool
    ensures { result ≡ checks.none_inside changes.now batches.now }
{
    changes.iter().all(|change| !is_inside(*change, batches))
}

fn is_inside(change: ChangeNo, batches: &[Batch]) -> bool
    ensures { result ≡ checks.is_inside change batches.now }
{
    batches
        .iter()
        .any(|batch| is_in(change, batch.changes.as_slice()))
}

fn is_in(change: ChangeNo, changes: &[ChangeNo]) -> bool
    ensures { result ≡ checks.is_in change changes.now }
{
    changes.contains(&change)
}

// Whether a branch has to hold a change, unless that is landing.
fn is_wanted(desk: &Desk, on: Branch, change: ChangeNo) -> bool
    ensures { result ≡ (marks_on on desk.now).wanted change }
{
    match on {
        Branch::Staging => desk.is_approved(change),
        Branch::Trying => desk.is_trying(change),
    }
}

fn is_landing_on(desk: &Desk, on: Branch, change: ChangeNo) -> bool
    ensures { result ≡ (marks_on on desk.now).landing change }
{
    match on {
        Branch::Staging => desk.is_landing(change),
        Branch::Trying => false,
    }
}

fn priority_on(desk: &Desk, on: Branch, change: ChangeNo) -> i32
    ensures { result ≡ (marks_on on desk.now).priority change }
{
    match (on, desk.change(change)) {
        (Branch::Staging, Some(change)) => change.priority,
        _ => 0,
    }
}

fn belongs(desk: &Desk, on: Branch, change: ChangeNo) -> bool
    ensures { result ≡ checks.belongs (marks_on on desk.now) change }
{
    is_wanted(desk, on, change) || is_landing_on(desk, on, change)
}

fn belongs_to(desk: &Desk, on: Branch, priority: i32, change: ChangeNo) -> bool
    ensures { result ≡ checks.belongs_to (marks_on on desk.now) priority change }
{
    belongs(desk, on, change) && priority == priority_on(desk, on, change)
}

fn belong_to(desk: &Desk, on: Branch, batch: &Batch) -> bool
    ensures { result ≡ checks.belong_to (marks_on on desk.now) batch.now }
{
    let priority = batch.priority;
    let changes = batch.changes.as_slice();
    changes
        .iter()
        .all(|change| belongs_to(desk, on, priority, *change))
}

fn all_belong(desk: &Desk, on: Branch, lane: &Lane) -> bool
    ensures { result ≡ list_all (checks.belong_to (marks_on on desk.now)) (lanes.batches_of lane.now) }
{
    let waiting = lane.waiting.as_slice();
    match &lane.running {
        Some(batch) => belong_to(desk, on, batch) && waiting_belong(desk, on, waiting),
        None => waiting_belong(desk, on, waiting),
    }
}

fn waiting_belong(desk: &Desk, on: Branch, waiting: &[Batch]) -> bool
    ensures { result ≡ list_all (checks.belong_to (marks_on on desk.now)) waiting.now }
{
    waiting.iter().all(|batch| belong_to(desk, on, batch))
}

// The changes of the running batch, if it is landing.
fn landing_changes(lane: &Lane) -> &[ChangeNo]
    ensures { result.now ≡ checks.landing_changes lane.now.running }
{
    match &lane.running {
        Some(batch) if batch.is_landing() => batch.changes.as_slice(),
        Some(_) | None => &[],
    }
}

fn are_landing(desk: &Desk, on: Branch, lane: &Lane) -> bool
    ensures { result ≡ list_all (marks_on on desk.now).landing (checks.landing_changes lane.now.running) }
{
    let changes = landing_changes(lane);
    changes
        .iter()
        .all(|change| is_landing_on(desk, on, *change))
}

fn are_all_held(desk: &Desk, on: Branch, lane: &Lane) -> bool
    ensures { result ≡ checks.are_held (marks_on on desk.now) lane.now (finite.entries desk.now.changes) }
{
    are_held(desk, on, lane, desk.changes())
}

fn are_held(desk: &Desk, on: Branch, lane: &Lane, changes: &BTreeMap<ChangeNo, Change>) -> bool
    ensures value { result ≡ checks.are_held (marks_on on desk.now) lane.now changes.now.entries }
    ensures ordered { IsStrictlySortedBy nat_cmp (keys_of changes.now.entries) }
{
    for (number, _change) in changes {
        if !is_held(desk, on, lane, *number) {
            return false;
        }
    }
    true
}

fn is_held(desk: &Desk, on: Branch, lane: &Lane, change: ChangeNo) -> bool
    ensures { result ≡ checks.is_held (marks_on on desk.now) lane.now change }
{
    (!belongs(desk, on, change) || is_inside_lane(change, lane))
        && (!is_landing_on(desk, on, change) || is_in(change, landing_changes(lane)))
}

fn is_inside_lane(change: ChangeNo, lane: &Lane) -> bool
    ensures { result ≡ checks.is_inside change (lanes.batches_of lane.now) }
{
    let waiting = lane.waiting.as_slice();
    match &lane.running {
        Some(batch) => is_in(change, batch.changes.as_slice()) || is_inside(change, waiting),
        None => is_inside(change, waiting),
    }
}
