ghost use Rattle.std.specs.Prelude.{◌≡◌};
ghost use Rattle.std.specs.Cmp.Lexicographic.{slice_cmp};
ghost use Rattle.std.specs.FinMap as finite;
ghost use Rattle.std.specs.List.{list_all};
ghost use Rattle.std.specs.List.Sorted.{IsStrictlySortedBy};
ghost use Rattle.std.specs.Map.{keys_of};
ghost use Rattle.std.specs.Ordering.{nat_cmp};
ghost use Rattle.gate_state.specs.Checks as checks;

use crate::batch::{Batch, Branch, Report, Reports, Stage};
use crate::lane::Lane;
use crate::waiting::has_changes;
use gate_rules::Desk;
use gate_text::Context;
use std::collections::BTreeMap;

// Whether the batches of a branch stand where its batches may: one runs at most, and the others wait.
pub(crate) fn fit_stages(desk: &Desk, on: Branch, lane: &Lane) -> bool
    ensures { result ≡ checks.fit_stages desk.now on lane.now }
{
    all_wait(lane.waiting.as_slice(), on)
        && match &lane.running {
            Some(batch) => fits_running(desk, on, batch),
            None => true,
        }
}

fn all_wait(batches: &[Batch], on: Branch) -> bool
    ensures { result ≡ list_all (checks.fits_waiting on) batches.now }
{
    batches.iter().all(|batch| fits_waiting(batch, on))
}

fn fits_waiting(batch: &Batch, on: Branch) -> bool
    ensures { result ≡ checks.fits_waiting on batch.now }
{
    is_branch(batch.branch, on) && is_waiting(&batch.stage) && has_changes(batch)
}

fn is_branch(branch: Branch, on: Branch) -> bool
    ensures { result ≡ checks.is_branch branch on }
{
    match (branch, on) {
        (Branch::Staging, Branch::Staging) | (Branch::Trying, Branch::Trying) => true,
        (Branch::Staging, Branch::Trying) | (Branch::Trying, Branch::Staging) => false,
    }
}

fn is_waiting(stage: &Stage) -> bool
    ensures { result ≡ checks.is_waiting stage.now }
{
    match stage {
        Stage::Waiting => true,
        Stage::Ordered { .. } | Stage::Staged { .. } | Stage::Landing { .. } => false,
    }
}

fn fits_running(desk: &Desk, on: Branch, batch: &Batch) -> bool
    ensures { result ≡ checks.fits_running desk.now on batch.now }
{
    is_branch(batch.branch, on) && fits_underway(desk, &batch.stage) && has_changes(batch)
}

fn fits_underway(desk: &Desk, stage: &Stage) -> bool
    ensures { result ≡ checks.fits_underway desk.now stage.now }
{
    match stage {
        Stage::Waiting => false,
        Stage::Ordered { since } => *since <= desk.clock(),
        Stage::Staged { since, reports, .. } => *since <= desk.clock()
            && are_required(desk, reports),
        Stage::Landing { .. } => true,
    }
}

// Whether all reports are of required statuses.
fn are_required(desk: &Desk, reports: &Reports) -> bool
    ensures { result ≡ checks.fit_reports desk.now.settings (finite.entries reports.now) }
{
    fit_reports(desk, reports.as_map())
}

fn fit_reports(desk: &Desk, reports: &BTreeMap<Context, Report>) -> bool
    ensures value { result ≡ checks.fit_reports desk.now.settings reports.now.entries }
    ensures ordered { IsStrictlySortedBy (slice_cmp nat_cmp) (keys_of reports.now.entries) }
{
    for (name, _report) in reports {
        if !desk.is_required(name) {
            return false;
        }
    }
    true
}

// Whether each try is of one change, and none is landing.
pub(crate) fn are_alone(lane: &Lane) -> bool
    ensures { result ≡ checks.are_alone lane.now }
{
    all_have_one(lane.waiting.as_slice())
        && match &lane.running {
            Some(batch) => has_one(batch) && !batch.is_landing(),
            None => true,
        }
}

fn all_have_one(batches: &[Batch]) -> bool
    ensures { result ≡ list_all checks.has_one batches.now }
{
    batches.iter().all(has_one)
}

fn has_one(batch: &Batch) -> bool
    ensures { result ≡ checks.has_one batch.now }
{
    batch.changes.as_slice().len() == 1
}
