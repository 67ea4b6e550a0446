ghost use Rattle.std.specs.Prelude.{◌≡◌, IfOk, pos};
ghost use Rattle.gate_rows.specs.Encoding as encoding;

use gate_rules::{Phase, Repeat, Role};
use gate_state::{Branch, Report, Stage};
use std::alloc::AllocError;

/// A number as the database takes it. `AllocError` for one above the greatest that it takes, which no state keeps.
pub(crate) fn integer(number: u64) -> Result<i64, AllocError>
    ensures { IfOk result (λ integer. integer ≡ pos number) }
{
    match i64::try_from(number) {
        Ok(integer) => Ok(integer),
        Err(_) => Err(AllocError),
    }
}

pub(crate) fn flag(is: bool) -> i64
    ensures { result ≡ encoding.flag is }
{
    if is { 1 } else { 0 }
}

pub(crate) fn role_number(role: Role) -> i64
    ensures { result ≡ encoding.role_number role }
{
    match role {
        Role::Nobody => 0,
        Role::Member => 1,
        Role::Reviewer => 2,
    }
}

pub(crate) fn phase_number(phase: Phase) -> i64
    ensures { result ≡ encoding.phase_number phase }
{
    match phase {
        Phase::Opened => 1,
        Phase::Closed => 2,
        Phase::Landed => 3,
    }
}

pub(crate) fn last_number(last: &Option<Repeat>) -> i64
    ensures { result ≡ encoding.last_number last.now }
{
    match last {
        None => 0,
        Some(Repeat::Approve) => 1,
        Some(Repeat::ApproveFor(_)) => 2,
        Some(Repeat::Try) => 3,
    }
}

pub(crate) fn branch_number(branch: Branch) -> i64
    ensures { result ≡ encoding.branch_number branch }
{
    match branch {
        Branch::Staging => 1,
        Branch::Trying => 2,
    }
}

pub(crate) fn stage_number(stage: &Stage) -> i64
    ensures { result ≡ encoding.stage_number stage.now }
{
    match stage {
        Stage::Waiting => 1,
        Stage::Ordered { .. } => 2,
        Stage::Staged { .. } => 3,
        Stage::Landing { .. } => 4,
    }
}

pub(crate) fn report_number(report: Report) -> i64
    ensures { result ≡ encoding.report_number report }
{
    match report {
        Report::Success => 1,
        Report::Pending => 2,
    }
}

/// A place in a list. `AllocError` for one that no list has.
pub(crate) fn place_number(place: usize) -> Result<i64, AllocError>
    ensures { IfOk result (λ number. number ≡ pos place) }
{
    match i64::try_from(place) {
        Ok(number) => Ok(number),
        Err(_) => Err(AllocError),
    }
}
