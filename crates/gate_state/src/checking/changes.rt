ghost use Rattle.std.specs.Prelude.{◌≡◌};
ghost use Rattle.std.specs.FinMap as finite;
ghost use Rattle.std.specs.List.{list_all};
ghost use Rattle.std.specs.List.Sorted.{IsStrictlySortedBy};
ghost use Rattle.std.specs.Map.{keys_of};
ghost use Rattle.std.specs.Ordering.{nat_cmp};
ghost use Rattle.gate_rules.specs.Rules.{is_open_phase};
ghost use Rattle.gate_state.specs.Checks as checks;

use gate_rules::{Change, Desk, Phase, Repeat};
use gate_text::{ChangeNo, Name};
use std::collections::BTreeMap;

// The limits of a priority.
const MIN_PRIORITY: i32 = -9_999;

const MAX_PRIORITY: i32 = 9_999;

// The greatest reading of the clock.
const MAX_MOMENT: u64 = 9_000_000_000_000_000;

// Whether the clock and each change of a desk keep what every state keeps of them.
pub(crate) fn fits_desk(desk: &Desk) -> bool
    ensures { result ≡ checks.fits_desk desk.now }
{
    desk.clock() <= MAX_MOMENT && all_fit(desk)
}

fn all_fit(desk: &Desk) -> bool
    ensures { result ≡ checks.fit_changes (checks.is_ready desk.now) (finite.entries desk.now.changes) }
{
    fit_changes(desk.changes(), is_ready(desk))
}

// Whether there are settings and a base.
fn is_ready(desk: &Desk) -> bool
    ensures { result ≡ checks.is_ready desk.now }
{
    desk.settings().is_some() && desk.base().is_some()
}

fn fit_changes(changes: &BTreeMap<ChangeNo, Change>, ready: bool) -> bool
    ensures value { result ≡ checks.fit_changes ready changes.now.entries }
    ensures ordered { IsStrictlySortedBy nat_cmp (keys_of changes.now.entries) }
{
    for (_number, change) in changes {
        if !fits_change(change, ready) {
            return false;
        }
    }
    true
}

fn fits_change(change: &Change, ready: bool) -> bool
    ensures { result ≡ checks.fits_change ready change.now }
{
    fits_priority(change.priority)
        && fits_approval(change, ready)
        && fits_try(change, ready)
        && fits_repeat(change)
}

fn fits_priority(priority: i32) -> bool
    ensures { result ≡ checks.fits_priority priority }
{
    priority >= MIN_PRIORITY && priority <= MAX_PRIORITY
}

// Whether only an open change is approved, and what is approved or landing has settings and a base.
fn fits_approval(change: &Change, ready: bool) -> bool
    ensures { result ≡ checks.fits_approval ready change.now change.now.approved }
{
    match &change.approved {
        Some(names) => is_open(change) && ready && fit_names(names.as_slice()),
        None => !change.landing || ready,
    }
}

fn is_open(change: &Change) -> bool
    ensures { result ≡ is_open_phase change.now.phase }
{
    match change.phase {
        Phase::Opened => true,
        Phase::Closed | Phase::Landed => false,
    }
}

fn fits_try(change: &Change, ready: bool) -> bool
    ensures { result ≡ checks.fits_try ready change.now }
{
    !change.trying || (is_open(change) && ready)
}

fn fits_repeat(change: &Change) -> bool
    ensures { result ≡ checks.fits_repeat change.now.last }
{
    match &change.last {
        Some(Repeat::ApproveFor(names)) => fit_names(names.as_slice()),
        Some(Repeat::Approve | Repeat::Try) | None => true,
    }
}

// Whether these are one or more names, no two the same.
fn fit_names(names: &[Name]) -> bool
    ensures { result ≡ checks.fit_names names.now }
{
    !names.is_empty() && are_different(names)
}

fn are_different(names: &[Name]) -> bool
    ensures { result ≡ checks.all_pairs checks.is_other_name names.now }
{
    let mut rest = names;
    'names: while let [first, others @ ..] = rest {
        if !has_other_name(first, others) {
            return false;
        }
        rest = others;
    }
    true
}

fn has_other_name(name: &Name, others: &[Name]) -> bool
    ensures { result ≡ list_all (checks.is_other_name name.now) others.now }
{
    others.iter().all(|other| name != other)
}
