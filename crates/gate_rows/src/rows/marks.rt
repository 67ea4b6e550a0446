ghost use Rattle.std.specs.Prelude.{◌≡◌, ◌++◌, IfOk, OnOk, pos, []};
ghost use Rattle.std.specs.FinMap as finite;
ghost use Rattle.std.specs.List.{flat_map};
ghost use Rattle.std.specs.List.Sorted.{IsStrictlySortedBy};
ghost use Rattle.std.specs.Map.{keys_of};
ghost use Rattle.std.specs.Option.{unwrap_or};
ghost use Rattle.std.specs.Ordering.{nat_cmp};
ghost use Rattle.gate_rows.specs.Encoding as encoding;

mod words;

use gate_rules::{Change, Desk, Repeat};
use gate_tables::MarkRow;
use gate_text::{ChangeNo, List, Names};
use std::alloc::{AllocError, Global};
use std::collections::BTreeMap;
use words::{push_list, push_set};

/// A row for each mark of each change.
pub(crate) fn mark_rows(alloc: Global, desk: &Desk) -> Result<List<MarkRow>, AllocError>
    ensures { IfOk result (λ rows. rows ≡ flat_map encoding.marks_of (finite.entries desk.now.changes)) }
{
    let mut rows = Vec::new(alloc);
    push_changes(alloc, &mut rows, desk.changes())?;
    Ok(List::from(rows))
}

fn push_changes(
    alloc: Global,
    rows: &mut Vec<MarkRow>,
    changes: &BTreeMap<ChangeNo, Change>,
) -> Result<(), AllocError>
    ensures value { OnOk result (rows.new.items ≡ rows.old.items ++ flat_map encoding.marks_of changes.now.entries) }
    ensures ordered { IsStrictlySortedBy nat_cmp (keys_of changes.now.entries) }
{
    for (number, change) in changes {
        push_change(alloc, rows, number.number(), change)?;
    }
    Ok(())
}

/// Adds a row for each mark of a change.
pub(crate) fn push_change(
    alloc: Global,
    rows: &mut Vec<MarkRow>,
    number: u32,
    change: &Change,
) -> Result<(), AllocError>
    ensures { OnOk result (rows.new.items ≡ rows.old.items ++ encoding.marks_of (number, change.now)) }
{
    push_set(alloc, rows, number, 1, &change.labels)?;
    push_set(alloc, rows, number, 2, &change.reviews)?;
    push_set(alloc, rows, number, 3, &change.delegates)?;
    push_approvers(alloc, rows, number, &change.approved)?;
    push_last(alloc, rows, number, &change.last)?;
    push_set(alloc, rows, number, 8, &change.passed)
}

fn push_approvers(
    alloc: Global,
    rows: &mut Vec<MarkRow>,
    number: u32,
    approved: &Option<Names>,
) -> Result<(), AllocError>
    ensures { OnOk result
        (rows.new.items ≡ rows.old.items ++ encoding.list_marks number (pos 4) (unwrap_or approved.now [])) }
{
    match approved {
        Some(names) => push_list(alloc, rows, number, 4, names.as_slice()),
        None => Ok(()),
    }
}

fn push_last(
    alloc: Global,
    rows: &mut Vec<MarkRow>,
    number: u32,
    last: &Option<Repeat>,
) -> Result<(), AllocError>
    ensures { OnOk result
        (rows.new.items ≡ rows.old.items ++ encoding.list_marks number (pos 5) (encoding.names_of last.now)) }
{
    match last {
        Some(Repeat::ApproveFor(names)) => push_list(alloc, rows, number, 5, names.as_slice()),
        Some(Repeat::Approve | Repeat::Try) | None => Ok(()),
    }
}
