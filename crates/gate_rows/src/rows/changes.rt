ghost use Rattle.std.specs.Prelude.{◌≡◌, ◌++◌, IfOk, OnOk, [], map};
ghost use Rattle.std.specs.FinMap as finite;
ghost use Rattle.std.specs.List.{cons_option, flat_map};
ghost use Rattle.std.specs.List.Sorted.{IsStrictlySortedBy};
ghost use Rattle.std.specs.Map.{keys_of};
ghost use Rattle.std.specs.Option.{option_copied};
ghost use Rattle.std.specs.Ordering.{nat_cmp};
ghost use Rattle.gate_rows.specs.Encoding as encoding;
ghost use Rattle.gate_rows.specs.Parts.{are_there, named, were_there};

use crate::rows::marks::push_change;
use crate::rows::numbers::{flag, last_number, phase_number};
use gate_queue::Before;
use gate_rules::{Change, Desk};
use gate_tables::{ChangeRow, MarkRow};
use gate_text::{ChangeNo, List, Text};
use std::alloc::{AllocError, Global};
use std::collections::BTreeMap;

/// A row for each change.
pub(crate) fn change_rows(alloc: Global, desk: &Desk) -> Result<List<ChangeRow>, AllocError>
    ensures { IfOk result (λ rows. rows ≡ map encoding.change_row (finite.entries desk.now.changes)) }
{
    changes_in(alloc, desk.changes())
}

fn changes_in(
    alloc: Global,
    changes: &BTreeMap<ChangeNo, Change>,
) -> Result<List<ChangeRow>, AllocError>
    ensures value { IfOk result (λ rows. rows ≡ map encoding.change_row changes.now.entries) }
    ensures ordered { IsStrictlySortedBy nat_cmp (keys_of changes.now.entries) }
{
    let mut rows = Vec::new(alloc);
    for (number, change) in changes {
        rows.push(change_row(alloc, *number, change)?)?;
    }
    Ok(List::from(rows))
}

/// Adds a row for each change that was noted and was there, and a row for each of its marks.
pub(crate) fn push_then(
    alloc: Global,
    rows: &mut Vec<ChangeRow>,
    marks: &mut Vec<MarkRow>,
    before: &Before,
) -> Result<(), AllocError>
    ensures rows { OnOk result
        (rows.new.items ≡ rows.old.items ++ map encoding.change_row (were_there (finite.entries before.now.changes))) }
    ensures marks { OnOk result (marks.new.items
        ≡ marks.old.items ++ flat_map encoding.marks_of (were_there (finite.entries before.now.changes))) }
{
    push_noted(alloc, rows, marks, before.changes())
}

/// Adds a row for each change that was noted and is there now, and a row for each of its marks.
pub(crate) fn push_now(
    alloc: Global,
    rows: &mut Vec<ChangeRow>,
    marks: &mut Vec<MarkRow>,
    before: &Before,
    desk: &Desk,
) -> Result<(), AllocError>
    ensures rows { OnOk result (rows.new.items
        ≡ rows.old.items ++ map encoding.change_row (are_there desk.now.changes (finite.entries before.now.changes))) }
    ensures marks { OnOk result (marks.new.items
        ≡ marks.old.items ++ flat_map encoding.marks_of (are_there desk.now.changes
        (finite.entries before.now.changes))) }
{
    push_present(alloc, rows, marks, before.changes(), desk)
}

fn push_noted(
    alloc: Global,
    rows: &mut Vec<ChangeRow>,
    marks: &mut Vec<MarkRow>,
    noted: &BTreeMap<ChangeNo, Option<Change>>,
) -> Result<(), AllocError>
    ensures rows { OnOk result
        (rows.new.items ≡ rows.old.items ++ map encoding.change_row (were_there noted.now.entries)) }
    ensures marks { OnOk result
        (marks.new.items ≡ marks.old.items ++ flat_map encoding.marks_of (were_there noted.now.entries)) }
    ensures ordered { IsStrictlySortedBy nat_cmp (keys_of noted.now.entries) }
{
    for (number, change) in noted {
        push_one(alloc, rows, marks, *number, change.as_ref())?;
    }
    Ok(())
}

fn push_present(
    alloc: Global,
    rows: &mut Vec<ChangeRow>,
    marks: &mut Vec<MarkRow>,
    noted: &BTreeMap<ChangeNo, Option<Change>>,
    desk: &Desk,
) -> Result<(), AllocError>
    ensures rows { OnOk result
        (rows.new.items ≡ rows.old.items ++ map encoding.change_row (are_there desk.now.changes noted.now.entries)) }
    ensures marks { OnOk result (marks.new.items
        ≡ marks.old.items ++ flat_map encoding.marks_of (are_there desk.now.changes noted.now.entries)) }
    ensures ordered { IsStrictlySortedBy nat_cmp (keys_of noted.now.entries) }
{
    for (number, _) in noted {
        push_one(alloc, rows, marks, *number, desk.change(*number))?;
    }
    Ok(())
}

// Adds the rows of a change, if there is one.
fn push_one(
    alloc: Global,
    rows: &mut Vec<ChangeRow>,
    marks: &mut Vec<MarkRow>,
    number: ChangeNo,
    change: Option<&Change>,
) -> Result<(), AllocError>
    ensures rows { OnOk result (rows.new.items
        ≡ rows.old.items ++ map encoding.change_row (cons_option (named number (option_copied change.entry)) [])) }
    ensures marks { OnOk result (marks.new.items
        ≡ marks.old.items ++ flat_map encoding.marks_of (cons_option (named number (option_copied change.entry)) [])) }
{
    if let Some(change) = change {
        rows.push(change_row(alloc, number, change)?)?;
        push_change(alloc, marks, number.number(), change)?;
    }
    Ok(())
}

fn change_row(alloc: Global, number: ChangeNo, change: &Change) -> Result<ChangeRow, AllocError>
    ensures { IfOk result (λ row. row ≡ encoding.change_row (number, change.now)) }
{
    Ok(ChangeRow {
        number: i64::from(number.number()),
        author: Text::from_str(alloc, change.author.text())?,
        head: Text::from_str(alloc, change.head.text())?,
        phase: phase_number(change.phase),
        priority: i64::from(change.priority),
        approved: flag(change.approved.is_some()),
        last_command: last_number(&change.last),
    })
}
