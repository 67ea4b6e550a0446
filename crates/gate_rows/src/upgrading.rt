ghost use Rattle.std.specs.Prelude.{◌≡◌, ◌≢◌, ◌∷◌, ◌++◌, [], ℤ, None, map, pos, IfOk, IfSome, OnOk, IsPermutation};
ghost use Rattle.gate_rows.specs.FirstRows.{IsListKind, as_mark, first_kind, in_first, with_version};
ghost use Rattle.gate_tables.specs.Contents.{AreSame};

use crate::rows::one;
use gate_tables::{DeskRow, MarkRow, Rows, TablesFault, WantedRow};
use gate_text::List;
use std::alloc::{AllocError, Global};

/// The rows of version 2 that stand for what rows of version 1 stand for. `Store` if these aren't of version 1, and `Memory` if
/// there is no memory for them.
pub fn upgraded(alloc: Global, rows: Rows) -> Result<Rows, TablesFault>
    ensures value { IfOk result (λ second. AreSame rows (in_first second)) }
{
    none_wanted(rows.wanted)?;
    let desk = second_desk(alloc, rows.desk)?;
    let (marks, wanted) = split_marks(alloc, rows.marks)?;
    Ok(Rows {
        desk,
        people: rows.people,
        changes: rows.changes,
        marks,
        batches: rows.batches,
        members: rows.members,
        statuses: rows.statuses,
        wanted,
    })
}

// Version 1 has no table for the lists of the settings.
fn none_wanted(wanted: List<WantedRow>) -> Result<(), TablesFault>
    ensures { OnOk result (wanted ≡ []) }
{
    match wanted.as_slice() {
        [] => Ok(()),
        _ => Err(TablesFault::Store),
    }
}

// The one row of the desk, in version 2.
fn second_desk(alloc: Global, desk: List<DeskRow>) -> Result<List<DeskRow>, TablesFault>
    ensures { IfOk result (λ second. desk ≡ map (with_version (pos 1)) second) }
{
    let mut rows = desk.into_vec();
    let row = rows.pop().ok_or(TablesFault::Store)?;
    if !rows.is_empty() {
        return Err(TablesFault::Store);
    }
    Ok(one(alloc, second_row(row)?)?)
}

fn second_row(row: DeskRow) -> Result<DeskRow, TablesFault>
    ensures { IfOk result (λ second. row ≡ with_version (pos 1) second) }
{
    if row.version != 1 {
        return Err(TablesFault::Store);
    }
    Ok(DeskRow { version: 2, ..row })
}

// The marks of changes, and the lists of the settings.
fn split_marks(
    alloc: Global,
    marks: List<MarkRow>,
) -> Result<(List<MarkRow>, List<WantedRow>), AllocError>
    ensures { IfOk result (λ split. IsPermutation marks (split.0 ++ map as_mark split.1)) }
{
    let mut kept = Vec::new(alloc);
    let mut wanted = Vec::new(alloc);
    for row in marks.into_vec() {
        push_mark(&mut kept, &mut wanted, row)?;
    }
    Ok((List::from(kept), List::from(wanted)))
}

// Adds a row of version 1 to the table that has it in version 2.
fn push_mark(
    kept: &mut Vec<MarkRow>,
    wanted: &mut Vec<WantedRow>,
    row: MarkRow,
) -> Result<(), AllocError>
    ensures { OnOk result (IsPermutation (row ∷ (kept.old.items ++ map as_mark wanted.old.items))
        (kept.new.items ++ map as_mark wanted.new.items)) }
{
    match wanted_kind(&row) {
        Some(kind) => {
            wanted.push(WantedRow {
                kind,
                place: row.place,
                word: row.word,
            })?;
        }
        None => kept.push(row)?,
    }
    Ok(())
}

// Which list of the settings a mark of version 1 is in, if it is in one.
fn wanted_kind(row: &MarkRow) -> Option<i64>
    ensures some { IfSome result
        (λ kind. IsListKind kind × (row.now.change_no ≡ pos 0) × (row.now.kind ≡ first_kind kind)) }
    ensures none { result ≡ None → row.now.change_no ≡ pos 0 → (kind : ℤ) → IsListKind kind
        → row.now.kind ≢ first_kind kind }
{
    match (row.change_no, row.kind) {
        (0, 6) => Some(1),
        (0, 7) => Some(2),
        (0, 9) => Some(3),
        _ => None,
    }
}
