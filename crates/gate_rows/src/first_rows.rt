ghost use Rattle.std.specs.Prelude.{◌≡◌, ◌++◌, map, pos, IfOk};
ghost use Rattle.gate_rows.specs.FirstRows as spec;
ghost use Rattle.gate_rows.specs.FirstRows.{with_version};

use gate_tables::{DeskRow, MarkRow, Rows, WantedRow};
use gate_text::List;
use std::alloc::{AllocError, Global};

/// The rows of version 1 that stand for what rows of version 2 stand for. `AllocError` if there is no memory for them.
pub fn in_first(alloc: Global, rows: Rows) -> Result<Rows, AllocError>
    ensures value { IfOk result (λ first. first ≡ spec.in_first rows) }
{
    Ok(Rows {
        desk: first_desk(alloc, rows.desk)?,
        marks: with_wanted(rows.marks, rows.wanted)?,
        people: rows.people,
        changes: rows.changes,
        batches: rows.batches,
        members: rows.members,
        statuses: rows.statuses,
        wanted: List::from(Vec::new(alloc)),
    })
}

fn first_desk(alloc: Global, rows: List<DeskRow>) -> Result<List<DeskRow>, AllocError>
    ensures { IfOk result (λ first. first ≡ map (with_version (pos 1)) rows) }
{
    let mut first = Vec::new(alloc);
    for row in rows.into_vec() {
        first.push(first_row(row))?;
    }
    Ok(List::from(first))
}

fn first_row(row: DeskRow) -> DeskRow
    ensures { result ≡ with_version (pos 1) row }
{
    DeskRow { version: 1, ..row }
}

// The marks, and behind them the lists of the settings.
fn with_wanted(marks: List<MarkRow>, wanted: List<WantedRow>) -> Result<List<MarkRow>, AllocError>
    ensures { IfOk result (λ all. all ≡ marks ++ map spec.as_mark wanted) }
{
    let mut all = marks.into_vec();
    for row in wanted.into_vec() {
        all.push(as_mark(row))?;
    }
    Ok(List::from(all))
}

fn as_mark(row: WantedRow) -> MarkRow
    ensures { result ≡ spec.as_mark row }
{
    MarkRow {
        change_no: 0,
        kind: first_kind(row.kind),
        word: row.word,
        place: row.place,
    }
}

// The kind of the marks in version 1 for a list of the settings.
fn first_kind(kind: i64) -> i64
    ensures { result ≡ spec.first_kind kind }
{
    match kind {
        1 => 6,
        2 => 7,
        _ => 9,
    }
}
