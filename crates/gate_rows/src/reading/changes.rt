ghost use Rattle.std.specs.Prelude.{◌≡◌, ◌≢◌, ℕ, List, [], None, Some, pos, if◌then◌else◌, IfSome, IsNone};
ghost use Rattle.std.specs.Borrow.{sem};
ghost use Rattle.std.specs.Ordering.{int_eq};
ghost use Rattle.gate_rows.specs.Decoding.{last_in};
ghost use Rattle.gate_rows.specs.Encoding as encoding;
ghost use Rattle.gate_rows.specs.Guess.{LendsNames};
ghost use Rattle.gate_rows.specs.Words.{IsReadBy};

use crate::reading::words::{change_no, commit, context, label, name, priority};
use gate_rules::{Change, Desk, Phase, Repeat};
use gate_tables::{ChangeRow, MarkRow, Rows, TablesFault};
use gate_text::{ContextSet, LabelSet, NameSet, Names, Text};
use std::alloc::Global;

/// Puts the changes and their marks on the desk.
pub(crate) fn put_changes(alloc: Global, desk: &mut Desk, rows: &Rows) -> Result<(), TablesFault> {
    for row in rows.changes.as_slice() {
        desk.keep_change(alloc, change_no(row.number)?, change_in(alloc, row)?)?;
    }
    for mark in rows.marks.as_slice() {
        put_mark(alloc, desk, mark)?;
    }
    Ok(())
}

// The change of a row, without its marks.
fn change_in(alloc: Global, row: &ChangeRow) -> Result<Change, TablesFault> {
    Ok(Change {
        author: name(alloc, &row.author)?,
        head: commit(&row.head)?,
        phase: phase_in(row.phase)?,
        priority: priority(row.priority)?,
        labels: LabelSet::new(alloc),
        reviews: NameSet::new(alloc),
        passed: ContextSet::new(alloc),
        delegates: NameSet::new(alloc),
        approved: approvers_in(alloc, row.approved),
        trying: false,
        landing: false,
        last: last_in(alloc, row.last_command),
    })
}

fn phase_in(number: i64) -> Result<Phase, TablesFault>
    ensures { IsReadBy encoding.phase_number number result }
{
    match number {
        1 => Ok(Phase::Opened),
        2 => Ok(Phase::Closed),
        3 => Ok(Phase::Landed),
        _ => Err(TablesFault::Store),
    }
}

// The approvers of a change that is approved. Their names are marks.
fn approvers_in(alloc: Global, approved: i64) -> Option<Names>
    ensures { result ≡ (if int_eq approved (pos 0) then None else Some []) }
{
    if approved == 0 {
        return None;
    }
    Some(Names::from(Vec::new(alloc)))
}

// The last command. The names of an `r=` are marks.
fn last_in(alloc: Global, number: i64) -> Option<Repeat>
    ensures { result ≡ last_in number [] }
{
    match number {
        1 => Some(Repeat::Approve),
        2 => Some(Repeat::ApproveFor(Names::from(Vec::new(alloc)))),
        3 => Some(Repeat::Try),
        _ => None,
    }
}

// Gives a change its mark.
fn put_mark(alloc: Global, desk: &mut Desk, mark: &MarkRow) -> Result<(), TablesFault> {
    let number = change_no(mark.change_no)?;
    desk.alter(
        number,
        |change| put_word(alloc, change, mark.kind, &mark.word),
    )
    .ok_or(TablesFault::Store)?
}

fn put_word(alloc: Global, change: &mut Change, kind: i64, word: &Text) -> Result<(), TablesFault>
    ensures head { change.new.head ≡ change.old.head }
    ensures phase { change.new.phase ≡ change.old.phase }
{
    match kind {
        1 => change.labels.insert(label(alloc, word)?)?,
        2 => change.reviews.insert(name(alloc, word)?)?,
        3 => change.delegates.insert(name(alloc, word)?)?,
        4 => put_name(alloc, change.approved.as_mut(), word)?,
        5 => put_name(
            alloc,
            names_of(change.last.as_mut().ok_or(TablesFault::Store)?),
            word,
        )?,
        8 => change.passed.insert(context(alloc, word)?)?,
        _ => return Err(TablesFault::Store),
    }
    Ok(())
}

// The names of an `r=`. Any other command has none.
fn names_of(repeat: &mut Repeat) -> Option<&mut Names>
    ensures* writes_back { sem 𝓛 (LendsNames repeat.entry result) }
    ensures some { IfSome result (λ names. repeat.old ≡ Repeat.ApproveFor names.now) }
    ensures none { IsNone result → (names : List (List ℕ)) → repeat.old ≢ Repeat.ApproveFor names }
{
    match repeat {
        Repeat::ApproveFor(names) => Some(names),
        _ => None,
    }
}

fn put_name(alloc: Global, names: Option<&mut Names>, word: &Text) -> Result<(), TablesFault> {
    let names = names.ok_or(TablesFault::Store)?;
    names.push(name(alloc, word)?)?;
    Ok(())
}
