ghost use Rattle.std.specs.Prelude.{◌≡◌, IsTrue, IsPermutation};
ghost use Rattle.std.specs.List.Sorted.{IsSortedByKeyClosure};
ghost use Rattle.gate_rows.specs.InOrder.{AreInOrder};
ghost use Rattle.gate_tables.specs.Contents.{AreSame};

use gate_tables::{
    BatchRow, ChangeRow, DeskRow, MarkRow, MemberRow, PersonRow, Rows, StatusRow, WantedRow,
};
use gate_text::List;
use std::cmp::Reverse;

/// A row of which `==` says that it is the same.
pub(crate) trait Same: Ord + Drop {
    ghost use Rattle.std.specs.Prelude.{◌≡◌, IsTrue};

    ghost same: { (one other : Self) → IsTrue (Self.eq one other) → one ≡ other };
}

impl Same for DeskRow {
    ghost use Rattle.gate_rows.specs.Same.{same_desks};

    ghost same = { same_desks };
}

impl Same for PersonRow {
    ghost use Rattle.gate_rows.specs.Same.{same_people};

    ghost same = { same_people };
}

impl Same for ChangeRow {
    ghost use Rattle.gate_rows.specs.Same.{same_changes};

    ghost same = { same_changes };
}

impl Same for MarkRow {
    ghost use Rattle.gate_rows.specs.Same.{same_marks};

    ghost same = { same_marks };
}

impl Same for BatchRow {
    ghost use Rattle.gate_rows.specs.Same.{same_batches};

    ghost same = { same_batches };
}

impl Same for MemberRow {
    ghost use Rattle.gate_rows.specs.Same.{same_members};

    ghost same = { same_members };
}

impl Same for StatusRow {
    ghost use Rattle.gate_rows.specs.Same.{same_statuses};

    ghost same = { same_statuses };
}

impl Same for WantedRow {
    ghost use Rattle.gate_rows.specs.Same.{same_wanted};

    ghost same = { same_wanted };
}

/// Whether these are the same rows in each table, in any order. If it says so, they are.
pub(crate) fn are_same(ones: Rows, others: Rows) -> bool
    ensures { IsTrue result → AreSame ones others }
{
    have_same(ones.desk, others.desk)
        & have_same(ones.people, others.people)
        & have_same(ones.changes, others.changes)
        & have_same(ones.marks, others.marks)
        & have_same(ones.batches, others.batches)
        & have_same(ones.members, others.members)
        & have_same(ones.statuses, others.statuses)
        & have_same(ones.wanted, others.wanted)
}

fn have_same<R: Same>(ones: List<R>, others: List<R>) -> bool
    ensures { IsTrue result → IsPermutation ones others }
{
    let mut ones = ones.into_vec();
    let mut others = others.into_vec();
    ones.sort_unstable();
    others.sort_unstable();
    ones == others
}

/// The same rows, and those of which a list is read in the order of the list: marks, members and the lists of the settings
/// by their place, batches in order of service.
pub(crate) fn in_order(rows: Rows) -> Rows
    ensures same { AreSame rows result }
    ensures sorted { AreInOrder result }
{
    let Rows {
        desk,
        people,
        changes,
        marks,
        batches,
        members,
        statuses,
        wanted,
    } = rows;
    Rows {
        desk,
        people,
        changes,
        marks: sorted(marks, |row| row.place),
        batches: sorted(
            batches,
            |row| (Reverse(row.priority), Reverse(row.again), row.number),
        ),
        members: sorted(members, |row| row.place),
        statuses,
        wanted: sorted(wanted, |row| row.place),
    }
}

fn sorted<R: Drop, K: Ord + Drop, F: FnMut(&R) -> K>(rows: List<R>, key: F) -> List<R>
    requires { F.IsAlwaysCallable key }
    ensures same { IsPermutation rows result }
    ensures sorted { IsSortedByKeyClosure F.FnMut K.cmp key result }
{
    let mut rows = rows.into_vec();
    rows.sort_unstable_by_key(key);
    List::from(rows)
}
