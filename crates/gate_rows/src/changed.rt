ghost use Rattle.std.specs.Prelude.{◌≡◌, ◌++◌, map, IfOk, OnOk, IsPermutation, List as ListOf};
ghost use Rattle.gate_state.specs.declared.state.State.{State as StateOf};
ghost use Rattle.gate_rows.specs.Changed as changed;
ghost use Rattle.gate_rows.specs.Changed.{by_key, by_keys, begin_so, unmatched};
ghost use Rattle.gate_rows.specs.Encoding as encoding;
ghost use Rattle.gate_rows.specs.Parts as parts;
ghost use Rattle.gate_rows.specs.Parts.{AreStates};
ghost use Rattle.gate_tables.specs.Applied.{applied};
ghost use Rattle.gate_tables.specs.Contents.{AreSame};
ghost use Rattle.gate_tables.specs.declared.row.Rows.{Rows as RowsOf};
ghost use Rattle.gate_tables.specs.Differences.{AreApart, HaveKeys, differences, gone, differing, is_same};
ghost use Rattle.gate_tables.specs.Keys.{has_key, key_of};

mod keyed;

use crate::laws::{law_of_changes_since, law_of_keys_of, law_of_keys_since};
use crate::rows::{rows_now, rows_of, rows_then};
use gate_queue::{Before, Gate};
use gate_tables::{RowChange, Rows};
use gate_text::List;
use keyed::Keyed;
use std::alloc::{AllocError, Global};

/// The row changes that lead from the rows of one gate to those of another: each key whose row differs, or that only one of them
/// has, once. First the deletions, then the puts, each in the order of the tables, and within a table by key upwards, texts by
/// their bytes. `AllocError` if there is no memory for them.
pub fn changed_rows(alloc: Global, old: &Gate, new: &Gate) -> Result<Vec<RowChange>, AllocError>
    ensures value { IfOk result (λ changes. changes.items ≡ changed.changed_rows old.now new.now) }
{
    law_of_keys_of(old);
    law_of_keys_of(new);
    let before = rows_of(alloc, old)?;
    row_changes(alloc, before, rows_of(alloc, new)?)
}

/// The row changes that lead from the rows of a state, of which parts were noted, to those of a gate, listed as `changed_rows` lists
/// them. It makes and compares the rows of these parts and of new batches alone. `AllocError` if there is no memory for them.
pub fn changes_since(
    alloc: Global,
    before: &Before,
    gate: &Gate,
) -> Result<Vec<RowChange>, AllocError>
    ensures value { (old : StateOf) → AreStates before.now old gate.now
        → IfOk result (λ changes. changes.items ≡ parts.changes_since before.now gate.now) }
    ensures leads { (old : StateOf) (rows : RowsOf) → AreStates before.now old gate.now
        → AreSame rows (encoding.rows_of old)
        → IfOk result (λ changes. AreSame (applied changes.items rows) (encoding.rows_of gate.now)) }
{
    law_of_keys_since();
    law_of_changes_since();
    let then = rows_then(alloc, before, gate)?;
    let now = rows_now(alloc, before, gate)?;
    row_changes(alloc, then, now)
}

/// The row changes that lead from rows, in any order, to others, if in neither two rows of a table have one key. They are listed as
/// `changed_rows` lists them. `AllocError` if there is no memory for them.
pub fn row_changes(alloc: Global, old: Rows, new: Rows) -> Result<Vec<RowChange>, AllocError>
    ensures value { (was now : RowsOf) → HaveKeys was → HaveKeys now → AreSame was old → AreSame now new
        → IfOk result (λ changes. changes.items ≡ differences (by_keys was) (by_keys now)) }
{
    let mut deletions = Vec::new(alloc);
    let mut puts = Vec::new(alloc);
    push_table(alloc, &mut deletions, &mut puts, old.desk, new.desk)?;
    push_table(alloc, &mut deletions, &mut puts, old.people, new.people)?;
    push_table(alloc, &mut deletions, &mut puts, old.changes, new.changes)?;
    push_table(alloc, &mut deletions, &mut puts, old.marks, new.marks)?;
    push_table(alloc, &mut deletions, &mut puts, old.batches, new.batches)?;
    push_table(alloc, &mut deletions, &mut puts, old.members, new.members)?;
    push_table(alloc, &mut deletions, &mut puts, old.statuses, new.statuses)?;
    push_table(alloc, &mut deletions, &mut puts, old.wanted, new.wanted)?;
    deletions.append(&mut puts)?;
    Ok(deletions)
}

// Adds the changes of one table.
fn push_table<R: Keyed>(
    alloc: Global,
    deletions: &mut Vec<RowChange>,
    puts: &mut Vec<RowChange>,
    old: List<R>,
    new: List<R>,
) -> Result<(), AllocError>
    ensures gone { (was now : ListOf R) → AreApart R.form was → AreApart R.form now → IsPermutation was old
        → IsPermutation now new
        → OnOk result (deletions.new.items
        ≡ deletions.old.items ++ map R.deletion (gone R.form (by_key R.form was) (by_key R.form now))) }
    ensures put { (was now : ListOf R) → AreApart R.form was → AreApart R.form now → IsPermutation was old
        → IsPermutation now new
        → OnOk result (puts.new.items
        ≡ puts.old.items ++ map R.put (differing R.form (by_key R.form was) (by_key R.form now))) }
{
    let old = sorted_by_key(old);
    let new = sorted_by_key(new);
    push_gone(alloc, deletions, &old, &new)?;
    push_differing(puts, &old, new)
}

fn sorted_by_key<R: Keyed>(rows: List<R>) -> Vec<R>
    ensures { (those : ListOf R) → AreApart R.form those → IsPermutation those rows
        → result.items ≡ by_key R.form those }
{
    let mut rows = rows.into_vec();
    rows.sort_unstable_by(|row, other| row.compare_keys(other));
    rows
}

// Adds the deletions of rows whose key the others don't have. Both are listed by key.
fn push_gone<R: Keyed>(
    alloc: Global,
    deletions: &mut Vec<RowChange>,
    old: &[R],
    new: &[R],
) -> Result<(), AllocError>
    ensures { OnOk result (deletions.new.items
        ≡ deletions.old.items
        ++ map R.deletion (unmatched R.form (λ r x. has_key R.form (key_of R.form r) x) old.now new.now)) }
{
    let mut rest = new;
    for row in old {
        rest = from_key(rest, row);
        if !begin_with_key(rest, row) {
            deletions.push(row.deletion(alloc)?)?;
        }
    }
    Ok(())
}

// Adds the puts of rows that the others don't have as they are. Both are listed by key.
fn push_differing<R: Keyed>(
    puts: &mut Vec<RowChange>,
    old: &[R],
    new: Vec<R>,
) -> Result<(), AllocError>
    ensures { OnOk result
        (puts.new.items ≡ puts.old.items ++ map R.put (unmatched R.form (is_same R.form) new.items old.now)) }
{
    let mut rest = old;
    for row in new {
        rest = from_key(rest, &row);
        if !begin_with(rest, &row) {
            puts.push(row.into_put())?;
        }
    }
    Ok(())
}

// The rows from the first one on that has no smaller key than this one.
fn from_key<'a, R: Keyed>(rows: &'a [R], row: &R) -> &'a [R]
    ensures { result.now ≡ changed.from_key R.form row.now rows.now }
{
    let mut rest = rows;
    'rows: while let [first, others @ ..] = rest {
        if !first.compare_keys(row).is_lt() {
            return rest;
        }
        rest = others;
    }
    rest
}

// Whether the first row has the key of this one.
fn begin_with_key<R: Keyed>(rows: &[R], row: &R) -> bool
    ensures { result ≡ begin_so (λ x. has_key R.form (key_of R.form row.now) x) rows.now }
{
    match rows.first() {
        Some(first) => first.compare_keys(row).is_eq(),
        None => false,
    }
}

// Whether the first row is this one.
fn begin_with<R: Keyed>(rows: &[R], row: &R) -> bool
    ensures { result ≡ begin_so (is_same R.form row.now) rows.now }
{
    match rows.first() {
        Some(first) => first == row,
        None => false,
    }
}
