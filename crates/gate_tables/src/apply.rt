ghost use Rattle.std.specs.Prelude.{◌≡◌, false, [], ◌∷◌};
ghost use Rattle.gate_tables.specs.Calls.{Commits, Does, DropsBy, Moves};
ghost use Rattle.gate_tables.specs.Effects.{Applied, Changes, IsReady, Puts};
ghost use Rattle.gate_tables.specs.declared.change.RowChange.TheVariants.{Put, Delete};
ghost use Rattle.sqlite.specs.Values.{bound};

use crate::answers::put_answer;
use crate::change::{Row, RowChange, RowKey};
use crate::fault::TablesFault;
use crate::kind::TableRow;
use crate::row::{
    BatchRow, ChangeRow, DeskRow, MarkRow, MemberRow, PersonRow, StatusRow, WantedRow,
};
use crate::statement::run;
use sqlite::types::ValueRef;
use sqlite::{Alter, Connection, Transaction, params};

// Changes the row that has the key, or adds it if there is none. To delete it and to insert it anew would cost far more.
fn put<S: Alter, R: TableRow>(tx: &mut Transaction<'_, S>, row: &R) -> Result<(), TablesFault>
    ensures { Does S.Store tx.old tx.new (Moves result (Puts R.form row.now)) }
{
    if row.update(tx)? > 0 {
        return Ok(());
    }
    row.put(tx)
}

// Deletes the row of a key.
fn delete<S: Alter, R: TableRow>(
    tx: &mut Transaction<'_, S>,
    key: &[ValueRef<'_>],
) -> Result<(), TablesFault>
    ensures { Does S.Store tx.old tx.new (DropsBy result R.form (bound key.now)) }
{
    run(tx, R::delete_text(), key)
}

// Deletes the row of a key, if there is one.
fn delete_by<S: Alter>(tx: &mut Transaction<'_, S>, key: &RowKey) -> Result<(), TablesFault>
    ensures { Does S.Store tx.old tx.new (Moves result (Changes (Delete key.now ∷ []))) }
{
    match key {
        RowKey::Desk { one } => delete::<S, DeskRow>(tx, params![one]),
        RowKey::People { name } => delete::<S, PersonRow>(tx, params![name.as_str()]),
        RowKey::Changes { number } => delete::<S, ChangeRow>(tx, params![number]),
        RowKey::Marks {
            change_no,
            kind,
            word,
        } => delete::<S, MarkRow>(tx, params![change_no, kind, word.as_str()]),
        RowKey::Batches { number } => delete::<S, BatchRow>(tx, params![number]),
        RowKey::Members { batch, place } => delete::<S, MemberRow>(tx, params![batch, place]),
        RowKey::Statuses { batch, name } => {
            delete::<S, StatusRow>(tx, params![batch, name.as_str()])
        }
        RowKey::Wanted { kind, place } => delete::<S, WantedRow>(tx, params![kind, place]),
    }
}

// Puts a row.
fn put_row<S: Alter>(tx: &mut Transaction<'_, S>, row: &Row) -> Result<(), TablesFault>
    ensures { Does S.Store tx.old tx.new (Moves result (Changes (Put row.now ∷ []))) }
{
    match row {
        Row::Desk(row) => put(tx, row),
        Row::People(row) => put(tx, row),
        Row::Changes(row) => put(tx, row),
        Row::Marks(row) => put(tx, row),
        Row::Batches(row) => put(tx, row),
        Row::Members(row) => put(tx, row),
        Row::Statuses(row) => put(tx, row),
        Row::Wanted(row) => put(tx, row),
    }
}

// Makes a row change.
fn change_one<S: Alter>(tx: &mut Transaction<'_, S>, change: &RowChange) -> Result<(), TablesFault>
    ensures { Does S.Store tx.old tx.new (Moves result (Changes (change.now ∷ []))) }
{
    match change {
        RowChange::Put(row) => put_row(tx, row),
        RowChange::Delete(key) => delete_by(tx, key),
    }
}

// Makes row changes, one after the other.
pub(crate) fn change_all<S: Alter>(
    tx: &mut Transaction<'_, S>,
    changes: &[RowChange],
) -> Result<(), TablesFault>
    ensures { Does S.Store tx.old tx.new (Moves result (Changes changes.now)) }
{
    for change in changes {
        change_one(tx, change)?;
    }
    Ok(())
}

// Makes row changes and adds an answer, both or neither.
pub(crate) fn apply_all<S: Alter>(
    conn: &mut Connection<S>,
    changes: &[RowChange],
    id: &str,
    body: &str,
) -> Result<(), TablesFault>
    requires mode { conn.old.in_transaction ≡ false }
    ensures { Commits S.Store conn.old conn.new result IsReady (Applied changes.now id.now body.now) }
{
    let mut tx = conn.transaction();
    change_all(&mut tx, changes)?;
    put_answer(&mut tx, id, body)?;
    Ok(tx.commit()?)
}
