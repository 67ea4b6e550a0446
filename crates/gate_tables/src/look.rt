ghost use Rattle.std.specs.Prelude.{◌≡◌, false, IfOk};
ghost use Rattle.gate_tables.specs.Calls.{Asked, Finds, Looks};
ghost use Rattle.gate_tables.specs.Contents.{AreSame};
ghost use Rattle.gate_tables.specs.Effects.{IsReady, ReadsContents, ShowsAll};
ghost use Rattle.gate_tables.specs.Schemas.{HasTables};
ghost use Rattle.gate_tables.specs.Tables.{is_honest, is_sound, rows_in};
ghost use Rattle.sqlite.specs.Held.{state};

use crate::answers::read_answers;
use crate::complete::complete;
use crate::fault::TablesFault;
use crate::read::read_rows;
use crate::row::Rows;
use crate::version::Version;
use gate_text::{List, Text};
use sqlite::{Alter, Connection, Transaction};
use std::alloc::Global;

/// What tables hold.
#[derive(Drop)]
pub struct Contents {
    /// The rows of all tables but `answers`.
    pub rows: Rows,
    /// The answers, each under its identifier.
    pub answers: List<(Text, Text)>,
}

// The rows of all tables but `answers`. It changes nothing.
pub(crate) fn read<S: Alter>(alloc: Global, conn: &mut Connection<S>) -> Result<Rows, TablesFault>
    requires mode { conn.old.in_transaction ≡ false }
    ensures rows { is_sound S.Store conn.new → IsReady (state S.Store conn.old)
        → IfOk result (AreSame (rows_in S.Store conn.old)) }
    ensures asked { Asked S.Store conn.old conn.new result IsReady }
{
    let mut tx = conn.transaction();
    let rows = read_rows(alloc, &mut tx)?;
    // After a rollback the next write would cost a copy of all rows in memory.
    tx.commit()?;
    Ok(rows)
}

// All that the tables hold, in an open transaction. It changes nothing.
fn read_contents<S: Alter>(
    alloc: Global,
    tx: &mut Transaction<'_, S>,
) -> Result<Contents, TablesFault>
    ensures { Finds S.Store tx.old tx.new result ReadsContents }
{
    let rows = read_rows(alloc, tx)?;
    let answers = read_answers(alloc, tx)?;
    Ok(Contents { rows, answers })
}

// All that the tables of a database of any version hold. It changes nothing: the tables that the version lacks are made in a
// transaction that is rolled back, so that the rows are read by the same texts.
pub(crate) fn look<S: Alter>(
    alloc: Global,
    conn: &mut Connection<S>,
) -> Result<Contents, TablesFault>
    requires mode { conn.old.in_transaction ≡ false }
    ensures shown { is_honest S.Store conn.new → HasTables (state S.Store conn.old).now
        → IfOk result (ShowsAll (state S.Store conn.old).now) }
    ensures looks { Looks S.Store conn.old conn.new (λ found. HasTables found.now) }
{
    let version = Version::of(conn.schema());
    let mut tx = conn.transaction();
    complete(&mut tx, version)?;
    let contents = read_contents(alloc, &mut tx)?;
    tx.rollback();
    Ok(contents)
}
