ghost use Rattle.std.specs.Prelude.{◌≡◌, false, map, IfOk};
ghost use Rattle.std.specs.FinMap.{get};
ghost use Rattle.gate_tables.specs.Calls.{Asked, Does, Finds, Moves};
ghost use Rattle.gate_tables.specs.Effects.{Adds, IsReady, Reads};
ghost use Rattle.gate_tables.specs.Forms.{answers};
ghost use Rattle.gate_tables.specs.Tables.{IsBook, answer_of, answers_in, is_honest};
ghost use Rattle.sqlite.specs.Held.{state};

use crate::fault::TablesFault;
use crate::rowids::check_rowids;
use crate::statement::{run, select, select_inside, text_at};
use gate_text::{List, Text};
use sqlite::{Alter, Connection, Row, Transaction, params};
use std::alloc::Global;

// Adds an answer.
pub(crate) fn put_answer<S: Alter>(
    tx: &mut Transaction<'_, S>,
    id: &str,
    body: &str,
) -> Result<(), TablesFault>
    ensures { Does S.Store tx.old tx.new (Moves result (Adds answers (id.now, body.now))) }
{
    run(
        tx,
        "INSERT INTO answers (id, body) VALUES (?1, ?2)",
        params![id, body],
    )
}

// What the rows of an answer say of identifiers and their texts.
fn read_texts(alloc: Global, rows: &[Row]) -> Result<List<(Text, Text)>, TablesFault>
    ensures value { IfOk result (λ read. read ≡ map answers.read rows.now) }
{
    let mut read = List::from(Vec::new(alloc));
    for row in rows {
        read.push((text_at(row, 0)?, text_at(row, 1)?))?;
    }
    Ok(read)
}

// All answers, each under its identifier. A row has an integer of its own as its rowid, or else they are refused with `Store`.
pub(crate) fn read_answers<S: Alter>(
    alloc: Global,
    tx: &mut Transaction<'_, S>,
) -> Result<List<(Text, Text)>, TablesFault>
    ensures { Finds S.Store tx.old tx.new result (Reads answers) }
{
    let rows = select_inside(tx, "SELECT id, body, rowid FROM answers")?;
    check_rowids(rows.as_slice(), 2)?;
    read_texts(alloc, rows.as_slice())
}

// The rows that the database has of an identifier.
fn ask<S: Alter>(conn: &mut Connection<S>, id: &str) -> Result<Vec<Row>, TablesFault>
    requires mode { conn.old.in_transaction ≡ false }
    ensures found { is_honest S.Store conn.new → IsBook (state S.Store conn.old)
        → IfOk result (λ rows. answer_of rows.items ≡ get (answers_in S.Store conn.old) id.now) }
    ensures asked { Asked S.Store conn.old conn.new result IsReady }
{
    select(conn, "SELECT body FROM answers WHERE id = ?1", params![id])
}

// The text of the first row, if there is a row.
fn first_body(rows: &[Row]) -> Result<Option<Text>, TablesFault>
    ensures value { IfOk result (λ answer. answer ≡ answer_of rows.now) }
{
    match rows.first() {
        Some(row) => Ok(Some(text_at(row, 0)?)),
        None => Ok(None),
    }
}

// The answer under an identifier.
pub(crate) fn find_answer<S: Alter>(
    conn: &mut Connection<S>,
    id: &str,
) -> Result<Option<Text>, TablesFault>
    requires mode { conn.old.in_transaction ≡ false }
    ensures found { is_honest S.Store conn.new → IsBook (state S.Store conn.old)
        → IfOk result (λ answer. answer ≡ get (answers_in S.Store conn.old) id.now) }
    ensures asked { Asked S.Store conn.old conn.new result IsReady }
{
    let rows = ask(conn, id)?;
    first_body(rows.as_slice())
}
