ghost use Rattle.std.specs.Prelude.{◌≡◌, false, IfOk};
ghost use Rattle.gate_tables.specs.Calls.{AreShown, Asked, Does, Queries, Ran, RanCounting, Understands};
ghost use Rattle.sqlite.specs.Order.{column};
ghost use Rattle.sqlite.specs.Values.{bound};
ghost use Rattle.sqlite.specs.declared.types.Value.TheVariants.{Text as SqlText};

use crate::fault::TablesFault;
use gate_text::Text;
use sqlite::types::ValueRef;
use sqlite::{Alter, Connection, Row, Transaction};

// Runs a statement that shows no rows.
pub(crate) fn run<S: Alter>(
    tx: &mut Transaction<'_, S>,
    sql: &str,
    params: &[ValueRef<'_>],
) -> Result<(), TablesFault>
    ensures { Does S.Store tx.old tx.new (Ran result sql.now (bound params.now)) }
{
    tx.execute(sql, params)?;
    Ok(())
}

// The same, and how many rows it wrote.
pub(crate) fn run_counting<S: Alter>(
    tx: &mut Transaction<'_, S>,
    sql: &str,
    params: &[ValueRef<'_>],
) -> Result<usize, TablesFault>
    ensures { Does S.Store tx.old tx.new (RanCounting result sql.now (bound params.now)) }
{
    Ok(tx.execute(sql, params)?)
}

// All rows that a query shows.
pub(crate) fn select<S: Alter>(
    conn: &mut Connection<S>,
    sql: &str,
    params: &[ValueRef<'_>],
) -> Result<Vec<Row>, TablesFault>
    requires mode { conn.old.in_transaction ≡ false }
    ensures shown { AreShown S.Store conn.old conn.new result sql.now (bound params.now) }
    ensures asked { Asked S.Store conn.old conn.new result (Understands sql.now) }
{
    Ok(conn.query_all(sql, params)?)
}

// All rows that a query shows in an open transaction. Whatever becomes of it, nothing is committed.
pub(crate) fn select_inside<S: Alter>(
    tx: &mut Transaction<'_, S>,
    sql: &str,
) -> Result<Vec<Row>, TablesFault>
    ensures { Queries S.Store tx.old tx.new result sql.now }
{
    Ok(tx.query_all(sql, &[])?)
}

// The text in a column.
pub(crate) fn text_at(row: &Row, at: usize) -> Result<Text, TablesFault>
    ensures text { IfOk result (λ text. column row.now at ≡ SqlText text) }
{
    let text: String = row.get(at)?;
    Ok(Text::from(text))
}
