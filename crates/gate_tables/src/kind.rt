ghost use Rattle.std.specs.Prelude.{◌≡◌, length, map, IfOk};
ghost use Rattle.gate_tables.specs.Calls.{Does, Finds, Ran, RanCounting};
ghost use Rattle.gate_tables.specs.Effects.{Reads};
ghost use Rattle.gate_tables.specs.Texts.{delete_text, update_text};

use crate::fault::TablesFault;
use crate::rowids::check_rowids;
use crate::statement::select_inside;
use gate_text::List;
use sqlite::{Alter, Row, Transaction};
use std::alloc::Global;

// A row of one of the tables, with the statements on that table.
pub(crate) trait TableRow: Sized + Drop {
    ghost use Rattle.gate_tables.specs.Forms.{Form};
    ghost use Rattle.gate_tables.specs.Known.{IsKeyed};

    // How the rows of the table are seen.
    ghost form: { Form Self };

    // The text that asks for all rows, each with its rowid behind its columns.
    fn select_text() -> &'static str
        ensures text { result.now ≡ form.select };

    // How many columns a row has.
    fn rowid_at() -> usize
        ensures at { result ≡ length form.layout.columns };

    // The text that deletes the row of a key.
    fn delete_text() -> &'static str
        ensures text { result.now ≡ delete_text form.layout };

    // Changes the row that has the key of this one, and tells how many rows those were.
    fn update<S: Alter>(&self, tx: &mut Transaction<'_, S>) -> Result<usize, TablesFault>
        ensures { Does S.Store tx.old tx.new (RanCounting result (update_text form.layout) (form.values self.now)) };

    // Adds the row.
    fn put<S: Alter>(&self, tx: &mut Transaction<'_, S>) -> Result<(), TablesFault>
        ensures { Does S.Store tx.old tx.new (Ran result form.insert (form.values self.now)) };

    // What a row of the answer says.
    fn read(row: &Row) -> Result<Self, TablesFault>
        ensures value { IfOk result (λ read. read ≡ form.read row.now) };

    ghost keyed: { IsKeyed form };
}

// What the rows of an answer say.
fn read_all<R: TableRow>(alloc: Global, rows: &[Row]) -> Result<List<R>, TablesFault>
    ensures value { IfOk result (λ read. read ≡ map R.form.read rows.now) }
{
    let mut read = List::from(Vec::new(alloc));
    for row in rows {
        read.push(R::read(row)?)?;
    }
    Ok(read)
}

// All rows of a table. Each has an integer of its own as its rowid, or else it is refused with `Store`.
pub(crate) fn all<S: Alter, R: TableRow>(
    alloc: Global,
    tx: &mut Transaction<'_, S>,
) -> Result<List<R>, TablesFault>
    ensures { Finds S.Store tx.old tx.new result (Reads R.form) }
{
    let rows = select_inside(tx, R::select_text())?;
    check_rowids(rows.as_slice(), R::rowid_at())?;
    read_all(alloc, rows.as_slice())
}
