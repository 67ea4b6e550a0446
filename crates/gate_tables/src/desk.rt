ghost use Rattle.gate_tables.specs.Forms as forms;
ghost use Rattle.gate_tables.specs.Desk as texts;

use crate::fault::TablesFault;
use crate::kind::TableRow;
use crate::row::DeskRow;
use crate::statement::{run, run_counting, text_at};
use sqlite::{Alter, Row, Transaction, params};

impl TableRow for DeskRow {
    ghost form = { forms.desk };

    fn select_text() -> &'static str {
        "SELECT one, version, next_batch, clock, base, timeout_sec, required_approvals, max_batch_size, rowid FROM desk"
    }

    fn rowid_at() -> usize {
        8
    }

    fn delete_text() -> &'static str {
        "DELETE FROM desk WHERE one = ?1"
    }

    fn put<S: Alter>(&self, tx: &mut Transaction<'_, S>) -> Result<(), TablesFault> {
        run(
            tx,
            "INSERT INTO desk (one, version, next_batch, clock, base, timeout_sec, required_approvals, max_batch_size) VALUES (?1, ?2, ?3, ?4, ?5, ?6, ?7, ?8)",
            params![
                &self.one,
                &self.version,
                &self.next_batch,
                &self.clock,
                self.base.as_str(),
                &self.timeout_sec,
                &self.required_approvals,
                &self.max_batch_size
            ],
        )
    }

    fn update<S: Alter>(&self, tx: &mut Transaction<'_, S>) -> Result<usize, TablesFault> {
        run_counting(
            tx,
            "UPDATE desk SET version = ?2, next_batch = ?3, clock = ?4, base = ?5, timeout_sec = ?6, required_approvals = ?7, max_batch_size = ?8 WHERE one = ?1",
            params![
                &self.one,
                &self.version,
                &self.next_batch,
                &self.clock,
                self.base.as_str(),
                &self.timeout_sec,
                &self.required_approvals,
                &self.max_batch_size
            ],
        )
    }

    fn read(row: &Row) -> Result<DeskRow, TablesFault> {
        Ok(DeskRow {
            one: row.get(0)?,
            version: row.get(1)?,
            next_batch: row.get(2)?,
            clock: row.get(3)?,
            base: text_at(row, 4)?,
            timeout_sec: row.get(5)?,
            required_approvals: row.get(6)?,
            max_batch_size: row.get(7)?,
        })
    }

    ghost keyed = { texts.keyed };
}
