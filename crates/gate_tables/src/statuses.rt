ghost use Rattle.gate_tables.specs.Forms as forms;
ghost use Rattle.gate_tables.specs.Statuses as texts;

use crate::fault::TablesFault;
use crate::kind::TableRow;
use crate::row::StatusRow;
use crate::statement::{run, run_counting, text_at};
use sqlite::{Alter, Row, Transaction, params};

impl TableRow for StatusRow {
    ghost form = { forms.statuses };

    fn select_text() -> &'static str {
        "SELECT batch, name, report, rowid FROM statuses"
    }

    fn rowid_at() -> usize {
        3
    }

    fn delete_text() -> &'static str {
        "DELETE FROM statuses WHERE batch = ?1 AND name = ?2"
    }

    fn put<S: Alter>(&self, tx: &mut Transaction<'_, S>) -> Result<(), TablesFault> {
        run(
            tx,
            "INSERT INTO statuses (batch, name, report) VALUES (?1, ?2, ?3)",
            params![&self.batch, self.name.as_str(), &self.report],
        )
    }

    fn update<S: Alter>(&self, tx: &mut Transaction<'_, S>) -> Result<usize, TablesFault> {
        run_counting(
            tx,
            "UPDATE statuses SET report = ?3 WHERE batch = ?1 AND name = ?2",
            params![&self.batch, self.name.as_str(), &self.report],
        )
    }

    fn read(row: &Row) -> Result<StatusRow, TablesFault> {
        Ok(StatusRow {
            batch: row.get(0)?,
            name: text_at(row, 1)?,
            report: row.get(2)?,
        })
    }

    ghost keyed = { texts.keyed };
}
