ghost use Rattle.gate_tables.specs.Forms as forms;
ghost use Rattle.gate_tables.specs.Batches as texts;

use crate::fault::TablesFault;
use crate::kind::TableRow;
use crate::row::BatchRow;
use crate::statement::{run, run_counting, text_at};
use sqlite::{Alter, Row, Transaction, params};

impl TableRow for BatchRow {
    ghost form = { forms.batches };

    fn select_text() -> &'static str {
        "SELECT number, branch, priority, again, phase, since, sha, rowid FROM batches"
    }

    fn rowid_at() -> usize {
        7
    }

    fn delete_text() -> &'static str {
        "DELETE FROM batches WHERE number = ?1"
    }

    fn put<S: Alter>(&self, tx: &mut Transaction<'_, S>) -> Result<(), TablesFault> {
        run(
            tx,
            "INSERT INTO batches (number, branch, priority, again, phase, since, sha) VALUES (?1, ?2, ?3, ?4, ?5, ?6, ?7)",
            params![
                &self.number,
                &self.branch,
                &self.priority,
                &self.again,
                &self.phase,
                &self.since,
                self.sha.as_str()
            ],
        )
    }

    fn update<S: Alter>(&self, tx: &mut Transaction<'_, S>) -> Result<usize, TablesFault> {
        run_counting(
            tx,
            "UPDATE batches SET branch = ?2, priority = ?3, again = ?4, phase = ?5, since = ?6, sha = ?7 WHERE number = ?1",
            params![
                &self.number,
                &self.branch,
                &self.priority,
                &self.again,
                &self.phase,
                &self.since,
                self.sha.as_str()
            ],
        )
    }

    fn read(row: &Row) -> Result<BatchRow, TablesFault> {
        Ok(BatchRow {
            number: row.get(0)?,
            branch: row.get(1)?,
            priority: row.get(2)?,
            again: row.get(3)?,
            phase: row.get(4)?,
            since: row.get(5)?,
            sha: text_at(row, 6)?,
        })
    }

    ghost keyed = { texts.keyed };
}
