ghost use Rattle.gate_tables.specs.Forms as forms;
ghost use Rattle.gate_tables.specs.Changes as texts;

use crate::fault::TablesFault;
use crate::kind::TableRow;
use crate::row::ChangeRow;
use crate::statement::{run, run_counting, text_at};
use sqlite::{Alter, Row, Transaction, params};

impl TableRow for ChangeRow {
    ghost form = { forms.changes };

    fn select_text() -> &'static str {
        "SELECT number, author, head, phase, priority, approved, last_command, rowid FROM changes"
    }

    fn rowid_at() -> usize {
        7
    }

    fn delete_text() -> &'static str {
        "DELETE FROM changes WHERE number = ?1"
    }

    fn put<S: Alter>(&self, tx: &mut Transaction<'_, S>) -> Result<(), TablesFault> {
        run(
            tx,
            "INSERT INTO changes (number, author, head, phase, priority, approved, last_command) VALUES (?1, ?2, ?3, ?4, ?5, ?6, ?7)",
            params![
                &self.number,
                self.author.as_str(),
                self.head.as_str(),
                &self.phase,
                &self.priority,
                &self.approved,
                &self.last_command
            ],
        )
    }

    fn update<S: Alter>(&self, tx: &mut Transaction<'_, S>) -> Result<usize, TablesFault> {
        run_counting(
            tx,
            "UPDATE changes SET author = ?2, head = ?3, phase = ?4, priority = ?5, approved = ?6, last_command = ?7 WHERE number = ?1",
            params![
                &self.number,
                self.author.as_str(),
                self.head.as_str(),
                &self.phase,
                &self.priority,
                &self.approved,
                &self.last_command
            ],
        )
    }

    fn read(row: &Row) -> Result<ChangeRow, TablesFault> {
        Ok(ChangeRow {
            number: row.get(0)?,
            author: text_at(row, 1)?,
            head: text_at(row, 2)?,
            phase: row.get(3)?,
            priority: row.get(4)?,
            approved: row.get(5)?,
            last_command: row.get(6)?,
        })
    }

    ghost keyed = { texts.keyed };
}
