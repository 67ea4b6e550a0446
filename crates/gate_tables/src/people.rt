ghost use Rattle.gate_tables.specs.Forms as forms;
ghost use Rattle.gate_tables.specs.People as texts;

use crate::fault::TablesFault;
use crate::kind::TableRow;
use crate::row::PersonRow;
use crate::statement::{run, run_counting, text_at};
use sqlite::{Alter, Row, Transaction, params};

impl TableRow for PersonRow {
    ghost form = { forms.people };

    fn select_text() -> &'static str {
        "SELECT name, role, rowid FROM people"
    }

    fn rowid_at() -> usize {
        2
    }

    fn delete_text() -> &'static str {
        "DELETE FROM people WHERE name = ?1"
    }

    fn put<S: Alter>(&self, tx: &mut Transaction<'_, S>) -> Result<(), TablesFault> {
        run(
            tx,
            "INSERT INTO people (name, role) VALUES (?1, ?2)",
            params![self.name.as_str(), &self.role],
        )
    }

    fn update<S: Alter>(&self, tx: &mut Transaction<'_, S>) -> Result<usize, TablesFault> {
        run_counting(
            tx,
            "UPDATE people SET role = ?2 WHERE name = ?1",
            params![self.name.as_str(), &self.role],
        )
    }

    fn read(row: &Row) -> Result<PersonRow, TablesFault> {
        Ok(PersonRow {
            name: text_at(row, 0)?,
            role: row.get(1)?,
        })
    }

    ghost keyed = { texts.keyed };
}
