ghost use Rattle.gate_tables.specs.Forms as forms;
ghost use Rattle.gate_tables.specs.Marks as texts;

use crate::fault::TablesFault;
use crate::kind::TableRow;
use crate::row::MarkRow;
use crate::statement::{run, run_counting, text_at};
use sqlite::{Alter, Row, Transaction, params};

impl TableRow for MarkRow {
    ghost form = { forms.marks };

    fn select_text() -> &'static str {
        "SELECT change_no, kind, word, place, rowid FROM marks"
    }

    fn rowid_at() -> usize {
        4
    }

    fn delete_text() -> &'static str {
        "DELETE FROM marks WHERE change_no = ?1 AND kind = ?2 AND word = ?3"
    }

    fn put<S: Alter>(&self, tx: &mut Transaction<'_, S>) -> Result<(), TablesFault> {
        run(
            tx,
            "INSERT INTO marks (change_no, kind, word, place) VALUES (?1, ?2, ?3, ?4)",
            params![&self.change_no, &self.kind, self.word.as_str(), &self.place],
        )
    }

    fn update<S: Alter>(&self, tx: &mut Transaction<'_, S>) -> Result<usize, TablesFault> {
        run_counting(
            tx,
            "UPDATE marks SET place = ?4 WHERE change_no = ?1 AND kind = ?2 AND word = ?3",
            params![&self.change_no, &self.kind, self.word.as_str(), &self.place],
        )
    }

    fn read(row: &Row) -> Result<MarkRow, TablesFault> {
        Ok(MarkRow {
            change_no: row.get(0)?,
            kind: row.get(1)?,
            word: text_at(row, 2)?,
            place: row.get(3)?,
        })
    }

    ghost keyed = { texts.keyed };
}
