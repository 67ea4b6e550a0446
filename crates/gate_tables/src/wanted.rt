ghost use Rattle.gate_tables.specs.Forms as forms;
ghost use Rattle.gate_tables.specs.Wanted as texts;

use crate::fault::TablesFault;
use crate::kind::TableRow;
use crate::row::WantedRow;
use crate::statement::{run, run_counting, text_at};
use sqlite::{Alter, Row, Transaction, params};

impl TableRow for WantedRow {
    ghost form = { forms.wanted };

    fn select_text() -> &'static str {
        "SELECT kind, place, word, rowid FROM wanted"
    }

    fn rowid_at() -> usize {
        3
    }

    fn delete_text() -> &'static str {
        "DELETE FROM wanted WHERE kind = ?1 AND place = ?2"
    }

    fn put<S: Alter>(&self, tx: &mut Transaction<'_, S>) -> Result<(), TablesFault> {
        run(
            tx,
            "INSERT INTO wanted (kind, place, word) VALUES (?1, ?2, ?3)",
            params![&self.kind, &self.place, self.word.as_str()],
        )
    }

    fn update<S: Alter>(&self, tx: &mut Transaction<'_, S>) -> Result<usize, TablesFault> {
        run_counting(
            tx,
            "UPDATE wanted SET word = ?3 WHERE kind = ?1 AND place = ?2",
            params![&self.kind, &self.place, self.word.as_str()],
        )
    }

    fn read(row: &Row) -> Result<WantedRow, TablesFault> {
        Ok(WantedRow {
            kind: row.get(0)?,
            place: row.get(1)?,
            word: text_at(row, 2)?,
        })
    }

    ghost keyed = { texts.keyed };
}
