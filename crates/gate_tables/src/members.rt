ghost use Rattle.gate_tables.specs.Forms as forms;
ghost use Rattle.gate_tables.specs.Members as texts;

use crate::fault::TablesFault;
use crate::kind::TableRow;
use crate::row::MemberRow;
use crate::statement::{run, run_counting};
use sqlite::{Alter, Row, Transaction, params};

impl TableRow for MemberRow {
    ghost form = { forms.members };

    fn select_text() -> &'static str {
        "SELECT batch, place, change_no, rowid FROM members"
    }

    fn rowid_at() -> usize {
        3
    }

    fn delete_text() -> &'static str {
        "DELETE FROM members WHERE batch = ?1 AND place = ?2"
    }

    fn put<S: Alter>(&self, tx: &mut Transaction<'_, S>) -> Result<(), TablesFault> {
        run(
            tx,
            "INSERT INTO members (batch, place, change_no) VALUES (?1, ?2, ?3)",
            params![&self.batch, &self.place, &self.change_no],
        )
    }

    fn update<S: Alter>(&self, tx: &mut Transaction<'_, S>) -> Result<usize, TablesFault> {
        run_counting(
            tx,
            "UPDATE members SET change_no = ?3 WHERE batch = ?1 AND place = ?2",
            params![&self.batch, &self.place, &self.change_no],
        )
    }

    fn read(row: &Row) -> Result<MemberRow, TablesFault> {
        Ok(MemberRow {
            batch: row.get(0)?,
            place: row.get(1)?,
            change_no: row.get(2)?,
        })
    }

    ghost keyed = { texts.keyed };
}
