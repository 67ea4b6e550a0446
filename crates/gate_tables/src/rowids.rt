ghost use Rattle.std.specs.Prelude.{OnOk};
ghost use Rattle.gate_tables.specs.Kept.{HaveOwn};

use crate::fault::TablesFault;
use sqlite::Row;

// Refuses rows with `Store`, unless each has an integer at this place, and each a greater one than those before it. In that order
// SQLite keeps the rows of a table by their rowids.
pub(crate) fn check_rowids(rows: &[Row], at: usize) -> Result<(), TablesFault>
    ensures { OnOk result (HaveOwn at rows.now) }
{
    let mut last: Option<i64> = None;
    for row in rows {
        let id: i64 = row.get(at)?;
        if let Some(last) = last {
            if id <= last {
                return Err(TablesFault::Store);
            }
        }
        last = Some(id);
    }
    Ok(())
}
