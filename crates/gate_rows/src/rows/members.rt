ghost use Rattle.std.specs.Prelude.{◌≡◌, ◌++◌, IfOk, OnOk, map};
ghost use Rattle.std.specs.List.{flat_map};
ghost use Rattle.gate_rows.specs.Encoding as encoding;

use crate::rows::numbers::{integer, place_number};
use gate_state::Batch;
use gate_tables::MemberRow;
use gate_text::List;
use std::alloc::{AllocError, Global};

/// A row for each change of each batch.
pub(crate) fn member_rows(alloc: Global, batches: &[&Batch]) -> Result<List<MemberRow>, AllocError>
    ensures { IfOk result (λ rows. rows ≡ flat_map encoding.members_of (map (λ batch. batch.now) batches.now)) }
{
    let mut rows = Vec::new(alloc);
    for batch in batches {
        push_batch(&mut rows, batch)?;
    }
    Ok(List::from(rows))
}

fn push_batch(rows: &mut Vec<MemberRow>, batch: &Batch) -> Result<(), AllocError>
    ensures { OnOk result (rows.new.items ≡ rows.old.items ++ encoding.members_of batch.now) }
{
    let number = integer(batch.number)?;
    for (place, change) in batch.changes.as_slice().iter().enumerate() {
        rows.push(MemberRow {
            batch: number,
            place: place_number(place)?,
            change_no: i64::from(change.number()),
        })?;
    }
    Ok(())
}
