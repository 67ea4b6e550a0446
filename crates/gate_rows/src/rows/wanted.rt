ghost use Rattle.std.specs.Prelude.{◌≡◌, ◌++◌, IfOk, OnOk, map};
ghost use Rattle.std.specs.Option.{option_copied};
ghost use Rattle.gate_rows.specs.Encoding as encoding;

use crate::rows::numbers::place_number;
use gate_tables::WantedRow;
use gate_text::{List, Settings, Text, Word};
use std::alloc::{AllocError, Global};

/// A row for each status and label in the lists of the settings.
pub(crate) fn wanted_rows(
    alloc: Global,
    settings: Option<&Settings>,
) -> Result<List<WantedRow>, AllocError>
    ensures { IfOk result (λ rows. rows ≡ encoding.wanted_of (option_copied settings.entry)) }
{
    let mut rows = Vec::new(alloc);
    if let Some(settings) = settings {
        push_list(alloc, &mut rows, 1, settings.status())?;
        push_list(alloc, &mut rows, 2, settings.block_labels())?;
        push_list(alloc, &mut rows, 3, settings.pr_status())?;
    }
    Ok(List::from(rows))
}

// Adds a row for each word of a list.
fn push_list<W: Word>(
    alloc: Global,
    rows: &mut Vec<WantedRow>,
    kind: i64,
    words: &[W],
) -> Result<(), AllocError>
    ensures { OnOk result (rows.new.items ≡ rows.old.items ++ encoding.list_wanted kind (map W.bytes words.now)) }
{
    for (place, word) in words.iter().enumerate() {
        let text = word.as_text();
        rows.push(wanted_row(alloc, kind, place_number(place)?, text.as_str())?)?;
    }
    Ok(())
}

fn wanted_row(alloc: Global, kind: i64, place: i64, word: &str) -> Result<WantedRow, AllocError>
    ensures { IfOk result (λ row. row ≡ encoding.wanted_row kind (place, word.now)) }
{
    Ok(WantedRow {
        kind,
        place,
        word: Text::from_str(alloc, word)?,
    })
}
