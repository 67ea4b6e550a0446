ghost use Rattle.std.specs.Prelude.{◌≡◌, ◌++◌, IfOk, OnOk, map, pos};
ghost use Rattle.std.specs.Cmp.Lexicographic.{slice_cmp};
ghost use Rattle.std.specs.List.Sorted.{IsStrictlySortedBy};
ghost use Rattle.std.specs.Ordering.{nat_cmp};
ghost use Rattle.gate_rows.specs.Encoding as encoding;

use crate::rows::numbers::place_number;
use gate_tables::MarkRow;
use gate_text::{Set, Text, Word};
use std::alloc::{AllocError, Global};
use std::collections::BTreeSet;

fn mark(
    alloc: Global,
    change: u32,
    kind: i64,
    place: i64,
    word: &str,
) -> Result<MarkRow, AllocError>
    ensures { IfOk result (λ row. row ≡ encoding.mark change kind (place, word.now)) }
{
    Ok(MarkRow {
        change_no: i64::from(change),
        kind,
        word: Text::from_str(alloc, word)?,
        place,
    })
}

/// Adds a row for each word of a set.
pub(crate) fn push_set<T>(
    alloc: Global,
    rows: &mut Vec<MarkRow>,
    change: u32,
    kind: i64,
    words: &Set<T>,
) -> Result<(), AllocError>
    ensures { OnOk result (rows.new.items ≡ rows.old.items ++ encoding.set_marks change kind words.now) }
{
    push_texts(alloc, rows, change, kind, words.texts())
}

fn push_texts(
    alloc: Global,
    rows: &mut Vec<MarkRow>,
    change: u32,
    kind: i64,
    texts: &BTreeSet<Text>,
) -> Result<(), AllocError>
    ensures value { OnOk result
        (rows.new.items ≡ rows.old.items ++ map (λ word. encoding.mark change kind (pos 0, word)) texts.now.keys) }
    ensures ordered { IsStrictlySortedBy (slice_cmp nat_cmp) texts.now.keys }
{
    for text in texts {
        rows.push(mark(alloc, change, kind, 0, text.as_str())?)?;
    }
    Ok(())
}

/// Adds a row for each word of a list.
pub(crate) fn push_list<W: Word>(
    alloc: Global,
    rows: &mut Vec<MarkRow>,
    change: u32,
    kind: i64,
    words: &[W],
) -> Result<(), AllocError>
    ensures { OnOk result (rows.new.items ≡ rows.old.items ++ encoding.list_marks change kind (map W.bytes words.now)) }
{
    for (place, word) in words.iter().enumerate() {
        let text = word.as_text();
        rows.push(mark(alloc, change, kind, place_number(place)?, text.as_str())?)?;
    }
    Ok(())
}
