ghost use Rattle.std.specs.Prelude.{◌≡◌, IfOk};
ghost use Rattle.std.specs.Cmp.Lexicographic.{slice_cmp};
ghost use Rattle.std.specs.List.Sorted.{IsStrictlySortedBy};
ghost use Rattle.std.specs.Ordering.{nat_cmp};
ghost use Rattle.std.specs.String.{string_bytes};
ghost use Rattle.gate_text.specs.Finite.{words_of};
ghost use Rattle.gate_report.specs.Change.{listed};

use gate_text::{Name, Set, Text};
use std::alloc::{AllocError, Global};
use std::collections::BTreeSet;

/// What stands for no words.
pub const NONE: &str = "-";

/// Names in their order, or `-`. `AllocError` if there is no memory for them.
pub fn name_list(alloc: Global, names: &[Name]) -> Result<String, AllocError>
    ensures { IfOk result (λ text. string_bytes text ≡ listed names.now) }
{
    let Some((first, others)) = names.split_first() else {
        return String::from_str(alloc, NONE);
    };
    let mut text = String::from_str(alloc, first.text())?;
    for name in others {
        write!(text, ", {}", name.text())?;
    }
    Ok(text)
}

/// The words of a set in the order of their bytes, or `-`. `AllocError` if there is no memory for them.
pub fn word_list<T>(alloc: Global, words: &Set<T>) -> Result<String, AllocError>
    ensures { IfOk result (λ text. string_bytes text ≡ listed (words_of words.now)) }
{
    text_list(alloc, words.texts())
}

fn text_list(alloc: Global, texts: &BTreeSet<Text>) -> Result<String, AllocError>
    ensures value { IfOk result (λ text. string_bytes text ≡ listed texts.now.keys) }
    ensures ordered { IsStrictlySortedBy (slice_cmp nat_cmp) texts.now.keys }
{
    let mut words = texts.iter();
    let Some(first) = words.next() else {
        return String::from_str(alloc, NONE);
    };
    let mut text = String::from_str(alloc, first.as_str())?;
    for word in words {
        write!(text, ", {}", word.as_str())?;
    }
    Ok(text)
}
