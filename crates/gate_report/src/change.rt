ghost use Rattle.std.specs.Prelude.{◌≡◌, ◌++◌, IfOk, OnOk, codes, decimal};
ghost use Rattle.std.specs.Fmt.{signed_decimal};
ghost use Rattle.std.specs.Option.{option_map};
ghost use Rattle.std.specs.String.{string_bytes};
ghost use Rattle.gate_text.specs.Finite.{words_of};
ghost use Rattle.gate_report.specs.Change.{approvers, change_text_of, entry, lines_of, listed, phase_word, yes_or_no};

use crate::columns::left;
use crate::lists::{NONE, name_list, word_list};
use gate_queue::Gate;
use gate_rules::{Change, Phase};
use gate_text::{ChangeNo, Set};
use std::alloc::{AllocError, Global};

// How many places the word of a line has.
const WORD: usize = 10;

// A line: a word in its places, and the value.
fn line_of(alloc: Global, word: &str, value: &str) -> Result<String, AllocError>
    ensures { IfOk result (λ line. string_bytes line ≡ entry word.now value.now) }
{
    let word = left(alloc, WORD, word)?;
    format!(in alloc; "{word}{value}\n")
}

fn push_line(text: &mut String, alloc: Global, word: &str, value: &str) -> Result<(), AllocError>
    ensures { OnOk result (string_bytes text.new ≡ string_bytes text.old ++ entry word.now value.now) }
{
    let line = line_of(alloc, word, value)?;
    text.push_str(line.as_str())
}

// The line of a set of words.
fn push_set<T>(
    text: &mut String,
    alloc: Global,
    word: &str,
    words: &Set<T>,
) -> Result<(), AllocError>
    ensures { OnOk result (string_bytes text.new ≡ string_bytes text.old ++ entry word.now (listed (words_of words.now))) }
{
    let value = word_list(alloc, words)?;
    push_line(text, alloc, word, value.as_str())
}

fn phase_word(phase: Phase) -> &'static str
    ensures { result.now ≡ phase_word phase }
{
    match phase {
        Phase::Opened => "open",
        Phase::Closed => "closed",
        Phase::Landed => "landed",
    }
}

fn yes_or_no(is_so: bool) -> &'static str
    ensures { result.now ≡ yes_or_no is_so }
{
    if is_so { "yes" } else { "no" }
}

// The lines of what a change is.
fn push_names(
    text: &mut String,
    alloc: Global,
    number: ChangeNo,
    change: &Change,
) -> Result<(), AllocError>
    ensures { OnOk result (string_bytes text.new
        ≡ string_bytes text.old ++ entry (codes "change") (decimal number) ++ entry (codes "author") change.now.author
        ++ entry (codes "head") change.now.head) }
{
    let digits = number.number().to_string(alloc)?;
    push_line(text, alloc, "change", digits.as_str())?;
    push_line(text, alloc, "author", change.author.text())?;
    push_line(text, alloc, "head", change.head.text())
}

// The lines of how far it has come, and how soon it is tested.
fn push_standing(text: &mut String, alloc: Global, change: &Change) -> Result<(), AllocError>
    ensures { OnOk result (string_bytes text.new
        ≡ string_bytes text.old ++ entry (codes "state") (phase_word change.now.phase)
        ++ entry (codes "priority") (signed_decimal change.now.priority)) }
{
    let digits = change.priority.to_string(alloc)?;
    push_line(text, alloc, "state", phase_word(change.phase))?;
    push_line(text, alloc, "priority", digits.as_str())
}

// The lines of its sets.
fn push_sets(text: &mut String, alloc: Global, change: &Change) -> Result<(), AllocError>
    ensures { OnOk result (string_bytes text.new ≡ string_bytes text.old ++ entry (codes "labels") (listed (words_of change.now.labels))
        ++ entry (codes "reviews") (listed (words_of change.now.reviews))
        ++ entry (codes "delegates") (listed (words_of change.now.delegates))) }
{
    push_set(text, alloc, "labels", &change.labels)?;
    push_set(text, alloc, "reviews", &change.reviews)?;
    push_set(text, alloc, "delegates", &change.delegates)
}

// The approvers of a change, or `-`.
fn approver_words(alloc: Global, change: &Change) -> Result<String, AllocError>
    ensures { IfOk result (λ text. string_bytes text ≡ approvers change.now.approved) }
{
    match &change.approved {
        Some(names) => name_list(alloc, names.as_slice()),
        None => String::from_str(alloc, NONE),
    }
}

// The lines of whether it is approved, and tried.
fn push_marks(text: &mut String, alloc: Global, change: &Change) -> Result<(), AllocError>
    ensures { OnOk result (string_bytes text.new
        ≡ string_bytes text.old ++ entry (codes "approved") (approvers change.now.approved)
        ++ entry (codes "trying") (yes_or_no change.now.trying)) }
{
    let names = approver_words(alloc, change)?;
    push_line(text, alloc, "approved", names.as_str())?;
    push_line(text, alloc, "trying", yes_or_no(change.trying))
}

#[tactic(auto, unfolding(crate::specs::Change::lines_of))]
fn lines_of(alloc: Global, number: ChangeNo, change: &Change) -> Result<String, AllocError>
    ensures { IfOk result (λ text. string_bytes text ≡ lines_of number change.now) }
{
    let mut text = String::new(alloc);
    push_names(&mut text, alloc, number, change)?;
    push_standing(&mut text, alloc, change)?;
    push_sets(&mut text, alloc, change)?;
    push_marks(&mut text, alloc, change)?;
    Ok(text)
}

/// A change as text, in ten lines; nothing if no change of this number was ever opened. `AllocError` if there is no memory for
/// it.
pub fn change_text(
    alloc: Global,
    gate: &Gate,
    number: ChangeNo,
) -> Result<Option<String>, AllocError>
    ensures value { IfOk result (λ text. option_map string_bytes text ≡ change_text_of number gate.now) }
{
    match gate.change(number) {
        Some(change) => Ok(Some(lines_of(alloc, number, change)?)),
        None => Ok(None),
    }
}
