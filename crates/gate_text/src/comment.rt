ghost use Rattle.std.specs.Prelude.{◌≡◌, ◌++◌, ℕ, List, IfOk, OnOk};
ghost use Rattle.std.specs.List.{All};
ghost use Rattle.std.specs.Option.{option_copied};
ghost use Rattle.std.specs.Str.Lines.{strip_carriage_return};
ghost use Rattle.gate_text.specs.Reading as reading;
ghost use Rattle.gate_text.specs.Grammar.{CommentSays};
ghost use Rattle.gate_text.specs.Limits.{KeepsLimits};

use crate::body::push_body;
use crate::command::Spoken;
use crate::spaces::trim;
use std::alloc::{AllocError, Global};

// How many bytes the trigger of a command line has.
const TRIGGER_LEN: usize = 5;

fn is_trigger(word: &[u8]) -> bool
    ensures { result ≡ reading.is_trigger word.now }
{
    word.eq_ignore_ascii_case(b"bors ") || word.eq_ignore_ascii_case(b"bors:")
}

// The line without the one carriage return at its end, if it has one.
fn without_return(line: &[u8]) -> &[u8]
    ensures { result.now ≡ strip_carriage_return line.now }
{
    match line {
        [front @ .., b'\r'] => front,
        _ => line,
    }
}

// The body of a command line, and nothing for any other line.
fn body_of(line: &[u8]) -> Option<&[u8]>
    ensures { option_copied result ≡ reading.body_of line.now }
{
    if line.len() < TRIGGER_LEN {
        return None;
    }
    let (trigger, rest) = line.split_at(TRIGGER_LEN);
    if is_trigger(trigger) {
        Some(trim(rest))
    } else {
        None
    }
}

// Adds what one line says.
fn push_line(alloc: Global, spoken: &mut Vec<Spoken>, line: &[u8]) -> Result<(), AllocError>
    ensures { OnOk result (spoken.new.items ≡ spoken.old.items ++ reading.line_says line.now) }
{
    match body_of(without_return(line)) {
        Some(body) => push_body(alloc, spoken, body),
        None => Ok(()),
    }
}

// What the lines of the comment say, one after the other.
#[tactic(auto, unfolding(crate::specs::Reading::comment_says))]
fn spoken_lines(alloc: Global, text: &str) -> Result<Vec<Spoken>, AllocError>
    ensures { IfOk result (λ spoken. spoken.items ≡ reading.comment_says text.now) }
{
    let mut spoken = Vec::new(alloc);
    for line in text.split('\n') {
        push_line(alloc, &mut spoken, line.as_bytes())?;
    }
    Ok(spoken)
}

/// Reads a comment: what its command lines say, in their order, or `AllocError` if there is no memory for it. Lines
/// end at a line feed, and one carriage return before it is dropped. A command line begins with `bors`, each letter in
/// either case, and one space or colon; what follows, without spaces at its ends, is a command, an approval with a
/// priority before it, or one `Unknown`. All other lines say nothing. Priorities are from -9,999 to 9,999, and lists have
/// one or more names, no two the same. The commands are those of the bors-ng reference documentation.
pub fn read_comment(alloc: Global, text: &str) -> Result<Vec<Spoken>, AllocError>
    // It says these commands.
    ensures said { IfOk result (λ spoken. CommentSays text.now spoken.items) }

    // It says no others.
    ensures only { IfOk result (λ spoken. (others : List Spoken) → CommentSays text.now others → others ≡ spoken.items) }

    // Priorities and lists keep their limits.
    ensures limits { IfOk result (λ spoken. All KeepsLimits spoken.items) }

    // The reading as a function of the text, for the contracts above this one.
    ensures value { IfOk result (λ spoken. spoken.items ≡ reading.comment_says text.now) }
{
    spoken_lines(alloc, text)
}

/// The law of comments: each text has exactly one reading, and it is the one by which the machine acts.
pub fn one_reading()
    ensures said { (text : List ℕ) → CommentSays text (reading.comment_says text) }
    ensures only { (text : List ℕ) (others : List Spoken) → CommentSays text others → others ≡ reading.comment_says text }

    // What it says keeps its limits.
    ensures limits { (text : List ℕ) → All KeepsLimits (reading.comment_says text) }
{}
