ghost use Rattle.std.specs.Prelude.{◌≡◌, ◌≢◌, Ok, Err};
ghost use Rattle.gate_text.specs.SmallTexts as small;
ghost use Rattle.gate_text.specs.SmallTexts.{Reads, commit_of};

use crate::checks::first_fault;
use crate::fault::TextFault;
use std::marker::Model;
use std::str;

// How many digits name a commit.
const LEN: usize = 40;

/// The name of a commit: 40 hexadecimal digits in lower case, as git prints a SHA-1 object name. Names are compared and ordered by
/// their digits. A contract sees one as the list of its digits.
#[derive(Clone, Copy, Debug, PartialEq, Eq, PartialOrd, Ord)]
pub struct Commit {
    digits: [u8; LEN],
}

impl Model for Commit {
    ghost use Rattle.std.specs.Prelude.{ℕ, List, IsTrue};
    ghost use Rattle.std.specs.List.{list_all};
    ghost use Rattle.gate_text.specs.SmallTexts.{is_commit_digit};

    ghost Value = { List ℕ };

    ghost view = { λ c. c.digits };

    ghost inverse = { λ digits. record { digits = digits } };

    ghost invariant = { λ c. IsTrue (list_all is_commit_digit c.digits) };
}

fn is_digit(byte: u8) -> bool
    ensures { result ≡ small.is_commit_digit byte }
{
    matches!(byte, b'0'..=b'9' | b'a'..=b'f')
}

// The place of the first byte that is no digit of a commit.
fn first_bad_byte(text: &[u8]) -> Option<usize>
    ensures { result ≡ small.first_bad small.is_commit_digit text.now }
{
    text.iter().position(|byte| !is_digit(*byte))
}

// The same, or the end of a text that ends too soon.
fn first_bad_or_end(text: &[u8]) -> Option<usize>
    ensures { result ≡ small.first_bad_or_end text.now }
{
    first_bad_byte(text).or((text.len() < LEN).then_some(text.len()))
}

impl Commit {
    /// Reads the name of a commit: exactly 40 of `0` to `9` and `a` to `f`. Refusals, in their order: `Empty`, `TooLong`
    /// (more than 40 bytes), `BadByte` (another byte; a text of fewer than 40 good digits has its length as the place).
    #[tactic(auto, using(crate::proofs::Refusals::refused), unfolding(crate::specs::SmallTexts::commit_of))]
    pub fn read(text: &str) -> Result<Commit, TextFault>
        ensures value { Reads result (commit_of text.now) }
        ensures no_memory { result ≢ Err TextFault.Memory }
    {
        let text = text.as_bytes();
        if let Some(fault) = first_fault(text.len(), LEN, first_bad_or_end(text)) {
            return Err(fault);
        }
        let mut digits = [0; LEN];
        digits.copy_from_slice(text);
        Ok(Commit { digits })
    }

    /// The 40 digits.
    pub fn text(&self) -> &str
        ensures value { result.now ≡ self.now }
        ensures digits { commit_of self.now ≡ Ok self.now }
    {
        match str::from_utf8(&self.digits) {
            Ok(text) => text,
            Err(_) => unreachable!(),
        }
    }
}
