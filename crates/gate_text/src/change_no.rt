ghost use Rattle.std.specs.Prelude.{◌≡◌, ◌≢◌, ◌≤◌, ◌<◌, Err, IfOk, IsTrue, length};
ghost use Rattle.std.specs.List.{list_all};
ghost use Rattle.std.specs.Char.{is_ascii_digit};
ghost use Rattle.gate_text.specs.SmallTexts as small;
ghost use Rattle.gate_text.specs.SmallTexts.{Reads, change_no_of, change_no_from};

use crate::checks::first_fault;
use crate::fault::TextFault;
use crate::list::TryCopy;
use std::alloc::{AllocError, Global};
use std::marker::Model;

// How many digits the greatest number has.
const MAX_LEN: usize = 10;

/// The number of a change (a pull request), from 1 to 4,294,967,295. A contract sees it as that number.
#[derive(Clone, Copy, Debug, PartialEq, Eq, PartialOrd, Ord)]
pub struct ChangeNo {
    value: u32,
}

impl Model for ChangeNo {
    ghost use Rattle.std.specs.Prelude.{ℕ, ◌≤◌};

    ghost Value = { ℕ };

    ghost view = { λ c. c.value };

    ghost inverse = { λ n. record { value = n } };

    ghost invariant = { λ c. 1 ≤ c.value };
}

// The place of the first byte that is no decimal digit.
fn first_bad_digit(text: &[u8]) -> Option<usize>
    ensures { result ≡ small.first_bad is_ascii_digit text.now }
{
    text.iter().position(|byte| !byte.is_ascii_digit())
}

// The number that decimal digits write, unless they begin with `0` or it is too great.
fn number_from(digits: &str) -> Result<u32, TextFault>
    requires some { 0 < length digits.now }
    requires decimal { IsTrue (list_all is_ascii_digit digits.now) }
    ensures value { result ≡ small.number_from digits.now }
    ensures least { IfOk result (λ n. 1 ≤ n) }
{
    if digits.as_bytes().starts_with(b"0".as_slice()) {
        return Err(TextFault::BadNumber);
    }
    match digits.parse::<u32>() {
        Ok(number) => Ok(number),
        Err(_) => Err(TextFault::BadNumber),
    }
}

impl ChangeNo {
    /// Reads a change number. Refusals, in their order: `Empty`, `TooLong` (more than 10 bytes), `BadByte` (no
    /// decimal digit), `BadNumber` (a leading `0`, or more than 4,294,967,295).
    #[tactic(auto, using(crate::proofs::Refusals::refused), unfolding(crate::specs::SmallTexts::change_no_of))]
    pub fn read(text: &str) -> Result<ChangeNo, TextFault>
        ensures value { Reads result (change_no_of text.now) }
        ensures no_memory { result ≢ Err TextFault.Memory }
    {
        let bytes = text.as_bytes();
        if let Some(fault) = first_fault(bytes.len(), MAX_LEN, first_bad_digit(bytes)) {
            return Err(fault);
        }
        Ok(ChangeNo {
            value: number_from(text)?,
        })
    }

    /// The change number of a number, and nothing for 0 and for more than 4,294,967,295.
    pub fn from_number(number: u64) -> Option<ChangeNo>
        ensures value { result ≡ change_no_from number }
    {
        match u32::try_from(number) {
            Ok(0) | Err(_) => None,
            Ok(value) => Some(ChangeNo { value }),
        }
    }

    /// The number, at least 1.
    pub fn number(self) -> u32
        ensures value { result ≡ self }
        ensures least { 1 ≤ result }
    {
        self.value
    }
}

impl TryCopy for ChangeNo {
    fn try_copy(&self, _alloc: Global) -> Result<ChangeNo, AllocError> {
        Ok(*self)
    }
}
