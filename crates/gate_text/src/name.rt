ghost use Rattle.std.specs.Prelude.{◌≡◌, ◌+◌, ◌<◌, IfOk, map, IsTrue};
ghost use Rattle.std.specs.Char.{to_ascii_lowercase};
ghost use Rattle.std.specs.List.{list_all};
ghost use Rattle.std.specs.String.{string_bytes};
ghost use Rattle.gate_text.specs.SmallTexts as small;
ghost use Rattle.gate_text.specs.SmallTexts.{Reads, name_of, is_name_byte};

use crate::checks::first_fault;
use crate::fault::TextFault;
use crate::list::TryCopy;
use crate::text::{Text, Word};
use std::alloc::{AllocError, Global};
use std::marker::Model;

// The most bytes of a name.
const MAX_LEN: usize = 64;

/// The name of a person, in lower case and without `@`: 1 to 64 of the small ASCII letters, the digits and `-`, `_`, `.`,
/// `[`, `]`. A contract sees it as the list of its bytes.
#[derive(Debug, Drop, PartialEq, Eq, PartialOrd, Ord)]
pub struct Name {
    text: Text,
}

impl Model for Name {
    ghost use Rattle.std.specs.Prelude.{ℕ, List};

    ghost Value = { List ℕ };

    ghost view = { λ name. name.text };

    ghost inverse = { λ text. record { text = text } };
}

fn is_name_byte(byte: u8) -> bool
    ensures { result ≡ small.is_name_byte byte }
{
    byte.is_ascii_alphanumeric() || b"-_.[]".contains(&byte)
}

// The place of the first byte that no name has.
fn first_bad_byte(text: &[u8]) -> Option<usize>
    ensures { result ≡ small.first_bad is_name_byte text.now }
{
    text.iter().position(|byte| !is_name_byte(*byte))
}

// The text in lower case.
fn lowercase(alloc: Global, text: &[u8]) -> Result<String, AllocError>
    requires { IsTrue (list_all is_name_byte text.now) }
    ensures { IfOk result (λ lower. string_bytes lower ≡ map to_ascii_lowercase text.now) }
{
    let mut lower = String::new(alloc);
    for byte in text {
        lower.push(char::from(byte.to_ascii_lowercase()))?;
    }
    Ok(lower)
}

impl Name {
    /// Reads a name: 1 to 64 ASCII letters, digits, `-`, `_`, `.`, `[`, `]`. One leading `@` is dropped, and capitals
    /// become small letters. Refusals, in their order: `Empty`, `TooLong` (more than 64 bytes without the `@`), `BadByte`
    /// (another byte; its place counts the `@`), `Memory`.
    pub fn read(alloc: Global, text: &str) -> Result<Name, TextFault>
        ensures value { Reads result (name_of text.now) }
    {
        Name::from_bytes(alloc, text.as_bytes())
    }

    // The same of bytes that may be any.
    #[tactic(auto, using(crate::proofs::Refusals::refused), unfolding(crate::specs::SmallTexts::name_of))]
    pub(crate) fn from_bytes(alloc: Global, text: &[u8]) -> Result<Name, TextFault>
        ensures value { Reads result (name_of text.now) }
    {
        let dropped = usize::from(text.starts_with(b"@".as_slice()));
        let body = &text[dropped..];
        let bad = first_bad_byte(body).map(|place| place + dropped);
        if let Some(fault) = first_fault(body.len(), MAX_LEN, bad) {
            return Err(fault);
        }
        Ok(Name {
            text: Text::from(lowercase(alloc, body)?),
        })
    }

    /// The name, in lower case and without `@`.
    pub fn text(&self) -> &str
        ensures value { result.now ≡ self.now }
    {
        self.text.as_str()
    }

    /// A copy, or `AllocError` if there is no memory for it.
    pub fn copy(&self, alloc: Global) -> Result<Name, AllocError>
        ensures value { IfOk result (λ copy. copy ≡ self.now) }
    {
        Ok(Name {
            text: self.text.copy(alloc)?,
        })
    }
}

impl TryCopy for Name {
    fn try_copy(&self, alloc: Global) -> Result<Name, AllocError> {
        self.copy(alloc)
    }
}

impl Word for Name {
    ghost bytes = { λ name. name };

    fn as_text(&self) -> &Text {
        &self.text
    }

    fn into_text(self) -> Text {
        let Name { text } = self;
        text
    }
}
