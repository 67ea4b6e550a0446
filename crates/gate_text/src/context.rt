ghost use Rattle.std.specs.Prelude.{◌≡◌, IfOk, Ok};
ghost use Rattle.gate_text.specs.SmallTexts.{Reads, plain_of};

use crate::fault::TextFault;
use crate::list::TryCopy;
use crate::plain::read_plain;
use crate::text::{Text, Word};
use std::alloc::{AllocError, Global};
use std::marker::Model;

/// The name of a status, which code hosts call its context: 1 to 255 bytes of UTF-8 without control characters. Names of
/// statuses are compared and ordered by their bytes. A contract sees one as the list of its bytes.
#[derive(Debug, Drop, PartialEq, Eq, PartialOrd, Ord)]
pub struct Context {
    text: Text,
}

impl Model for Context {
    ghost use Rattle.std.specs.Prelude.{◌≡◌, ℕ, List, Ok};
    ghost use Rattle.gate_text.specs.SmallTexts.{plain_of};

    ghost Value = { List ℕ };

    ghost view = { λ context. context.text };

    ghost inverse = { λ text. record { text = text } };

    ghost invariant = { λ context. plain_of context.text ≡ Ok context.text };
}

impl Context {
    /// Reads the name of a status. Refusals, in their order: `Empty`, `TooLong` (more than 255 bytes), `BadByte` (a byte
    /// below a space, or DEL), `Memory`.
    pub fn read(alloc: Global, text: &str) -> Result<Context, TextFault>
        ensures value { Reads result (plain_of text.now) }
    {
        Ok(Context {
            text: read_plain(alloc, text)?,
        })
    }

    /// The name as it was read.
    pub fn text(&self) -> &str
        ensures value { result.now ≡ self.now }
        ensures plain { plain_of self.now ≡ Ok self.now }
    {
        self.text.as_str()
    }

    /// A copy, or `AllocError` if there is no memory for it.
    pub fn copy(&self, alloc: Global) -> Result<Context, AllocError>
        ensures value { IfOk result (λ copy. copy ≡ self.now) }
    {
        Ok(Context {
            text: self.text.copy(alloc)?,
        })
    }
}

impl TryCopy for Context {
    fn try_copy(&self, alloc: Global) -> Result<Context, AllocError> {
        self.copy(alloc)
    }
}

impl Word for Context {
    ghost bytes = { λ context. context };

    fn as_text(&self) -> &Text {
        &self.text
    }

    fn into_text(self) -> Text {
        let Context { text } = self;
        text
    }
}
