ghost use Rattle.std.specs.Prelude.{◌≡◌, ◌↔◌, IfOk, IsErr, Err};
ghost use Rattle.std.specs.Result.{result_ok};

use std::alloc::AllocError;
use thiserror::Error;

/// Why a text was refused. The checks are made in the order of the variants, and the first that fails is answered.
#[derive(Clone, Copy, Debug, PartialEq, Eq, Error)]
pub enum TextFault {
    /// Nothing is left of the text.
    #[error("the text is empty")]
    Empty,
    /// The text has more bytes than the most that its type allows.
    #[error("the text is too long")]
    TooLong,
    /// No allowed byte stands at this place, counted from 0 in the text as handed in: it is that of the first byte that
    /// isn't allowed or, if a commit has good digits but too few of them, its length.
    #[error("no allowed byte at place {0}")]
    BadByte(usize),
    /// The digits are no change number: they begin with `0`, or the number is too great.
    #[error("the digits begin with 0, or their number is too great")]
    BadNumber,
    /// The allocator had no memory for a text that is good.
    #[error("out of memory")]
    Memory,
}

impl From<AllocError> for TextFault {
    ghost use Rattle.std.specs.Prelude.{◌≡◌};
    ghost use Rattle.gate_text.specs.declared.fault.TextFault.TheVariants.{Memory};

    ghost from_gives = { λ _ fault. fault ≡ Memory };

    fn from(_error: AllocError) -> TextFault {
        TextFault::Memory
    }
}

/// What was read, and nothing if the text is bad. `AllocError` if there was no memory to read it.
pub fn unless_bad<T>(read: Result<T, TextFault>) -> Result<Option<T>, AllocError>
    ensures value { IfOk result (λ value. value ≡ result_ok read) }
    ensures memory { IsErr result ↔ (read ≡ Err TextFault.Memory) }
{
    match read {
        Ok(value) => Ok(Some(value)),
        Err(TextFault::Memory) => Err(AllocError),
        Err(_) => Ok(None),
    }
}
