ghost use Rattle.std.specs.Prelude.{◌≡◌, IfOk, Ok};
ghost use Rattle.gate_text.specs.SmallTexts.{Reads, plain_of, first_control};

use crate::checks::first_fault;
use crate::fault::TextFault;
use crate::text::Text;
use std::alloc::Global;

// The most bytes of a label, and of the name of a status.
const MAX_LEN: usize = 255;

// The place of the first control character.
fn first_control_byte(text: &[u8]) -> Option<usize>
    ensures { result ≡ first_control text.now }
{
    text.iter().position(|byte| byte.is_ascii_control())
}

/// Reads a text without control characters. Refusals, in their order: `Empty`, `TooLong` (more than 255 bytes),
/// `BadByte` (a byte below a space, or DEL), `Memory`.
#[tactic(auto, using(crate::proofs::Refusals::refused), unfolding(crate::specs::SmallTexts::plain_of))]
pub(crate) fn read_plain(alloc: Global, text: &str) -> Result<Text, TextFault>
    ensures value { Reads result (plain_of text.now) }
    ensures plain { IfOk result (λ kept. plain_of kept ≡ Ok kept) }
{
    if let Some(fault) = first_fault(text.len(), MAX_LEN, first_control_byte(text.as_bytes())) {
        return Err(fault);
    }
    Ok(Text::from_str(alloc, text)?)
}
