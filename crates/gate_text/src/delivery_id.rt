ghost use Rattle.std.specs.Prelude.{◌≡◌, IfOk};
ghost use Rattle.std.specs.Char.{is_ascii_graphic};
ghost use Rattle.gate_text.specs.SmallTexts as small;
ghost use Rattle.gate_text.specs.SmallTexts.{Reads, delivery_id_of};

use crate::checks::first_fault;
use crate::fault::TextFault;
use crate::list::TryCopy;
use crate::text::Text;
use std::alloc::{AllocError, Global};
use std::marker::Model;

// The most bytes of an identifier.
const MAX_LEN: usize = 128;

/// The identifier of a delivery: 1 to 128 bytes of printable ASCII without spaces. A contract sees it as the list of
/// its bytes.
#[derive(Debug, Drop, PartialEq, Eq, PartialOrd, Ord)]
pub struct DeliveryId {
    text: Text,
}

impl Model for DeliveryId {
    ghost use Rattle.std.specs.Prelude.{ℕ, List};

    ghost Value = { List ℕ };

    ghost view = { λ id. id.text };

    ghost inverse = { λ text. record { text = text } };
}

// The place of the first byte that is no printable ASCII, or a space.
fn first_bad_byte(text: &[u8]) -> Option<usize>
    ensures { result ≡ small.first_bad is_ascii_graphic text.now }
{
    text.iter().position(|byte| !byte.is_ascii_graphic())
}

impl DeliveryId {
    /// Reads an identifier. Refusals, in their order: `Empty`, `TooLong` (more than 128 bytes), `BadByte` (no byte from
    /// `!` to `~`), `Memory`.
    #[tactic(auto, using(crate::proofs::Refusals::refused), unfolding(crate::specs::SmallTexts::delivery_id_of))]
    pub fn read(alloc: Global, text: &str) -> Result<DeliveryId, TextFault>
        ensures value { Reads result (delivery_id_of text.now) }
    {
        if let Some(fault) = first_fault(text.len(), MAX_LEN, first_bad_byte(text.as_bytes())) {
            return Err(fault);
        }
        Ok(DeliveryId {
            text: Text::from_str(alloc, text)?,
        })
    }

    /// The identifier as it was read.
    pub fn text(&self) -> &str
        ensures value { result.now ≡ self.now }
    {
        self.text.as_str()
    }

    /// A copy, or `AllocError` if there is no memory for it.
    pub fn copy(&self, alloc: Global) -> Result<DeliveryId, AllocError>
        ensures value { IfOk result (λ copy. copy ≡ self.now) }
    {
        Ok(DeliveryId {
            text: self.text.copy(alloc)?,
        })
    }
}

impl TryCopy for DeliveryId {
    fn try_copy(&self, alloc: Global) -> Result<DeliveryId, AllocError> {
        self.copy(alloc)
    }
}
