ghost use Rattle.std.specs.Prelude.{◌≡◌, ◌++◌, ◌∷◌, [], Ok};
ghost use Rattle.std.specs.String.{string_bytes};
ghost use Rattle.gate_hook.specs.Lines.{text_answered};
ghost use Rattle.gate_hook.specs.Responding.{AnswersDelivery};

use gate_http::with_line_feed;
use gate_queue::Fault;
use gate_store::{Book, Delivery, Keeper};
use std::alloc::Global;

/// The text of the answer to a delivery, with its line feed.
pub fn delivery_answer<B: Book>(
    alloc: Global,
    keeper: &mut Keeper<B>,
    delivery: &Delivery,
) -> Result<String, Fault>
    ensures answers { AnswersDelivery B.Book keeper.old keeper.new delivery.now result
        (λ text. string_bytes text ≡ text_answered (B.shows keeper.old) (Ok delivery.now) ++ 10 ∷ []) }
{
    let text = keeper.deliver_text(alloc, delivery)?;
    Ok(with_line_feed(text)?)
}
