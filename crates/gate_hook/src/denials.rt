ghost use Rattle.std.specs.Prelude.{◌≡◌, IfOk, option_copied};
ghost use Rattle.gate_hook.specs.Denials.{IsDenialIn, IsDenialOf, first_denial};

use gate_state::Reply;
use gate_store::{AnswerFault, read_answer};
use std::alloc::{AllocError, Global};

// The rule of the first reply that is a denial, if one is.
fn denial_among(replies: &[Reply]) -> Option<&'static str>
    ensures { option_copied result ≡ first_denial replies.now }
{
    for reply in replies {
        if let Reply::Denied(rule) = reply {
            return Some(rule.word());
        }
    }
    None
}

// The rule of the first denial in the text of an answer. Of another text there is none.
fn denial_of(alloc: Global, text: &str) -> Result<Option<&'static str>, AllocError>
    ensures { IfOk result (λ rule. IsDenialOf text.now (option_copied rule)) }
{
    match read_answer(alloc, text) {
        Ok(answer) => Ok(denial_among(answer.as_slice())),
        Err(AnswerFault::NotAnswer) => Ok(None),
        Err(AnswerFault::Memory) => Err(AllocError),
    }
}

/// The rule of the first denial in a response, by the name that answers write, if its body is an answer that has one. `AllocError` if
/// there is no memory to read it.
pub fn denial_in(alloc: Global, response: &str) -> Result<Option<&'static str>, AllocError>
    ensures denial { IfOk result (λ rule. IsDenialIn response.now (option_copied rule)) }
{
    match response.split_once("\r\n\r\n") {
        Some((_, body)) => denial_of(alloc, body),
        None => Ok(None),
    }
}
