ghost use Rattle.std.specs.Prelude.{◌≡◌, ◌≢◌, ◌≤◌, ◌↔◌, IfOk, IfErr, Some, None, Err, List, true};
ghost use Rattle.serde_json.specs.Data.{depth};
ghost use Rattle.serde_json.specs.Read.{read, max_depth};
ghost use Rattle.serde_json.specs.View.{view};
ghost use Rattle.gate_state.specs.declared.reply.Reply.{Reply as ReplyOf};
ghost use Rattle.gate_answers.specs.Answers.{answer_data};
ghost use Rattle.gate_answers.specs.Limits.{IsAnswer};

use crate::answers::{Answer, answer_text};
use crate::finding::answer_in;
use serde_json::Value;
use std::alloc::{AllocError, Global};
use thiserror::Error;

/// Why no answer was read of a text.
#[derive(Clone, Copy, Debug, PartialEq, Eq, Error)]
pub enum AnswerFault {
    /// The text isn't JSON, or its value is one that is written for no answer.
    #[error("not an answer")]
    NotAnswer,
    /// The allocator had no memory.
    #[error("out of memory")]
    Memory,
}

impl From<AllocError> for AnswerFault {
    ghost use Rattle.std.specs.Prelude.{◌≡◌};
    ghost use Rattle.gate_answers.specs.declared.reading.AnswerFault.TheVariants.{Memory};

    ghost from_gives = { λ _ fault. fault ≡ Memory };

    fn from(_error: AllocError) -> AnswerFault {
        AnswerFault::Memory
    }
}

// The JSON value that the text is.
fn value_of(alloc: Global, text: &str) -> Result<Value, AnswerFault>
    ensures ok { IfOk result (λ value. read text.now ≡ Some (view value)) }
    ensures nests { IfOk result (λ value. depth (view value) ≤ max_depth) }
    ensures not_answer { IfErr result (λ fault. fault ≡ AnswerFault.NotAnswer → read text.now ≡ None) }
{
    match Value::from_str(alloc, text) {
        Ok(value) => Ok(value),
        Err(error) => {
            if error.is_memory() {
                return Err(AnswerFault::Memory);
            }
            Err(AnswerFault::NotAnswer)
        }
    }
}

// Whether the value is the one that is written for the answer. Texts are compared, since each reads back as its value.
fn is_value_of(alloc: Global, value: &Value, answer: &Answer) -> Result<bool, AllocError>
    requires nests { depth (view value.now) ≤ max_depth }
    ensures { IfOk result (λ is_so. (is_so ≡ true) ↔ (view value.now ≡ answer_data answer.now)) }
{
    let found = value.to_string(alloc)?;
    let written = answer_text(alloc, answer)?;
    Ok(found == written)
}

/// Reads an answer, as JSON (RFC 8259): takes a text exactly if its value is the one that `answer_text` writes for some
/// answer. So names may stand in any order with spaces between, and none is missing or added. `NotAnswer` if the text isn't
/// JSON, or its value is written for no answer that the types can hold: changes are from 1 to 4,294,967,295, commits have 40
/// digits, labels and names of statuses 1 to 255 bytes without control characters; a batch is below 2^64, both counts of
/// reviews are below 2^32, the number of refused settings is below 256. `Memory` may come at any point.
pub fn read_answer(alloc: Global, text: &str) -> Result<Answer, AnswerFault>
    ensures ok { IfOk result (λ answer. read text.now ≡ Some (answer_data answer)) }
    ensures good { IfOk result IsAnswer }
    ensures not_answer { IfErr result (λ fault. fault ≡ AnswerFault.NotAnswer → (answer : List ReplyOf) → IsAnswer answer
        → read text.now ≢ Some (answer_data answer)) }
{
    let value = value_of(alloc, text)?;
    let answer = answer_in(alloc, &value)?;
    if is_value_of(alloc, &value, &answer)? {
        Ok(answer)
    } else {
        Err(AnswerFault::NotAnswer)
    }
}

/// Reads again what is written for an answer: gives that answer or `Memory`, and never `NotAnswer`.
pub fn reread(alloc: Global, answer: &Answer) -> Result<Answer, AnswerFault>
    ensures again { IfOk result (λ again. again ≡ answer.now) }
    ensures never { result ≢ Err AnswerFault.NotAnswer }
{
    let text = answer_text(alloc, answer)?;
    read_answer(alloc, text.as_str())
}
