//! What a delivery is answered, as a text: how it is made, and how it is read back.
#![tactic(auto)]

mod answers;
mod finding;
mod laws;
mod reading;

pub use answers::{Answer, answer_text};
pub use laws::law_of_texts;
pub use reading::{AnswerFault, read_answer, reread};
