//! Deliveries and their answers, the records of both, and a keeper that lets each delivery act once: its contract is
//! the headline of the merge bot.
#![tactic(auto)]

mod answered;
mod book;
mod keeper;
mod laws;
mod plain_book;
mod stepping;

pub use answered::{Answered, Performed};
pub use book::Book;
pub use gate_answers::{Answer, AnswerFault, answer_text, law_of_texts, read_answer, reread};
pub use gate_deliveries::{Delivery, Event, acts_of};
pub use gate_queue::Moment;
pub use keeper::Keeper;
pub use laws::law_of_deliveries;
pub use plain_book::PlainBook;
