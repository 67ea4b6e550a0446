use gate_answers::Answer;
use gate_queue::{Act, Before};
use gate_text::List;

/// What was performed: acts, and what was before them.
#[derive(Drop)]
pub struct Performed {
    /// The acts, in their order.
    pub acts: List<Act>,
    /// The parts that they may have changed, as they were before the first of them.
    pub before: Before,
}

/// What a delivery is answered.
#[derive(Drop)]
pub struct Answered {
    /// The answer.
    pub answer: Answer,
    /// Its text.
    pub text: String,
}
