ghost use Rattle.gate_answers.specs.Reading.{LawOfTexts};

/// The law of texts: a text whose value is written for an answer is that answer. So at most one answer has it.
pub fn law_of_texts()
    ensures { LawOfTexts }
{}
