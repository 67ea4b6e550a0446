ghost use Rattle.std.specs.Prelude.{◌≡◌, None, IfOk};
ghost use Rattle.std.specs.Option.{option_map};
ghost use Rattle.std.specs.String.{string_bytes};
ghost use Rattle.gate_answers.specs.Answers.{answer_text_of};
ghost use Rattle.gate_store.specs.Calls.{Asks, Commits};
ghost use Rattle.gate_store.specs.Performing.{HasItsText, LeadsFrom};
ghost use Rattle.gate_store.specs.Run.{OrMemory, Records, kept_under, with_answer};

use crate::answered::{Answered, Performed};
use gate_answers::{Answer, answer_text};
use gate_queue::{Fault, Gate};
use gate_text::DeliveryId;
use std::alloc::Global;

/// Records: the state of the machine, and the answer that is kept under each identifier. The clauses are the laws of a book,
/// under the book's premise; all that the keeper of a book promises rests on them alone. A call that succeeds leaves a book that is
/// still sound, if it is honest.
///
/// A fault is `Memory` or `Store`, and changes nothing.
pub trait Book {
    ghost use Rattle.gate_queue.specs.declared.fault.Fault.{Fault as FaultOf};

    // What the book shows.
    ghost shows: { Self → Records };

    // The premise under which it shows that.
    ghost is_sound: { Self → Type 0 };

    // The part of it that no call can see: what is beneath the book has given back what was handed to it. The other part is that no
    // fault has shut the book.
    ghost is_honest: { Self → Type 0 };

    // Each later read beneath the book is tested, so that one which gives back something else is a fault, if the test can tell the two.
    ghost is_shielded: { Self → Type 0 };

    // The faults that it may answer.
    ghost may_answer: { FaultOf → Type 0 };

    /// The state, as a gate. It changes nothing.
    fn load(&mut self, alloc: Global) -> Result<Gate, Fault>
        ensures gate { is_sound self.new → IfOk result (λ gate. gate ≡ (shows self.old).state) }
        ensures asks { Asks shows is_sound is_honest is_shielded may_answer self.old self.new result };

    /// The answer that is kept under an identifier, if there is one. It changes nothing.
    fn kept(&mut self, alloc: Global, id: &DeliveryId) -> Result<Option<Answer>, Fault>
        ensures answer { is_sound self.new → IfOk result (λ answer. answer ≡ kept_under (shows self.old) id.now) }
        ensures asks { Asks shows is_sound is_honest is_shielded may_answer self.old self.new result };

    /// The text of the answer that is kept under an identifier, if there is one. It changes nothing. A book that keeps texts needn't
    /// read the answer and write it anew. The fault is `Memory`, or one that the book may answer.
    fn kept_text(&mut self, alloc: Global, id: &DeliveryId) -> Result<Option<String>, Fault>
        ensures text { is_sound self.new → IfOk result (λ text. option_map string_bytes text
            ≡ option_map answer_text_of (kept_under (shows self.old) id.now)) }
        ensures asks { Asks shows is_sound is_honest is_shielded (OrMemory may_answer) self.old self.new result }
    {
        match self.kept(alloc, id)? {
            Some(answer) => Ok(Some(answer_text(alloc, &answer)?)),
            None => Ok(None),
        }
    }

    /// Keeps the state of a gate in place of the one before, and an answer under an identifier that has none, both or neither.
    fn commit(
        &mut self,
        alloc: Global,
        gate: &Gate,
        id: &DeliveryId,
        answer: &Answer,
    ) -> Result<(), Fault>
        requires free { is_sound self.old → kept_under (shows self.old) id.now ≡ None }
        ensures commits { Commits shows is_sound is_honest is_shielded may_answer self.old self.new result
            (with_answer (shows self.old) gate.now id.now answer.now) };

    /// Does what `commit` does. It is told besides what was performed since the state that the book shows, and the text of the answer. So
    /// a book needn't compare or copy whole states, nor make the text anew.
    fn commit_since(
        &mut self,
        alloc: Global,
        performed: Performed,
        gate: &Gate,
        id: &DeliveryId,
        answered: &Answered,
    ) -> Result<(), Fault>
        requires free { is_sound self.old → kept_under (shows self.old) id.now ≡ None }
        requires leads { is_sound self.old → LeadsFrom (shows self.old).state performed gate.now }
        requires text { HasItsText answered.now }
        ensures commits { Commits shows is_sound is_honest is_shielded may_answer self.old self.new result
            (with_answer (shows self.old) gate.now id.now answered.now.answer) }
    {
        drop(performed);
        self.commit(alloc, gate, id, &answered.answer)
    }

    // So what is said of an honest book is said of a sound one.
    ghost sound_is_honest: { (book : Self) → is_sound book → is_honest book };
}
