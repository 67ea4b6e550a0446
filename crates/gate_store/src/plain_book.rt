ghost use Rattle.std.specs.Prelude.{◌≡◌, false, IfErr, IfOk, OnOk, OnErr};
ghost use Rattle.std.specs.FinMap.{empty, insert};
ghost use Rattle.std.specs.List.{All};
ghost use Rattle.std.specs.Option.{option_copied};
ghost use Rattle.gate_state.specs.Acts.{ActKeepsLimits};
ghost use Rattle.gate_store.specs.Logged.{answers_in};
ghost use Rattle.gate_store.specs.Run.{acts_meet_full, after_all, kept_under};

use crate::answered::{Answered, Performed};
use crate::book::Book;
use crate::stepping::step_all;
use gate_answers::Answer;
use gate_queue::{Act, Fault, Gate};
use gate_text::{DeliveryId, List};
use std::alloc::{AllocError, Global};
use std::collections::BTreeMap;
use std::marker::Model;

// How many deliveries the log has at most. Then the gate is copied once more.
const MOST: usize = 4_096;

/// A book in memory, without a database. A contract sees it as its records. It has a gate as it was some deliveries ago, and the acts
/// since. So a commit of a keeper copies no gate, but one of 4,097.
#[derive(Drop)]
pub struct PlainBook {
    gate: Gate,
    log: Vec<List<Act>>,
    answers: BTreeMap<DeliveryId, Answer>,
}

impl Model for PlainBook {
    ghost use Rattle.std.specs.Coded.{codes};
    ghost use Rattle.gate_text.specs.Finite.{finite_codes};
    ghost use Rattle.gate_store.specs.Logged.{CanBeRepeated, after_log, answers_in};
    ghost use Rattle.gate_store.specs.Run.{Records};

    ghost Value = { Records };

    ghost coded = { Prim.hlevel (codes, finite_codes) };

    ghost view = { λ book. record {
      state = after_log book.gate book.log.items;
      kept = answers_in book.answers.entries;
    } };

    ghost invariant = { λ book. CanBeRepeated book.gate book.log.items };
}

impl PlainBook {
    /// A book with the state of this gate, in which no answer is kept. It takes no memory; its log and its map keep the
    /// allocator.
    pub fn new(alloc: Global, gate: Gate) -> PlainBook
        ensures value { result ≡ record { state = gate; kept = empty } }
    {
        PlainBook {
            gate,
            log: Vec::new(alloc),
            answers: BTreeMap::new(alloc),
        }
    }

    // The gate as it is now.
    fn gate_now(&self, alloc: Global) -> Result<Gate, Fault>
        ensures gate { IfOk result (λ gate. gate ≡ self.now.state) }
        ensures cause { IfErr result (λ fault. fault ≡ Fault.Memory) }
    {
        let mut gate = self.gate.copy(alloc)?;
        for acts in &self.log {
            gate = perform_again(gate, alloc, acts.as_slice())?;
        }
        Ok(gate)
    }

    // The answer that is kept under an identifier.
    fn answer_under(&self, id: &DeliveryId) -> Option<&Answer>
        ensures { option_copied result ≡ kept_under self.now id.now }
    {
        self.answers.get(id)
    }
}

impl Book for PlainBook {
    ghost use Rattle.std.specs.Prelude.{◌≡◌};
    ghost use Rattle.gate_queue.specs.declared.fault.Fault.TheVariants.{Memory};

    ghost shows = { λ book. book };

    // Nothing but memory is needed.
    ghost is_sound = { λ book. Unit {0} };

    ghost is_honest = { λ book. Unit {0} };

    ghost is_shielded = { λ book. Unit {0} };

    ghost sound_is_honest = { λ book sound. tt };

    ghost may_answer = { λ fault. fault ≡ Memory };

    fn load(&mut self, alloc: Global) -> Result<Gate, Fault> {
        self.gate_now(alloc)
    }

    fn kept(&mut self, alloc: Global, id: &DeliveryId) -> Result<Option<Answer>, Fault> {
        match self.answer_under(id) {
            Some(answer) => Ok(Some(answer.copy(alloc)?)),
            None => Ok(None),
        }
    }

    /// Keeps a copy of the gate, and of the answer.
    fn commit(
        &mut self,
        alloc: Global,
        gate: &Gate,
        id: &DeliveryId,
        answer: &Answer,
    ) -> Result<(), Fault> {
        let gate = gate.copy(alloc)?;
        keep(&mut self.answers, alloc, id, answer)?;
        self.gate = gate;
        self.log.clear();
        Ok(())
    }

    /// Keeps the acts, and a copy of the answer. If the log is full, a copy of the gate takes its place.
    fn commit_since(
        &mut self,
        alloc: Global,
        performed: Performed,
        gate: &Gate,
        id: &DeliveryId,
        answered: &Answered,
    ) -> Result<(), Fault> {
        let Performed { acts, before } = performed;
        drop(before);
        if self.log.len() >= MOST {
            return self.commit(alloc, gate, id, &answered.answer);
        }
        self.log.reserve(1)?;
        keep(&mut self.answers, alloc, id, &answered.answer)?;
        self.log.push_reserved(acts);
        Ok(())
    }
}

// Lets acts step on a gate once more. They met no full gate, so the one fault is `Memory`.
fn perform_again(gate: Gate, alloc: Global, acts: &[Act]) -> Result<Gate, Fault>
    requires room { acts_meet_full gate acts.now ≡ false }
    requires limits { All ActKeepsLimits acts.now }
    ensures gate { IfOk result (λ next. next ≡ after_all gate acts.now) }
    ensures cause { IfErr result (λ fault. fault ≡ Fault.Memory) }
{
    let (gate, before, replies) = step_all(gate, alloc, acts)?;
    drop(before);
    drop(replies);
    Ok(gate)
}

// Keeps copies of an identifier and its answer.
fn keep(
    answers: &mut BTreeMap<DeliveryId, Answer>,
    alloc: Global,
    id: &DeliveryId,
    answer: &Answer,
) -> Result<(), AllocError>
    ensures ok { OnOk result
        (answers_in answers.new.entries ≡ insert (answers_in answers.old.entries) id.now answer.now) }
    ensures err { OnErr result (answers_in answers.new.entries ≡ answers_in answers.old.entries) }
{
    answers.insert(id.copy(alloc)?, answer.copy(alloc)?)?;
    Ok(())
}
