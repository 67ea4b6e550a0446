ghost use Rattle.std.specs.Prelude.{◌≡◌, ◌∷◌, [], List, None, IfOk, IfErr, IfSome, OnOk, length, take};
ghost use Rattle.std.specs.Borrow.{sem};
ghost use Rattle.std.specs.List.{All};
ghost use Rattle.std.specs.Io.BufRead.{Rests};
ghost use Rattle.std.specs.String.{string_bytes};
ghost use Rattle.gate_state.specs.Acts.{ActKeepsLimits};
ghost use Rattle.gate_queue.specs.History.{Entry, Legal, StateTells};
ghost use Rattle.gate_answers.specs.Answers.{answer_text_of};
ghost use Rattle.gate_store.specs.Headline.{AllTell, HistoriesTell, Headline};
ghost use Rattle.gate_store.specs.Leading.{Delivers, Runs, Steps};
ghost use Rattle.gate_store.specs.Looking.{GivesGate};
ghost use Rattle.gate_store.specs.Outlasting.{CommitsBook};
ghost use Rattle.gate_store.specs.Performing.{HasItsText, LeadsFrom};
ghost use Rattle.gate_store.specs.Run.{AgreesOnFull, IsOfActs, IsOfBooks, OrMemory, acts_in, acts_meet_full, after_deliveries, answer_to, kept_under, replies_to, with_answer};

use crate::answered::{Answered, Performed};
use crate::book::Book;
use crate::stepping::step_all;
use gate_answers::{Answer, answer_text};
use gate_deliveries::{Delivery, acts_of};
use gate_queue::{Act, Fault, Gate, law_of_histories};
use gate_text::{DeliveryId, List};
use std::alloc::Global;
use std::marker::Model;

/// What answers deliveries, lets each act once, and keeps the records of them in a book. A contract sees it as its book.
///
/// Between deliveries it has the gate of the book at hand. So it loads only if there is none: for the first new delivery or the
/// first look, and after a fault of acts, of their text or of a commit. To a commit it tells what was performed: the acts, and
/// what was before them.
#[derive(Drop)]
pub struct Keeper<B: Book> {
    book: B,
    gate: Option<Gate>,
}

impl<B: Book> Model for Keeper<B> {
    ghost use Rattle.std.specs.Prelude.{◌≡◌, IfSome};

    ghost Value = { B };

    ghost view = { λ keeper. keeper.book };

    // A gate that is at hand is the one that the book shows.
    ghost invariant = { λ keeper. IfSome keeper.gate
        (λ gate. B.is_sound keeper.book → gate ≡ (B.shows keeper.book).state) };
}

impl<B: Book> Keeper<B> {
    ghost use Rattle.gate_store.specs.Looking.{Looked};
    ghost use Rattle.gate_store.specs.contracts.keeper.Keeper.{the_row};

    /// A keeper of this book. It takes no memory.
    pub fn new(book: B) -> Keeper<B>
        ensures value { result ≡ book }
    {
        Keeper { book, gate: None }
    }

    /// The book, as it is. It takes no memory.
    pub fn into_book(self) -> B
        ensures value { result ≡ self }
    {
        let Keeper { book, .. } = self;
        book
    }

    /// A copy of the gate. It changes nothing. The fault is `Memory`, or one that the book may answer; it is never `Full`.
    pub fn gate(&mut self, alloc: Global) -> Result<Gate, Fault>
        ensures gives { GivesGate B.Book self.old self.new result }

        // People, changes and their marks are those of the history, whatever history led to the state.
        ensures history { B.is_sound self.new → IfOk result (λ gate. (history : List Entry)
            → Legal history (B.shows self.old).state → StateTells history gate) }
    {
        law_of_histories();
        self.copy_gate(alloc)
    }

    /// The gate, lent. It changes nothing but that a gate is at hand then, so the book is asked for it once, and no copy is made. The
    /// faults are those of `gate`.
    pub fn look(&mut self, alloc: Global) -> Result<&Gate, Fault>
        ensures* rests { sem 𝓛 (Rests (the_row B.row B.Book) self.entry (λ new. Looked B.Book self.old new result)) }
        ensures cause { IfErr result (OrMemory B.may_answer) }
        ensures fault { IfErr result IsOfBooks }
    {
        law_of_histories();
        self.gate = Some(take_gate(&mut self.gate, &mut self.book, alloc)?);
        match &self.gate {
            Some(gate) => Ok(gate),
            None => unreachable!(),
        }
    }

    // A copy of the gate at hand, or the book's if there is none.
    fn copy_gate(&mut self, alloc: Global) -> Result<Gate, Fault>
        ensures gives { GivesGate B.Book self.old self.new result }
    {
        match &self.gate {
            Some(gate) => Ok(gate.copy(alloc)?),
            None => self.book.load(alloc),
        }
    }

    /// Answers a delivery. If its identifier has a kept answer, that is the answer, whatever the delivery contains, and nothing
    /// changes. Else its acts step in order, and their replies are the answer, which is kept.
    ///
    /// After a fault nothing has changed, and the delivery isn't kept: none of its acts was done. The fault is `Full` if an act
    /// meets a full gate, `Memory`, or one that the book may answer.
    pub fn deliver(&mut self, alloc: Global, delivery: &Delivery) -> Result<Answer, Fault>
        // The answer is that of the run, and so are the records. A fault changes nothing.
        ensures answer { B.is_sound self.new
            → IfOk result (λ answer. answer ≡ answer_to (B.shows self.old) delivery.now) }
        ensures delivers { Delivers B.Book self.old self.new delivery.now result }

        // The headline for this delivery, and all that the history tells.
        ensures headline { B.is_sound self.new
            → IfOk result (λ answer. Headline (B.shows self.old) (delivery.now ∷ []) (answer ∷ []) (B.shows self.new)) }
        ensures history { B.is_sound self.new
            → OnOk result (HistoriesTell (B.shows self.old) (delivery.now ∷ []) (B.shows self.new)) }
    {
        self.answer(alloc, delivery)
    }

    /// Answers a delivery as `deliver` does, by the text of the answer. Of a delivery that acts the text is made before anything is
    /// kept. So after any fault nothing has changed, and if there is no memory for the text, the delivery hasn't acted.
    pub fn deliver_text(&mut self, alloc: Global, delivery: &Delivery) -> Result<String, Fault>
        // The text is that of the run's answer, and the records are those of the run. A fault changes nothing.
        ensures answer { B.is_sound self.new
            → IfOk result (λ text. string_bytes text ≡ answer_text_of (answer_to (B.shows self.old) delivery.now)) }
        ensures delivers { Delivers B.Book self.old self.new delivery.now result }

        // The headline for this delivery, and all that the history tells.
        ensures headline { B.is_sound self.new → OnOk result (Headline (B.shows self.old) (delivery.now ∷ [])
            (answer_to (B.shows self.old) delivery.now ∷ []) (B.shows self.new)) }
        ensures history { B.is_sound self.new
            → OnOk result (HistoriesTell (B.shows self.old) (delivery.now ∷ []) (B.shows self.new)) }
    {
        self.text(alloc, delivery)
    }

    /// Answers deliveries in order, and stops at the first fault. With the answers comes the fault, if there was one; then the
    /// answers are those of the deliveries before it, and the records are as these have left them.
    pub fn run(&mut self, alloc: Global, deliveries: &[Delivery]) -> (Vec<Answer>, Option<Fault>)
        ensures runs { Runs B.Book self.old self.new deliveries.now result.0.items result.1 }

        // The headline for the deliveries that were answered, and all that the history tells.
        ensures headline { B.is_honest self.new
            → Headline (B.shows self.old) (take (length result.0.items) deliveries.now) result.0.items
            (after_deliveries (B.shows self.old) (take (length result.0.items) deliveries.now)) }
        ensures history { B.is_honest self.new
            → HistoriesTell (B.shows self.old) (take (length result.0.items) deliveries.now)
            (after_deliveries (B.shows self.old) (take (length result.0.items) deliveries.now)) }
    {
        self.answer_all(alloc, deliveries)
    }

    // Answers deliveries in order, and stops at the first fault. It makes room for an answer before it answers.
    fn answer_all(&mut self, alloc: Global, deliveries: &[Delivery]) -> (Vec<Answer>, Option<Fault>)
        ensures runs { Runs B.Book self.old self.new deliveries.now result.0.items result.1 }
    {
        let mut answers = Vec::new(alloc);
        for delivery in deliveries {
            if answers.reserve(1).is_err() {
                return (answers, Some(Fault::Memory));
            }
            match self.answer(alloc, delivery) {
                Ok(answer) => answers.push_reserved(answer),
                Err(fault) => return (answers, Some(fault)),
            }
        }
        (answers, None)
    }

    // Answers a delivery from the records, or lets it act.
    fn answer(&mut self, alloc: Global, delivery: &Delivery) -> Result<Answer, Fault>
        ensures answer { B.is_sound self.new
            → IfOk result (λ answer. answer ≡ answer_to (B.shows self.old) delivery.now) }
        ensures delivers { Delivers B.Book self.old self.new delivery.now result }
    {
        if let Some(answer) = self.book.kept(alloc, &delivery.id)? {
            return Ok(answer);
        }
        let answered = self.step(alloc, delivery)?;
        Ok(answered.answer)
    }

    // The same, by the text of the answer.
    fn text(&mut self, alloc: Global, delivery: &Delivery) -> Result<String, Fault>
        ensures answer { B.is_sound self.new
            → IfOk result (λ text. string_bytes text ≡ answer_text_of (answer_to (B.shows self.old) delivery.now)) }
        ensures delivers { Delivers B.Book self.old self.new delivery.now result }
    {
        if let Some(kept) = self.book.kept_text(alloc, &delivery.id)? {
            return Ok(kept);
        }
        let answered = self.step(alloc, delivery)?;
        Ok(answered.text)
    }

    // Lets a delivery act whose identifier has no kept answer. Once the gate is taken, a fault leaves none at hand.
    fn step(&mut self, alloc: Global, delivery: &Delivery) -> Result<Answered, Fault>
        requires free { B.is_sound self.old → kept_under (B.shows self.old) delivery.now.id ≡ None }
        requires sound { B.is_honest self.old → B.is_sound self.old }
        ensures answer { B.is_sound self.new
            → IfOk result (λ answered. answered.answer ≡ replies_to (B.shows self.old).state (acts_in delivery.now)) }
        ensures text { IfOk result HasItsText }
        ensures steps { Steps B.Book self.old self.new delivery.now result }
    {
        let acts = acts_of(alloc, delivery)?;
        let gate = take_gate(&mut self.gate, &mut self.book, alloc)?;
        let (gate, performed, answered) = act_all(gate, alloc, List::from(acts))?;
        self.commit(alloc, performed, gate, &delivery.id, &answered)?;
        Ok(answered)
    }

    // Keeps a gate and an answer in the book, which is told what was performed. The gate is at hand then.
    fn commit(
        &mut self,
        alloc: Global,
        done: Performed,
        gate: Gate,
        id: &DeliveryId,
        answered: &Answered,
    ) -> Result<(), Fault>
        requires free { B.is_sound self.old → kept_under (B.shows self.old) id.now ≡ None }
        requires leads { B.is_sound self.old → LeadsFrom (B.shows self.old).state done gate }
        requires text { HasItsText answered.now }
        ensures commits { CommitsBook B.Book self.old self.new result
            (with_answer (B.shows self.old) gate id.now answered.now.answer) }
    {
        self.book.commit_since(alloc, done, &gate, id, answered)?;
        self.gate = Some(gate);
        Ok(())
    }
}

// Lets acts step on the gate, and makes the text of their replies.
fn act_all(gate: Gate, alloc: Global, acts: List<Act>) -> Result<(Gate, Performed, Answered), Fault>
    requires { All ActKeepsLimits acts }
    ensures answer { IfOk result (λ done. done.2.answer ≡ replies_to gate acts) }
    ensures text { IfOk result (λ done. HasItsText done.2) }
    ensures acts { IfOk result (λ done. done.1.acts ≡ acts) }
    ensures leads { IfOk result (λ done. LeadsFrom gate done.1 done.0) }
    ensures history { IfOk result (λ _. AllTell gate acts) }
    ensures full { AgreesOnFull result (acts_meet_full gate acts) }
    ensures cause { IfErr result IsOfActs }
{
    let (gate, before, answer) = step_all(gate, alloc, acts.as_slice())?;
    let text = answer_text(alloc, &answer)?;
    Ok((gate, Performed { acts, before }, Answered { answer, text }))
}

// Takes the gate at hand, or loads the book's if there is none.
fn take_gate<B: Book>(
    at_hand: &mut Option<Gate>,
    book: &mut B,
    alloc: Global,
) -> Result<Gate, Fault>
    requires { IfSome at_hand.old (λ gate. B.is_sound book.old → gate ≡ (B.shows book.old).state) }
    ensures taken { at_hand.new ≡ None }
    ensures gives { GivesGate B.Book book.old book.new result }
{
    match at_hand.take() {
        Some(gate) => Ok(gate),
        None => book.load(alloc),
    }
}
