ghost use Rattle.std.specs.Prelude.{◌≡◌, true, ◌↔◌, ◌⊎◌, ◌<◌, ◌≤◌, ℕ, [], List, Err, Some, None, IfOk, IfErr, IfSome, IsOk};
ghost use Rattle.std.specs.FinMap as map;
ghost use Rattle.std.specs.Option.{option_copied};
ghost use Rattle.gate_rules.specs.declared.rule.Rule.{Rule};
ghost use Rattle.gate_state.specs.State.{IsState};
ghost use Rattle.gate_state.specs.Acts.{ActKeepsLimits};
ghost use Rattle.gate_state.specs.declared.reply.Reply.TheVariants.{Denied};
ghost use Rattle.gate_queue.specs.History.{Entry, Legal, EntryTells, entry_of};
ghost use Rattle.gate_queue.specs.Judging.{IsJudgement, IsRetry};
ghost use Rattle.gate_queue.specs.Machine.{DeskTakesNoMemory, QueueTakesNoMemory, RefusalMayWantMemory, Step, denial, empty_state};
ghost use Rattle.gate_state.specs.Queue as queue_specs;
ghost use Rattle.gate_state.specs.Service.{QueueIsInOrder};
ghost use Rattle.gate_state.specs.Room.{HasRoom, is_full};

use crate::fault::Fault;
use crate::judging::{judge, rule_of};
use crate::stepping::step;
use crate::verdict::Judged;
use gate_rules::{Change, Desk, Rule};
use gate_state::{Act, Batch, MAX_NEXT, Queue, Reply, State};
use gate_text::ChangeNo;
use std::alloc::{AllocError, Global};
use std::marker::Model;

/// The state of the merge bot, on which acts step one after the other. A contract sees it as its desk and its queue.
#[derive(Drop)]
pub struct Gate {
    state: State,
}

impl Model for Gate {
    ghost use Rattle.std.specs.Coded.{codes};
    ghost use Rattle.gate_text.specs.Finite.{finite_codes};
    ghost use Rattle.gate_state.specs.declared.state.State.{State};
    ghost use Rattle.gate_state.specs.State.{IsState};

    ghost Value = { State };

    ghost coded = { Prim.hlevel (codes, finite_codes) };

    ghost view = { λ gate. gate.state };

    // What a state keeps, whatever has happened.
    ghost invariant = { λ gate. IsState gate.state };
}

// How many numbers have to be left before an act. None uses more.
const NEEDED: u64 = 4;

impl Gate {
    /// A gate with an empty desk, its clock at 0, and without batches; the first will have the number 1. It takes no memory;
    /// its maps and lists keep the allocator.
    pub fn new(alloc: Global) -> Gate
        ensures value { result ≡ empty_state 1 }
    {
        Gate::starting_at(alloc, 1)
    }

    /// The same, and the first batch will have the number `next`, from 1 to 9,000,000,000,000,000.
    pub fn starting_at(alloc: Global, next: u64) -> Gate
        requires low { 1 ≤ next }
        requires high { next ≤ 9_000_000_000_000_000 }
        ensures value { result ≡ empty_state next }
    {
        Gate {
            state: State {
                desk: Desk::new(alloc),
                queue: Queue::new(alloc, next),
            },
        }
    }

    /// A gate of this state, or nothing if its parts don't stand for a state of the machine. It takes no memory.
    pub fn from_state(state: State) -> Option<Gate>
        ensures gate { IfSome result (λ gate. gate ≡ state) }

        // It refuses only what is no state.
        ensures refused { result ≡ None → IsState state → ⊥ }
    {
        if state.fits() {
            Some(Gate { state })
        } else {
            None
        }
    }

    /// A copy, or `AllocError` if there is no memory for it.
    pub fn copy(&self, alloc: Global) -> Result<Gate, AllocError>
        ensures value { IfOk result (λ copy. copy ≡ self.now) }
    {
        Ok(Gate {
            state: self.state.copy(alloc)?,
        })
    }

    /// Whether the next number is above 8,999,999,999,999,996, so that no act steps.
    pub fn is_full(&self) -> bool
        ensures value { result ≡ is_full self.now.queue }
    {
        MAX_NEXT < self.state.queue.next + NEEDED
    }

    /// What becomes of an act when it steps: the first rule of its row that fails, or what it means if all hold; on a full gate
    /// too. `AllocError` if there is no memory to read settings, to copy a label or a status that the rule names, or to copy
    /// what a `retry` repeats.
    pub fn judge<'a>(&self, alloc: Global, act: &'a Act) -> Result<Judged<'a>, AllocError>
        ensures act { IfOk result (λ judged. judged.act.now ≡ act.now) }
        ensures verdict { IfOk result (λ judged. IsJudgement self.now act.now judged.verdict) }

        // `AllocError` comes only if the rule may want memory, as those on settings may, or of a `retry`; and of a `retry` that a
        // rule denies only if the rule may.
        ensures cause { IfErr result (λ _. RefusalMayWantMemory act.now (denial self.now act.now) ⊎ IsRetry act.now) }
        ensures refused { IfErr result (λ _. (rule : Rule) → denial self.now act.now ≡ Some rule
            → RefusalMayWantMemory act.now (Some rule)) }
        ensures no_memory { DeskTakesNoMemory self.now.desk act.now → IsOk result }
    {
        let verdict = judge(&self.state, alloc, act)?;
        Ok(Judged { act, verdict })
    }

    /// Lets an act that keeps its limits step by what this gate, which isn't full, has judged of it. It answers the gate after it
    /// and the reply. `AllocError` if there is no memory for it; then the gate is spent. A denied act takes no memory.
    pub fn perform(self, alloc: Global, judged: Judged) -> Result<(Gate, Reply), AllocError>
        requires limits { ActKeepsLimits judged.act.now }
        requires judged { IsJudgement self judged.act.now judged.verdict }
        requires room { HasRoom self.queue }
        ensures step { IfOk result (λ done. Step self judged.entry.act.now done.1 done.0) }
        ensures history { IfOk result (λ done. (history : List Entry) → Legal history self
            → EntryTells history self (entry_of judged.entry.act.now done.1) done.0) }
        ensures denied { IfOk result (λ done. (rule : Rule) → done.1 ≡ Denied rule → done.0 ≡ self) }
        ensures refused { IfErr result (λ _. denial self judged.entry.act.now ≡ None) }
        ensures no_memory { DeskTakesNoMemory self.desk judged.entry.act.now
            → QueueTakesNoMemory self judged.entry.act.now → IsOk result }
    {
        let Gate { state } = self;
        let (state, reply) = step(state, alloc, judged.act, judged.verdict)?;
        Ok((Gate { state }, reply))
    }

    /// Lets an act that keeps its limits step, and answers the gate after it and the reply. `Full` if the next number is
    /// above 8,999,999,999,999,996, whatever the act is; else the one fault is `Memory`. After a fault the gate is spent.
    pub fn act(self, alloc: Global, act: &Act) -> Result<(Gate, Reply), Fault>
        requires { ActKeepsLimits act.now }

        // It is a step of the machine.
        ensures step { IfOk result (λ done. Step self act.now done.1 done.0) }

        // What the entry tells, after every history that led to the state.
        ensures history { IfOk result (λ done. (history : List Entry) → Legal history self
            → EntryTells history self (entry_of act.now done.1) done.0) }

        // An act that a rule denies changes nothing, and its reply has no orders.
        ensures denied { IfOk result (λ done. (rule : Rule) → done.1 ≡ Denied rule → done.0 ≡ self) }

        // The faults. An act that a rule denies meets `Memory` only if the rule itself may want memory.
        ensures full { (result ≡ Err Fault.Full) ↔ (is_full self.queue ≡ true) }
        ensures cause { IfErr result (λ fault. (fault ≡ Fault.Memory) ⊎ (fault ≡ Fault.Full)) }
        ensures refused { IfErr result (λ fault. fault ≡ Fault.Memory → (rule : Rule) → denial self act.now ≡ Some rule
            → RefusalMayWantMemory act.now (Some rule)) }

        // An act that allocates nothing is always answered, if the gate isn't full.
        ensures no_memory { HasRoom self.queue → DeskTakesNoMemory self.desk act.now → QueueTakesNoMemory self act.now
            → IsOk result }
    {
        if self.is_full() {
            return Err(Fault::Full);
        }
        let judged = self.judge(alloc, act)?;
        Ok(self.perform(alloc, judged)?)
    }

    /// The rule that would deny the act: the first of its row that fails, and nothing if all hold; on a full gate too.
    /// `AllocError` if there is no memory to read settings, or to copy a label or a status that the rule names.
    pub fn refusal(&self, alloc: Global, act: &Act) -> Result<Option<Rule>, AllocError>
        ensures value { IfOk result (λ rule. rule ≡ denial self.now act.now) }
        ensures cause { IfErr result (λ _. RefusalMayWantMemory act.now (denial self.now act.now)) }
    {
        rule_of(&self.state.desk, &self.state.queue, alloc, act)
    }

    /// The change of this number, if it was opened.
    pub fn change(&self, number: ChangeNo) -> Option<&Change>
        ensures value { option_copied result ≡ map.get self.now.desk.changes number }
    {
        self.state.desk.change(number)
    }

    /// The state: the desk, and the batches.
    pub fn state(&self) -> &State
        ensures value { result.now ≡ self.now }
        ensures state { IsState self.now }
    {
        &self.state
    }

    /// The desk: roles, changes, settings, base and clock.
    pub fn desk(&self) -> &Desk
        ensures value { result.now ≡ self.now.desk }
        ensures state { IsState self.now }
    {
        &self.state.desk
    }

    /// The numbers of all batches, in order of service: of a branch the running batch first, then the waiting ones by greater
    /// priority, then retried before fresh, then smaller number. `AllocError` if there is no memory for them.
    pub fn queue(&self, alloc: Global) -> Result<Vec<u64>, AllocError>
        ensures value { IfOk result (λ numbers. numbers.items ≡ queue_specs.numbers_of self.now.queue) }
        ensures order { QueueIsInOrder self.now.queue }
    {
        self.state.queue.numbers(alloc)
    }

    /// The batch of this number, if there is one.
    pub fn batch(&self, number: u64) -> Option<&Batch>
        ensures value { option_copied result ≡ queue_specs.batch_numbered number self.now.queue }
    {
        self.state.queue.batch(number)
    }

    /// The number of the next batch.
    pub fn next(&self) -> u64
        ensures value { result ≡ self.now.queue.next }
        ensures low { 1 ≤ result }
        ensures high { result ≤ 9_000_000_000_000_000 }
    {
        self.state.queue.next
    }
}

/// The law of the first history: the one without entries is legal to an empty state with a next number from 1 to
/// 9,000,000,000,000,000, as `Gate::new` and `Gate::starting_at` show one.
pub fn empty_history_is_legal()
    ensures { (next : ℕ) → 1 ≤ next → next ≤ 9_000_000_000_000_000 → Legal [] (empty_state next) }
{}
