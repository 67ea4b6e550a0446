ghost use Rattle.std.specs.Prelude.{◌≡◌, ◌<◌, ◌++◌, ◌∷◌, [], List, length, Err, IsTrue, IfOk, IfErr, OnOk};
ghost use Rattle.std.specs.List.{All};
ghost use Rattle.gate_state.specs.Acts.{ActKeepsLimits};
ghost use Rattle.gate_state.specs.Room.{is_full};
ghost use Rattle.gate_state.specs.declared.state.State.{State};
ghost use Rattle.gate_queue.specs.Before.{IsBefore};
ghost use Rattle.gate_queue.specs.History.{Entry, Legal};
ghost use Rattle.gate_queue.specs.Machine.{after, reply_to};
ghost use Rattle.gate_store.specs.Headline.{AllTell, Tells};
ghost use Rattle.gate_store.specs.Run.{AgreesOnFull, IsOfActs, acts_meet_full, replies_to, after_all};

use gate_answers::Answer;
use gate_queue::{Act, Before, Fault, Gate};
use std::alloc::Global;

/// Lets acts that keep their limits step on the gate in order, and answers the gate after them, what was before them, and their
/// replies. `Full` if an act meets a full gate, and at once if the first does; else the one fault is `Memory`. After a fault the
/// gate is spent.
pub fn step_all(gate: Gate, alloc: Global, acts: &[Act]) -> Result<(Gate, Before, Answer), Fault>
    requires { All ActKeepsLimits acts.now }
    ensures replies { IfOk result (λ done. done.2 ≡ replies_to gate acts.now) }
    ensures gate { IfOk result (λ done. done.0 ≡ after_all gate acts.now) }
    ensures before { IfOk result (λ done. IsBefore done.1 gate done.0) }

    // Each entry tells, after every history that led to the state.
    ensures history { IfOk result (λ _. AllTell gate acts.now) }

    // The faults.
    ensures full { AgreesOnFull result (acts_meet_full gate acts.now) }
    ensures at_once { IsTrue (is_full gate.queue) → 0 < length acts.now → result ≡ Err Fault.Full }
    ensures cause { IfErr result IsOfActs }
{
    let mut before = Before::of(alloc, &gate);
    let mut gate = gate;
    let mut replies = Answer::from(Vec::new(alloc));
    for act in acts {
        gate = step_one(gate, alloc, act, &mut before, &mut replies)?;
    }
    Ok((gate, before, replies))
}

// Lets one act step on the gate, and answers the gate after it. Adds what was before it, and its reply.
fn step_one(
    gate: Gate,
    alloc: Global,
    act: &Act,
    before: &mut Before,
    replies: &mut Answer,
) -> Result<Gate, Fault>
    requires { ActKeepsLimits act.now }
    ensures reply { OnOk result (replies.new ≡ replies.old ++ reply_to gate act.now ∷ []) }
    ensures gate { IfOk result (λ next. next ≡ after gate act.now) }
    ensures before { OnOk result ((first : State) → IsBefore before.old first gate
        → IsBefore before.new first (after gate act.now)) }
    ensures history { OnOk result ((history : List Entry) → Legal history gate → Tells history gate act.now) }
    ensures full { AgreesOnFull result (is_full gate.queue) }
    ensures at_once { IsTrue (is_full gate.queue) → result ≡ Err Fault.Full }
    ensures cause { IfErr result IsOfActs }
{
    if gate.is_full() {
        return Err(Fault::Full);
    }
    let judged = gate.judge(alloc, act)?;
    before.note(alloc, &gate, &judged)?;
    let (gate, reply) = gate.perform(alloc, judged)?;
    replies.push(reply)?;
    Ok(gate)
}
