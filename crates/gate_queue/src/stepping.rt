ghost use Rattle.std.specs.Prelude.{◌≡◌, true, false, is_none, IfOk, IfErr, IsNone, IsOk};
ghost use Rattle.gate_rules.specs.View.{look};
ghost use Rattle.gate_state.specs.declared.act.Act.TheVariants.{On, Other};
ghost use Rattle.gate_queue.specs.Judging.{IsJudgement, brought};
ghost use Rattle.gate_queue.specs.Machine as machine;
ghost use Rattle.gate_queue.specs.Machine.{DeedTakesNoMemory, DeskTakesNoMemory, QueueTakesNoMemory, Step, broken, denial, effect, is_unmoved_on};
ghost use Rattle.gate_state.specs.Queue.{staged};
ghost use Rattle.gate_state.specs.declared.reply.Reply.TheVariants.{Done};
ghost use Rattle.gate_state.specs.declared.reply.Why.TheVariants as why;
ghost use Rattle.gate_state.specs.Room.{HasRoom, HasRoomFor};

use crate::judging::has_ordered;
use crate::marks::{follow, mark_on};
use crate::outcome::{Outcome, quiet};
use crate::performing::perform;
use crate::running::{fail, send_back, take_status};
use crate::settings::accept_settings;
use crate::ticking::tick;
use crate::verdict::Verdict;
use gate_rules::Desk;
use gate_state::{Act, Branch, Deed, Fact, Lane, Queue, Reply, Stage, State, Tried, Why};
use gate_text::{ChangeNo, Commit};
use std::alloc::{AllocError, Global};

/// Lets an act step by what was judged of it: the state after it, and its reply. `AllocError` if there is no memory for it; an act
/// that a rule denies takes none.
pub fn step(
    state: State,
    alloc: Global,
    act: &Act,
    verdict: Verdict,
) -> Result<(State, Reply), AllocError>
    requires room { HasRoom state.queue }
    requires judged { IsJudgement state act.now verdict }
    ensures step { IfOk result (λ done. Step state act.now done.1 done.0) }
    ensures holds { IfErr result (λ _. IsNone (denial state act.now)) }
    ensures no_memory { DeskTakesNoMemory state.desk act.now → QueueTakesNoMemory state act.now → IsOk result }
{
    match verdict {
        Verdict::Denied(rule) => Ok((state, Reply::Denied(rule))),
        Verdict::Sets(settings) => Ok(done(accept_settings(state, alloc, settings)?)),
        Verdict::Repeats(repeated) => Ok(done(act_on(state, alloc, &repeated)?)),
        Verdict::Stands => Ok(done(act_on(state, alloc, act)?)),
    }
}

// The state and the reply that are the outcome of an act.
fn done(outcome: Outcome) -> (State, Reply)
    ensures state { result.0 ≡ outcome.state }
    ensures reply { result.1 ≡ Done outcome.orders }
{
    (outcome.state, Reply::Done(outcome.orders))
}

// What an act comes to that no rule denies, that means itself and that brings no settings.
fn act_on(state: State, alloc: Global, act: &Act) -> Result<Outcome, AllocError>
    requires room { HasRoom state.queue }
    requires holds { IsNone (denial state act.now) }
    requires brings { IsNone (brought act.now) }
    ensures value { IfOk result (λ outcome. outcome ≡ machine.done state act.now) }
    ensures no_memory { DeskTakesNoMemory state.desk act.now → QueueTakesNoMemory state act.now → IsOk result }
{
    match act {
        Act::On { change, deed } => act_on_change(state, alloc, *change, deed),
        Act::Other(fact) => take_fact(state, alloc, fact),
    }
}

// A deed on a change, and then the queue follows.
fn act_on_change(
    state: State,
    alloc: Global,
    change: ChangeNo,
    deed: &Deed,
) -> Result<Outcome, AllocError>
    requires room { HasRoom state.queue }
    requires holds { IsNone (broken (look state.desk) (On change deed.now)) }
    ensures value { IfOk result (λ outcome. outcome ≡ machine.about state change deed.now) }
    ensures no_memory { DeedTakesNoMemory state.desk change deed.now
        → is_unmoved_on state.desk (effect state.desk change deed.now) change ≡ true → IsOk result }
{
    let State { mut desk, queue } = state;
    let before = mark_on(&desk, change);
    let orders = perform(&mut desk, alloc, change, deed)?;
    let queue = follow(queue, alloc, &desk, change, before)?;
    Ok(Outcome {
        state: State { desk, queue },
        orders,
    })
}

// What a fact comes to that is about no change, that no rule denies and that brings no settings.
fn take_fact(state: State, alloc: Global, fact: &Fact) -> Result<Outcome, AllocError>
    requires room { HasRoom state.queue }
    requires holds { IsNone (denial state (Other fact.now)) }
    requires brings { IsNone (brought (Other fact.now)) }
    ensures value { IfOk result (λ outcome. outcome ≡ machine.fact_done state fact.now) }
    ensures no_memory { DeskTakesNoMemory state.desk (Other fact.now) → QueueTakesNoMemory state (Other fact.now)
        → IsOk result }
{
    match fact {
        Fact::Role { person, role } => {
            let State { mut desk, queue } = state;
            desk.set_role(alloc, person, *role)?;
            Ok(quiet(State { desk, queue }, alloc))
        }
        Fact::Settings { .. } => unreachable!(),
        Fact::Base { commit } => Ok(quiet(move_base(state, alloc, *commit)?, alloc)),
        Fact::Staged { batch, commit } => Ok(quiet(stage(state, alloc, *batch, *commit), alloc)),
        Fact::Conflict { batch } => fail_ordered(state, alloc, *batch),
        Fact::Status {
            commit,
            name,
            state: said,
        } => take_status(state, alloc, *commit, name, *said),
        Fact::Refused { .. } => Ok(quiet(send_back(state, alloc, None)?, alloc)),
        Fact::Tick { now } => tick(state, alloc, now.seconds()),
    }
}

// Sets the base, on which what runs has to be tested anew, or has landed. What has landed isn't tried any longer.
fn move_base(state: State, alloc: Global, base: Commit) -> Result<State, AllocError>
    requires { HasRoom state.queue }
    ensures value { IfOk result (λ after. after ≡ machine.rebased base state) }
    ensures no_memory { is_none state.queue.staging.running ≡ true → IsOk result }
{
    let lands = lands_with(&state.queue.staging, base);
    let State { mut desk, queue } = send_back(state, alloc, Some(base))?;
    let queue = leave_tries(queue, &desk, lands)?;
    desk.set_base(base);
    Ok(State { desk, queue })
}

// Whether the running batch is to land with this commit.
fn lands_with(lane: &Lane, commit: Commit) -> bool
    ensures { result ≡ machine.lands_with commit lane.now }
{
    match &lane.running {
        Some(batch) => is_landing_with(&batch.stage, commit),
        None => false,
    }
}

fn is_landing_with(stage: &Stage, commit: Commit) -> bool
    ensures { result ≡ machine.is_landing_with commit stage.now }
{
    match stage {
        Stage::Landing { commit: landing } => commit == *landing,
        Stage::Waiting | Stage::Ordered { .. } | Stage::Staged { .. } => false,
    }
}

// Takes out what isn't tried any longer, if a batch has landed.
fn leave_tries(queue: Queue, desk: &Desk, has_landed: bool) -> Result<Queue, AllocError>
    requires { HasRoomFor 1 queue }
    ensures value { IfOk result (λ after. after ≡ machine.tries_left has_landed desk.now queue) }
    ensures no_memory { has_landed ≡ false → IsOk result }
{
    if has_landed {
        queue.take_out(Branch::Trying, &Tried { desk })
    } else {
        Ok(queue)
    }
}

// The branch on which the host was ordered to stage the batch of this number.
fn ordered_on(queue: &Queue, number: u64) -> Branch
    ensures { result ≡ machine.ordered_on number queue.now }
{
    if has_ordered(&queue.staging, number) {
        Branch::Staging
    } else {
        Branch::Trying
    }
}

// The host has made the staging commit of the batch that it was ordered to stage.
fn stage(state: State, alloc: Global, number: u64, commit: Commit) -> State
    ensures { result ≡ machine.with_queue state
        (staged (machine.ordered_on number state.queue) state.desk.clock commit state.queue) }
{
    let State { desk, queue } = state;
    let branch = ordered_on(&queue, number);
    let queue = queue.stage(alloc, branch, desk.clock(), commit);
    State { desk, queue }
}

// The host can't merge the changes of the batch that it was ordered to stage.
fn fail_ordered(state: State, alloc: Global, number: u64) -> Result<Outcome, AllocError>
    requires { HasRoom state.queue }
    ensures { IfOk result
        (λ outcome. outcome ≡ machine.failing (machine.ordered_on number state.queue) why.Conflict state) }
{
    let branch = ordered_on(&state.queue, number);
    fail(branch, state, alloc, Why::Conflict)
}
