ghost use Rattle.std.specs.Prelude.{◌≡◌, true, false, is_none, IfOk, IfSome, IsOk};
ghost use Rattle.std.specs.List.{list_all};
ghost use Rattle.gate_rules.specs.View.{is_open_head, is_required};
ghost use Rattle.gate_state.specs.Lanes.{has_succeeded};
ghost use Rattle.gate_state.specs.Queue as queue_specs;
ghost use Rattle.gate_state.specs.declared.batch.Branch.TheVariants.{Staging};
ghost use Rattle.gate_queue.specs.Machine as machine;
ghost use Rattle.gate_state.specs.Room.{HasRoom, HasRoomToEnd};

use crate::changing;
use crate::changing::{no_orders, one_notice, one_order, tell_heads};
use crate::judging::has_staged;
use crate::outcome::{Outcome, quiet, with_first};
use gate_rules::Desk;
use gate_state::{
    Approved, Batch, Branch, Order, Orders, Queue, Report, Reports, Stage, State, StatusState, Why,
};
use gate_text::{ChangeNo, Commit, Context};
use std::alloc::{AllocError, Global};

// The change of a batch that has no other.
fn lone(running: &Option<Batch>) -> Option<ChangeNo>
    ensures { result ≡ machine.lone running.now }
{
    match running {
        Some(batch) if !batch.has_several() => batch.changes.as_slice().first().copied(),
        _ => None,
    }
}

// Ends the running batch of a branch. On `Staging` one of several changes is split, and another is dropped; a try is dropped. The
// change of a batch that has no other is no longer approved then, or tried, and this is why.
fn end(branch: Branch, state: State, alloc: Global, why: Why) -> Result<Outcome, AllocError>
    requires { HasRoomToEnd branch state.queue }
    ensures { IfOk result (λ outcome. outcome ≡ machine.ending branch why state) }
{
    let State { mut desk, queue } = state;
    let orders = match lone(&queue.lane(branch).running) {
        Some(change) => {
            give_up(&mut desk, branch, change);
            one_notice(alloc, change, why)?
        }
        None => no_orders(alloc),
    };
    let queue = without_running(queue, alloc, branch)?;
    Ok(Outcome {
        state: State { desk, queue },
        orders,
    })
}

// Ends what a change was in its batch for.
fn give_up(desk: &mut Desk, branch: Branch, change: ChangeNo)
    ensures { desk.new ≡ machine.altered desk.old change (machine.given_up branch) }
{
    match branch {
        Branch::Staging => changing::withdraw(desk, change),
        Branch::Trying => changing::stop_trying(desk, change),
    }
}

fn without_running(queue: Queue, alloc: Global, branch: Branch) -> Result<Queue, AllocError>
    requires { HasRoomToEnd branch queue }
    ensures { IfOk result (λ after. after ≡ machine.without_running branch queue) }
{
    match branch {
        Branch::Staging => queue.fail(alloc, Branch::Staging),
        Branch::Trying => Ok(queue.drop_running(Branch::Trying)),
    }
}

/// Ends the running batch of a branch, which has failed by this cause. Of a try the notice says no more than that. `AllocError` if
/// there is no memory for it.
pub fn fail(branch: Branch, state: State, alloc: Global, cause: Why) -> Result<Outcome, AllocError>
    requires { HasRoomToEnd branch state.queue }
    ensures { IfOk result (λ outcome. outcome ≡ machine.failing branch cause state) }
{
    end(branch, state, alloc, told_as(branch, cause))
}

fn told_as(branch: Branch, cause: Why) -> Why
    ensures { result ≡ machine.told_as branch cause }
{
    match branch {
        Branch::Staging => cause,
        Branch::Trying => Why::TryFailed,
    }
}

/// Takes what a status of a commit says. The open changes whose head that is are told of it first. Then it goes to the running
/// batches that were staged with this commit, that on `Staging` before that on `Trying`. One that isn't required does nothing
/// there. One that has failed ends the batch. Another is kept, and if all required ones have succeeded then, the batch is to
/// land, or the try has passed. `AllocError` if there is no memory for it.
pub fn take_status(
    state: State,
    alloc: Global,
    commit: Commit,
    name: &Context,
    said: StatusState,
) -> Result<Outcome, AllocError>
    requires { HasRoom state.queue }
    ensures value { IfOk result
        (λ outcome. outcome ≡ machine.told commit name.now said (machine.heads_told commit name.now said state)) }
    ensures no_memory { is_required state.desk.settings name.now ≡ false → is_open_head commit state.desk ≡ false
        → IsOk result }
{
    let State { mut desk, queue } = state;
    tell_heads(&mut desk, alloc, commit, name, is_good(said))?;
    tell_batches(State { desk, queue }, alloc, commit, name, said)
}

fn is_good(said: StatusState) -> bool
    ensures { result ≡ machine.is_good said }
{
    match said {
        StatusState::Success => true,
        StatusState::Failure | StatusState::Error | StatusState::Pending => false,
    }
}

// Takes a status of the commit of a batch that is tested.
fn tell_batches(
    state: State,
    alloc: Global,
    commit: Commit,
    name: &Context,
    said: StatusState,
) -> Result<Outcome, AllocError>
    requires { HasRoom state.queue }
    ensures value { IfOk result (λ outcome. outcome ≡ machine.told commit name.now said state) }
    ensures no_memory { is_required state.desk.settings name.now ≡ false → IsOk result }
{
    if state.desk.is_required(name) {
        tell_both(state, alloc, commit, name, said)
    } else {
        Ok(quiet(state, alloc))
    }
}

// Takes what a required status says, for both branches.
fn tell_both(
    state: State,
    alloc: Global,
    commit: Commit,
    name: &Context,
    said: StatusState,
) -> Result<Outcome, AllocError>
    requires { HasRoom state.queue }
    ensures { IfOk result (λ outcome. outcome ≡ machine.on_both (machine.told_on commit name.now said) state) }
{
    let first = tell_on(Branch::Staging, state, alloc, commit, name, said)?;
    let next = tell_on(Branch::Trying, first.state, alloc, commit, name, said)?;
    with_first(first.orders, next)
}

// Takes what a status says for the running batch of a branch, if that was staged with its commit.
fn tell_on(
    branch: Branch,
    state: State,
    alloc: Global,
    commit: Commit,
    name: &Context,
    said: StatusState,
) -> Result<Outcome, AllocError>
    requires { HasRoomToEnd branch state.queue }
    ensures { IfOk result (λ outcome. outcome ≡ machine.told_on commit name.now said branch state) }
{
    if !has_staged(state.queue.lane(branch), commit) {
        return Ok(quiet(state, alloc));
    }
    match said {
        StatusState::Success => keep_report(branch, state, alloc, name, Report::Success),
        StatusState::Pending => keep_report(branch, state, alloc, name, Report::Pending),
        StatusState::Failure | StatusState::Error => {
            fail(branch, state, alloc, Why::Failed(name.copy(alloc)?))
        }
    }
}

// Keeps a report of the running batch of a branch, which lands or ends if all required statuses have succeeded then.
fn keep_report(
    branch: Branch,
    state: State,
    alloc: Global,
    name: &Context,
    report: Report,
) -> Result<Outcome, AllocError>
    ensures { IfOk result (λ outcome. outcome ≡ machine.goes_on branch name.now report state) }
{
    let State { desk, queue } = state;
    let queue = queue.report(branch, name.copy(alloc)?, report)?;
    if_passed(branch, State { desk, queue }, alloc)
}

// Whether all required statuses have succeeded.
fn has_passed(desk: &Desk, stage: &Stage) -> bool
    ensures { result ≡ machine.has_passed desk.now.settings stage.now }
{
    let Stage::Staged { reports, .. } = stage else {
        return false;
    };
    match desk.settings() {
        Some(settings) => have_succeeded(reports, settings.status()),
        None => false,
    }
}

// Whether the last report of each of these names is a success.
fn have_succeeded(reports: &Reports, names: &[Context]) -> bool
    ensures { result ≡ list_all (has_succeeded reports.now) names.now }
{
    for name in names {
        if !reports.has_succeeded(name) {
            return false;
        }
    }
    true
}

// Has the running batch of a branch land, or ends it as a try that has passed, if all required statuses have succeeded.
fn if_passed(branch: Branch, state: State, alloc: Global) -> Result<Outcome, AllocError>
    ensures { IfOk result
        (λ outcome. outcome ≡ machine.if_passed branch state (queue_specs.lane_of branch state.queue).running) }
{
    match &state.queue.lane(branch).running {
        Some(batch) if has_passed(&state.desk, &batch.stage) => match branch {
            Branch::Staging => {
                let orders = land_orders(&state.desk, alloc, batch)?;
                Ok(Outcome {
                    state: to_land(state),
                    orders,
                })
            }
            Branch::Trying => end(Branch::Trying, state, alloc, Why::TryPassed),
        },
        _ => Ok(quiet(state, alloc)),
    }
}

// The order to land a batch that is tested.
fn land_orders(desk: &Desk, alloc: Global, batch: &Batch) -> Result<Orders, AllocError>
    ensures { IfOk result (λ orders. orders ≡ machine.land_order desk.now batch.now.number batch.now.stage) }
{
    let Stage::Staged { commit, .. } = &batch.stage else {
        return Ok(no_orders(alloc));
    };
    let Some(base) = desk.base() else {
        return Ok(no_orders(alloc));
    };
    let order = Order::Land {
        batch: batch.number,
        base,
        commit: *commit,
    };
    one_order(alloc, order)
}

// Has the running batch on `Staging` land.
fn to_land(state: State) -> State
    ensures { IfSome state.queue.staging.running (λ batch. result ≡ (machine.to_land batch state).state) }
{
    let State { mut desk, queue } = state;
    if let Some(batch) = &queue.staging.running {
        changing::mark_landing(&mut desk, batch.changes.as_slice());
    }
    let queue = queue.land(Branch::Staging);
    State { desk, queue }
}

/// Lets the running batch on `Staging` wait again with those of its changes that are approved. If it is landing, its changes no
/// longer are: they have landed if this is the new base and the commit that was to land. `AllocError` if there is no memory for
/// it; if no batch runs, it takes none.
pub fn send_back(state: State, alloc: Global, base: Option<Commit>) -> Result<State, AllocError>
    requires { HasRoom state.queue }
    ensures value { IfOk result (λ after. after ≡ machine.sent_back base state) }
    ensures no_memory { is_none state.queue.staging.running ≡ true → IsOk result }
{
    let State { mut desk, queue } = state;
    release(&mut desk, alloc, &queue.staging.running, base);
    let queue = queue.requeue(Branch::Staging, &Approved { desk: &desk })?;
    Ok(State { desk, queue })
}

// Ends that the changes of a batch are landing, if it was.
fn release(desk: &mut Desk, alloc: Global, running: &Option<Batch>, base: Option<Commit>)
    ensures { desk.new ≡ machine.released_on base desk.old running.now }
{
    let Some(batch) = running else {
        return;
    };
    if let Stage::Landing { commit } = &batch.stage {
        changing::release(desk, alloc, batch.changes.as_slice(), *commit, base);
    }
}
