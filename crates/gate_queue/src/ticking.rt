ghost use Rattle.std.specs.Prelude.{◌≡◌, ◌≤◌, [], false, Ok, IfOk, IsOk};
ghost use Rattle.std.specs.List.{filter_map};
ghost use Rattle.gate_rules.specs.View.{with_clock};
ghost use Rattle.gate_queue.specs.Machine as machine;
ghost use Rattle.gate_queue.specs.Machine.{IsIdle};
ghost use Rattle.gate_state.specs.Queue.{lane_of};
ghost use Rattle.gate_state.specs.Room.{HasRoom, HasRoomToEnd};

use crate::changing::{no_orders, one_order};
use crate::outcome::{Outcome, quiet, with_first};
use crate::running::fail;
use gate_rules::Desk;
use gate_state::{Batch, Branch, Head, Heads, Lane, Order, Orders, Stage, State, Why};
use gate_text::ChangeNo;
use std::alloc::{AllocError, Global};

/// Sets the clock; on each branch, ends the running batch if it has taken too long; and then, on each branch, orders the first
/// waiting batch, if none runs. `AllocError` if there is no memory for it.
pub fn tick(state: State, alloc: Global, now: u64) -> Result<Outcome, AllocError>
    requires clock { state.desk.clock ≤ now }
    requires room { HasRoom state.queue }
    ensures value { IfOk result
        (λ outcome. outcome ≡ machine.then_next (machine.on_both (machine.timed_out now)
        (machine.with_desk state (with_clock state.desk now))) (machine.on_both (machine.starting now))) }
    ensures no_memory { IsIdle now state.desk state.queue.staging → IsIdle now state.desk state.queue.trying
        → IsOk result }
{
    let State { mut desk, queue } = state;
    desk.set_clock(now);
    let ended = end_on_time(State { desk, queue }, alloc, now)?;
    let started = start_all(ended.state, alloc, now)?;
    with_first(ended.orders, started)
}

// Ends the running batch of each branch, if it has taken too long.
fn end_on_time(state: State, alloc: Global, now: u64) -> Result<Outcome, AllocError>
    requires { HasRoom state.queue }
    ensures value { IfOk result (λ outcome. outcome ≡ machine.on_both (machine.timed_out now) state) }
    ensures no_memory { machine.has_overdue now state.desk.settings state.queue.staging ≡ false
        → machine.has_overdue now state.desk.settings state.queue.trying ≡ false → result ≡ Ok (machine.quiet state) }
{
    let first = time_out(Branch::Staging, state, alloc, now)?;
    let next = time_out(Branch::Trying, first.state, alloc, now)?;
    with_first(first.orders, next)
}

// Ends the running batch of a branch, if it has taken too long.
fn time_out(branch: Branch, state: State, alloc: Global, now: u64) -> Result<Outcome, AllocError>
    requires { HasRoomToEnd branch state.queue }
    ensures value { IfOk result (λ outcome. outcome ≡ machine.timed_out now branch state) }
    ensures no_memory { machine.has_overdue now state.desk.settings (lane_of branch state.queue) ≡ false
        → result ≡ Ok (machine.quiet state) }
{
    if has_overdue(&state.desk, now, state.queue.lane(branch)) {
        fail(branch, state, alloc, Why::TimedOut)
    } else {
        Ok(quiet(state, alloc))
    }
}

// Whether the running batch of a branch has taken too long.
fn has_overdue(desk: &Desk, now: u64, lane: &Lane) -> bool
    ensures { result ≡ machine.has_overdue now desk.now.settings lane.now }
{
    match &lane.running {
        Some(batch) => is_overdue(desk, now, &batch.stage),
        None => false,
    }
}

// Whether a batch was ordered or staged as long ago as the settings allow, or longer.
fn is_overdue(desk: &Desk, now: u64, stage: &Stage) -> bool
    ensures { result ≡ machine.is_overdue desk.now.settings now stage.now }
{
    let (Stage::Ordered { since } | Stage::Staged { since, .. }) = stage else {
        return false;
    };
    match desk.settings() {
        Some(settings) => now.saturating_sub(*since) >= u64::from(settings.timeout_sec()),
        None => false,
    }
}

// Orders the first waiting batch of each branch, if none runs there.
fn start_all(state: State, alloc: Global, now: u64) -> Result<Outcome, AllocError>
    ensures value { IfOk result (λ outcome. outcome ≡ machine.on_both (machine.starting now) state) }
    ensures no_memory { machine.stage_orders state.desk state.queue.staging ≡ []
        → machine.stage_orders state.desk state.queue.trying ≡ [] → IsOk result }
{
    let first = start(Branch::Staging, state, alloc, now)?;
    let next = start(Branch::Trying, first.state, alloc, now)?;
    with_first(first.orders, next)
}

// Orders the first waiting batch of a branch, if none runs there.
fn start(branch: Branch, state: State, alloc: Global, now: u64) -> Result<Outcome, AllocError>
    ensures value { IfOk result (λ outcome. outcome ≡ machine.starting now branch state) }
    ensures no_memory { machine.stage_orders state.desk (lane_of branch state.queue) ≡ [] → IsOk result }
{
    let State { desk, queue } = state;
    let orders = stage_orders(&desk, alloc, queue.lane(branch))?;
    let queue = queue.start(branch, now);
    Ok(Outcome {
        state: State { desk, queue },
        orders,
    })
}

// The order to stage the first waiting batch, if none runs.
fn stage_orders(desk: &Desk, alloc: Global, lane: &Lane) -> Result<Orders, AllocError>
    ensures orders { IfOk result (λ orders. orders ≡ machine.stage_orders desk.now lane.now) }
    ensures no_memory { machine.stage_orders desk.now lane.now ≡ [] → IsOk result }
{
    if lane.running.is_some() {
        return Ok(no_orders(alloc));
    }
    match lane.waiting.as_slice().first() {
        Some(batch) => stage_order(desk, alloc, batch),
        None => Ok(no_orders(alloc)),
    }
}

fn stage_order(desk: &Desk, alloc: Global, batch: &Batch) -> Result<Orders, AllocError>
    ensures orders { IfOk result (λ orders. orders ≡ machine.stage_order desk.now batch.now) }
    ensures no_memory { machine.stage_order desk.now batch.now ≡ [] → IsOk result }
{
    let Some(base) = desk.base() else {
        return Ok(no_orders(alloc));
    };
    let heads = heads_on(desk, alloc, batch.changes.as_slice())?;
    let order = Order::Stage {
        batch: batch.number,
        branch: batch.branch,
        base,
        heads,
    };
    one_order(alloc, order)
}

// The known ones of these changes, with their heads.
fn heads_on(desk: &Desk, alloc: Global, changes: &[ChangeNo]) -> Result<Heads, AllocError>
    ensures { IfOk result (λ heads. heads ≡ filter_map (machine.head_on desk.now) changes.now) }
{
    let mut heads = Vec::new(alloc);
    for change in changes {
        if let Some(head) = head_on(desk, *change) {
            heads.push(head)?;
        }
    }
    Ok(Heads::from(heads))
}

// A change with its head, if it is known.
fn head_on(desk: &Desk, change: ChangeNo) -> Option<Head>
    ensures { result ≡ machine.head_on desk.now change }
{
    let head = desk.change(change)?.head;
    Some(Head { change, head })
}
