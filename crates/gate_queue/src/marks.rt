ghost use Rattle.std.specs.Prelude.{◌≡◌, ◌&&◌, not, true, IfOk, IsOk};
ghost use Rattle.std.proofs.Math.Bool.{beq};
ghost use Rattle.std.specs.Ordering.{int_eq};
ghost use Rattle.gate_queue.specs.Machine as machine;
ghost use Rattle.gate_state.specs.State.{approved_on, priority_on, trying_on};
ghost use Rattle.gate_queue.specs.Machine.{followed, needs_no_move, tried_by};
ghost use Rattle.gate_state.specs.Queue as queue_specs;
ghost use Rattle.gate_state.specs.declared.batch.Branch.TheVariants.{Staging};
ghost use Rattle.gate_state.specs.Room.{HasRoom, HasRoomFor};

use gate_rules::Desk;
use gate_state::{AllBut, Branch, Queue};
use gate_text::ChangeNo;
use std::alloc::{AllocError, Global};

/// What the queue sees of a change.
#[derive(Clone, Copy)]
pub struct Mark {
    /// Whether it is approved.
    pub approved: bool,
    /// Its priority.
    pub priority: i32,
    /// Whether it is tried.
    pub trying: bool,
}

/// What the queue sees of this change; one that isn't on the desk is neither approved nor tried.
pub fn mark_on(desk: &Desk, change: ChangeNo) -> Mark
    ensures approved { result.approved ≡ approved_on desk.now change }
    ensures priority { result.priority ≡ priority_on desk.now change }
    ensures trying { result.trying ≡ trying_on desk.now change }
{
    match desk.change(change) {
        Some(change) => Mark {
            approved: change.approved.is_some(),
            priority: change.priority,
            trying: change.trying,
        },
        None => Mark {
            approved: false,
            priority: 0,
            trying: false,
        },
    }
}

// How many changes a new batch may have, if the settings say.
fn size_on(desk: &Desk) -> Option<u32>
    ensures { result ≡ machine.size_on desk.now }
{
    desk.settings()?.max_batch_size()
}

/// Lets the queue follow what an act did to a change. `AllocError` if there is no memory for it.
pub fn follow(
    queue: Queue,
    alloc: Global,
    desk: &Desk,
    change: ChangeNo,
    before: Mark,
) -> Result<Queue, AllocError>
    requires { HasRoom queue }
    ensures value { IfOk result
        (λ after. after ≡ tried_by before.trying (trying_on desk.now change) change
        (followed before.approved (approved_on desk.now change)
        (not (int_eq before.priority (priority_on desk.now change))) (machine.size_on desk.now)
        (priority_on desk.now change) change queue)) }
    ensures no_memory { (needs_no_move before.approved (approved_on desk.now change)
        (not (int_eq before.priority (priority_on desk.now change)))
        && beq before.trying (trying_on desk.now change)) ≡ true → IsOk result }
{
    let now = mark_on(desk, change);
    let queue = follow_approval(queue, alloc, desk, change, before, now)?;
    follow_try(queue, alloc, change, before.trying, now.trying)
}

// Queues what is approved now, takes out what no longer is, and queues anew what has another priority now.
fn follow_approval(
    queue: Queue,
    alloc: Global,
    desk: &Desk,
    change: ChangeNo,
    before: Mark,
    now: Mark,
) -> Result<Queue, AllocError>
    requires { HasRoom queue }
    ensures value { IfOk result
        (λ after. after ≡ followed before.approved now.approved (not (int_eq before.priority now.priority))
        (machine.size_on desk.now) now.priority change queue) }
    ensures room { IfOk result (λ after. HasRoomFor 1 after) }
    ensures no_memory { needs_no_move before.approved now.approved (not (int_eq before.priority now.priority)) ≡ true
        → IsOk result }
{
    if !before.approved {
        if now.approved {
            enqueue(queue, alloc, desk, change, now.priority)
        } else {
            Ok(queue)
        }
    } else if !now.approved {
        queue.take_out(Branch::Staging, &AllBut { change })
    } else if before.priority == now.priority {
        Ok(queue)
    } else {
        enqueue_anew(queue, alloc, desk, change, now.priority)
    }
}

// Queues a change under another priority.
fn enqueue_anew(
    queue: Queue,
    alloc: Global,
    desk: &Desk,
    change: ChangeNo,
    priority: i32,
) -> Result<Queue, AllocError>
    requires { HasRoom queue }
    ensures value { IfOk result
        (λ after. after ≡ queue_specs.enqueued (machine.size_on desk.now) priority change
        (queue_specs.taken_out Staging (machine.all_but change) queue)) }
    ensures room { IfOk result (λ after. HasRoomFor 1 after) }
{
    let queue = queue.take_out(Branch::Staging, &AllBut { change })?;
    enqueue(queue, alloc, desk, change, priority)
}

// Queues a change under its priority.
fn enqueue(
    queue: Queue,
    alloc: Global,
    desk: &Desk,
    change: ChangeNo,
    priority: i32,
) -> Result<Queue, AllocError>
    requires { HasRoomFor 2 queue }
    ensures value { IfOk result
        (λ after. after ≡ queue_specs.enqueued (machine.size_on desk.now) priority change queue) }
    ensures room { IfOk result (λ after. HasRoomFor 1 after) }
{
    queue.enqueue(alloc, change, priority, size_on(desk))
}

// Queues a change that is tried now as a try, and takes out one that no longer is.
fn follow_try(
    queue: Queue,
    alloc: Global,
    change: ChangeNo,
    was_trying: bool,
    is_trying: bool,
) -> Result<Queue, AllocError>
    requires { HasRoomFor 1 queue }
    ensures value { IfOk result (λ after. after ≡ tried_by was_trying is_trying change queue) }
    ensures no_memory { beq was_trying is_trying ≡ true → IsOk result }
{
    if was_trying == is_trying {
        Ok(queue)
    } else if is_trying {
        queue.enqueue_try(alloc, change)
    } else {
        queue.take_out(Branch::Trying, &AllBut { change })
    }
}
