ghost use Rattle.std.specs.Prelude.{◌≡◌, ◌+◌, ◌++◌, map, true, is_none, IfOk, IsOk, OnOk};
ghost use Rattle.std.specs.Option.{option_copied};
ghost use Rattle.gate_state.specs.Lanes as lanes;
ghost use Rattle.gate_state.specs.Queue as specs;
ghost use Rattle.gate_state.specs.Room.{HasRoomFor};

use crate::batch::{Batch, Branch, Report};
use crate::choice::Choice;
use crate::lane::Lane;
use gate_text::{ChangeNo, Commit, Context};
use std::alloc::{AllocError, Global};

/// The batches of both branches, and the number of the next batch.
#[derive(Drop)]
pub struct Queue {
    /// What is to land.
    pub staging: Lane,
    /// What people try.
    pub trying: Lane,
    /// The number that the next batch is given; all before it are used.
    pub next: u64,
}

impl Queue {
    /// A queue without batches. It takes no memory; its lists keep the allocator.
    pub fn new(alloc: Global, next: u64) -> Queue
        ensures value { result ≡ specs.empty_queue next }
    {
        Queue {
            staging: Lane::new(alloc),
            trying: Lane::new(alloc),
            next,
        }
    }

    // A copy, or `AllocError` if there is no memory for it.
    pub(crate) fn copy(&self, alloc: Global) -> Result<Queue, AllocError>
        ensures value { IfOk result (λ copy. copy ≡ self.now) }
    {
        Ok(Queue {
            staging: self.staging.copy(alloc)?,
            trying: self.trying.copy(alloc)?,
            next: self.next,
        })
    }

    /// The batches of a branch.
    pub fn lane(&self, branch: Branch) -> &Lane
        ensures value { result.now ≡ specs.lane_of branch self.now }
    {
        match branch {
            Branch::Staging => &self.staging,
            Branch::Trying => &self.trying,
        }
    }

    /// All batches, in order of service: those of `Staging` first, and of a branch the running batch first. `AllocError` if there
    /// is no memory for the list.
    pub fn batches(&self, alloc: Global) -> Result<Vec<&Batch>, AllocError>
        ensures value { IfOk result (λ batches. map (λ batch. batch.now) batches.items ≡ specs.batches_of self.now) }
    {
        let mut batches = Vec::new(alloc);
        push_batches(&mut batches, &self.staging)?;
        push_batches(&mut batches, &self.trying)?;
        Ok(batches)
    }

    /// The numbers of all batches, in order of service. `AllocError` if there is no memory for them.
    pub fn numbers(&self, alloc: Global) -> Result<Vec<u64>, AllocError>
        ensures value { IfOk result (λ numbers. numbers.items ≡ specs.numbers_of self.now) }
    {
        let batches = self.batches(alloc)?;
        let mut numbers = Vec::new(alloc);
        for batch in &batches {
            numbers.push(batch.number)?;
        }
        Ok(numbers)
    }

    /// The batch of this number, if there is one.
    pub fn batch(&self, number: u64) -> Option<&Batch>
        ensures value { option_copied result ≡ specs.batch_numbered number self.now }
    {
        match self.staging.batch(number) {
            Some(batch) => Some(batch),
            None => self.trying.batch(number),
        }
    }

    /// Queues a change of this priority on `Staging`, in a batch of `size` changes at most. `AllocError` if there is no memory
    /// for it.
    pub fn enqueue(
        self,
        alloc: Global,
        change: ChangeNo,
        priority: i32,
        size: Option<u32>,
    ) -> Result<Queue, AllocError>
        requires { HasRoomFor 1 self }
        ensures value { IfOk result (λ queue. queue ≡ specs.enqueued size priority change self) }
    {
        let Queue {
            staging,
            trying,
            next,
        } = self;
        let (staging, used) = staging.enqueue(alloc, next, priority, change, size)?;
        Ok(Queue {
            staging,
            trying,
            next: next + used,
        })
    }

    /// Queues a change as a batch of its own on `Trying`, of priority 0. `AllocError` if there is no memory for it.
    pub fn enqueue_try(self, alloc: Global, change: ChangeNo) -> Result<Queue, AllocError>
        requires { HasRoomFor 1 self }
        ensures value { IfOk result (λ queue. queue ≡ specs.tried change self) }
    {
        let Queue {
            staging,
            trying,
            next,
        } = self;
        let trying = trying.enqueue_try(alloc, next, change)?;
        Ok(Queue {
            staging,
            trying,
            next: next + 1,
        })
    }

    /// Lets only the chosen changes stay on a branch. `AllocError` if there is no memory for it.
    pub fn take_out<C: Choice>(self, branch: Branch, choice: &C) -> Result<Queue, AllocError>
        requires { HasRoomFor 1 self }
        ensures value { IfOk result (λ queue. queue ≡ specs.taken_out branch (λ change. C.chooses change choice.now) self) }
    {
        let next = self.next;
        let (lane, other) = lanes_of(self, branch);
        let (lane, used) = lane.take_out(next, choice)?;
        Ok(of_lanes(branch, lane, other, next + used))
    }

    /// Lets the running batch of a branch wait again, unless it is landing. `AllocError` if there is no memory for it; if no batch
    /// runs there, it takes none.
    pub fn restart(self, branch: Branch) -> Result<Queue, AllocError>
        requires { HasRoomFor 1 self }
        ensures value { IfOk result (λ queue. queue ≡ specs.restarted branch self) }
        ensures no_memory { is_none (specs.lane_of branch self).running ≡ true → IsOk result }
    {
        let next = self.next;
        let (lane, other) = lanes_of(self, branch);
        let (lane, used) = lane.restart(next)?;
        Ok(of_lanes(branch, lane, other, next + used))
    }

    /// Lets the chosen changes of the running batch of a branch wait again, whatever its stage; the others are no longer
    /// queued. `AllocError` if there is no memory for it; if no batch runs there, it takes none.
    pub fn requeue<C: Choice>(self, branch: Branch, choice: &C) -> Result<Queue, AllocError>
        requires { HasRoomFor 1 self }
        ensures value { IfOk result (λ queue. queue ≡ specs.requeued branch (λ change. C.chooses change choice.now) self) }
        ensures no_memory { is_none (specs.lane_of branch self).running ≡ true → IsOk result }
    {
        let next = self.next;
        let (lane, other) = lanes_of(self, branch);
        let (lane, used) = lane.requeue(next, choice)?;
        Ok(of_lanes(branch, lane, other, next + used))
    }

    /// Ends the running batch of a branch: one of several changes is split, another is dropped. `AllocError` if there is no
    /// memory for it.
    pub fn fail(self, alloc: Global, branch: Branch) -> Result<Queue, AllocError>
        requires { HasRoomFor 1 self }
        ensures value { IfOk result (λ queue. queue ≡ specs.failed branch self) }
    {
        let next = self.next;
        let (lane, other) = lanes_of(self, branch);
        let (lane, used) = lane.fail(alloc, next)?;
        Ok(of_lanes(branch, lane, other, next + used))
    }

    /// Lets the first waiting batch of a branch run, ordered at this reading of the clock, if none runs there.
    pub fn start(self, branch: Branch, now: u64) -> Queue
        ensures value { result ≡ specs.started branch now self }
    {
        let next = self.next;
        let (lane, other) = lanes_of(self, branch);
        of_lanes(branch, lane.start(now), other, next)
    }

    /// Has the running batch of a branch, if there is one, tested at this commit since this reading of the clock; nothing was
    /// reported yet. It takes no memory; the map of reports keeps the allocator.
    pub fn stage(self, alloc: Global, branch: Branch, now: u64, commit: Commit) -> Queue
        ensures value { result ≡ specs.staged branch now commit self }
    {
        let next = self.next;
        let (lane, other) = lanes_of(self, branch);
        of_lanes(branch, lane.stage(alloc, now, commit), other, next)
    }

    /// Keeps a report of the running batch of a branch, if that is tested, in place of the last one of this name. `AllocError` if
    /// there is no memory for it.
    pub fn report(self, branch: Branch, name: Context, report: Report) -> Result<Queue, AllocError>
        ensures value { IfOk result (λ queue. queue ≡ specs.reported branch name report self) }
    {
        let next = self.next;
        let (lane, other) = lanes_of(self, branch);
        let lane = lane.report(name, report)?;
        Ok(of_lanes(branch, lane, other, next))
    }

    /// Has the running batch of a branch, if it is tested, land with the commit that is tested. It takes no memory.
    pub fn land(self, branch: Branch) -> Queue
        ensures value { result ≡ specs.landing branch self }
    {
        let next = self.next;
        let (lane, other) = lanes_of(self, branch);
        of_lanes(branch, lane.land(), other, next)
    }

    /// Drops the running batch of a branch.
    pub fn drop_running(self, branch: Branch) -> Queue
        ensures value { result ≡ specs.dropped branch self }
    {
        let next = self.next;
        let (lane, other) = lanes_of(self, branch);
        of_lanes(branch, lane.drop_running(), other, next)
    }
}

// The lane of a branch, and that of the other.
fn lanes_of(queue: Queue, branch: Branch) -> (Lane, Lane)
    ensures lane { result.0 ≡ specs.lane_of branch queue }
    ensures other { result.1 ≡ specs.other_lane branch queue }
{
    let Queue {
        staging,
        trying,
        next: _next,
    } = queue;
    match branch {
        Branch::Staging => (staging, trying),
        Branch::Trying => (trying, staging),
    }
}

// The queue of the lane of a branch and that of the other.
fn of_lanes(branch: Branch, lane: Lane, other: Lane, next: u64) -> Queue
    ensures { result ≡ specs.of_lanes branch lane other next }
{
    let (staging, trying) = match branch {
        Branch::Staging => (lane, other),
        Branch::Trying => (other, lane),
    };
    Queue {
        staging,
        trying,
        next,
    }
}

// Adds the batches of a branch, in order of service.
fn push_batches<'a>(batches: &mut Vec<&'a Batch>, lane: &'a Lane) -> Result<(), AllocError>
    ensures { OnOk result (map (λ batch. batch.now) batches.new.items
        ≡ map (λ batch. batch.now) batches.old.items ++ lanes.batches_of lane.now) }
{
    if let Some(batch) = &lane.running {
        batches.push(batch)?;
    }
    for batch in lane.waiting.as_slice() {
        batches.push(batch)?;
    }
    Ok(())
}
