ghost use Rattle.std.specs.Prelude.{◌≡◌, ◌==◌, ◌<◌, true, None, Some, is_none, IfOk, IsOk, OnOk};
ghost use Rattle.std.specs.List.{find};
ghost use Rattle.std.specs.Option.{option_copied};
ghost use Rattle.gate_state.specs.Lanes as lanes;

use crate::batch::{Batch, Report, Reports, Stage};
use crate::choice::Choice;
use crate::waiting::{
    MAX_NEXT, enter, enter_alone, has_all, keep, last_fresh, last_fresh_beside, leave, put_back,
    split_into,
};
use gate_text::{ChangeNo, Commit, Context, List, TryCopy};
use std::alloc::{AllocError, Global};

/// Batches in order of service. A contract sees them as the list of the batches.
pub type Batches = List<Batch>;

/// The batches of one branch.
#[derive(Drop)]
pub struct Lane {
    /// The batch that is tested or lands, if there is one.
    pub running: Option<Batch>,
    /// The others, in order of service.
    pub waiting: Batches,
}

impl Lane {
    /// A lane without batches. It takes no memory; its list keeps the allocator.
    pub fn new(alloc: Global) -> Lane
        ensures value { result ≡ lanes.empty_lane }
    {
        Lane {
            running: None,
            waiting: Batches::from(Vec::new(alloc)),
        }
    }

    // A copy, or `AllocError` if there is no memory for it.
    pub(crate) fn copy(&self, alloc: Global) -> Result<Lane, AllocError>
        ensures value { IfOk result (λ copy. copy ≡ self.now) }
    {
        let running = match &self.running {
            Some(batch) => Some(batch.try_copy(alloc)?),
            None => None,
        };
        Ok(Lane {
            running,
            waiting: self.waiting.copy(alloc)?,
        })
    }

    /// The batch of this number, if it is on this branch.
    pub fn batch(&self, number: u64) -> Option<&Batch>
        ensures value { option_copied result ≡ lanes.batch_numbered number self.now }
    {
        if let Some(batch) = &self.running {
            if batch.number == number {
                return Some(batch);
            }
        }
        numbered(self.waiting.as_slice(), number)
    }

    /// The last fresh batch of a priority that waits, which a change of it joins if there is room.
    pub fn last_fresh(&self, priority: i32) -> Option<&Batch>
        ensures value { option_copied result ≡ lanes.last_so (lanes.is_fresh_of priority) self.now.waiting }
    {
        let waiting = self.waiting.as_slice();
        let place = last_fresh(waiting, priority)?;
        Some(&waiting[place])
    }

    /// The last one of these that has other changes than this one, which the change joins if it leaves a batch of its own.
    pub fn last_fresh_beside(&self, priority: i32, change: ChangeNo) -> Option<&Batch>
        ensures value { option_copied result ≡ lanes.last_so (lanes.is_fresh_beside priority change) self.now.waiting }
    {
        let waiting = self.waiting.as_slice();
        let place = last_fresh_beside(waiting, priority, change)?;
        Some(&waiting[place])
    }

    /// Queues a change: it joins the last fresh batch of its priority, if that has fewer changes than `size`, or is a batch of
    /// its own, under `number`. With it comes how many numbers were used. `AllocError` if there is no memory for it.
    pub fn enqueue(
        self,
        alloc: Global,
        number: u64,
        priority: i32,
        change: ChangeNo,
        size: Option<u32>,
    ) -> Result<(Lane, u64), AllocError>
        ensures lane { IfOk result (λ done. done.0 ≡ lanes.enqueued size number priority change self) }
        ensures uses { IfOk result (λ done. done.1 ≡ lanes.enqueue_uses size priority self) }
    {
        let Lane { running, waiting } = self;
        let mut waiting = waiting.into_vec();
        let used = enter(&mut waiting, alloc, number, priority, change, size)?;
        let waiting = Batches::from(waiting);
        Ok((Lane { running, waiting }, used))
    }

    /// Queues a change as a batch of its own on `Trying`, under `number`. `AllocError` if there is no memory for it.
    pub fn enqueue_try(
        self,
        alloc: Global,
        number: u64,
        change: ChangeNo,
    ) -> Result<Lane, AllocError>
        ensures value { IfOk result (λ lane. lane ≡ lanes.tried number change self) }
    {
        let Lane { running, waiting } = self;
        let mut waiting = waiting.into_vec();
        enter_alone(&mut waiting, alloc, number, change)?;
        let waiting = Batches::from(waiting);
        Ok(Lane { running, waiting })
    }

    /// Lets only the chosen changes stay. A waiting batch keeps its number, and one that is left empty is dropped. A running
    /// batch that loses a change waits again with the others, under `number`, unless it is landing. With it comes how many
    /// numbers were used. `AllocError` if there is no memory for it.
    pub fn take_out<C: Choice>(self, number: u64, choice: &C) -> Result<(Lane, u64), AllocError>
        ensures lane { IfOk result (λ done. done.0 ≡ lanes.taken_out (λ change. C.chooses change choice.now) number self) }
        ensures uses { IfOk result (λ done. done.1 ≡ lanes.taken_out_uses (λ change. C.chooses change choice.now) self) }
    {
        let Lane { running, waiting } = self;
        let mut waiting = waiting.into_vec();
        leave(&mut waiting, choice);
        match running {
            Some(batch) => take_from_running(batch, waiting, number, choice),
            None => Ok((waiting_only(waiting), 0)),
        }
    }

    /// Lets the running batch wait again, under `number`, unless it is landing. With it comes how many numbers were used.
    /// `AllocError` if there is no memory for it; if no batch runs, it takes none.
    pub fn restart(self, number: u64) -> Result<(Lane, u64), AllocError>
        ensures lane { IfOk result (λ done. done.0 ≡ lanes.restarted number self) }
        ensures uses { IfOk result (λ done. done.1 ≡ lanes.restarted_uses self) }
        ensures no_memory { is_none self.running ≡ true → IsOk result }
    {
        let Lane { running, waiting } = self;
        let mut waiting = waiting.into_vec();
        let Some(batch) = running else {
            return Ok((waiting_only(waiting), 0));
        };
        if batch.is_landing() {
            return Ok((running_before(batch, waiting), 0));
        }
        let used = put_back(&mut waiting, number, batch)?;
        Ok((waiting_only(waiting), used))
    }

    /// Lets the chosen changes of the running batch, whatever its stage, wait again as a batch, under `number`; the others are
    /// no longer queued. With it comes how many numbers were used. `AllocError` if there is no memory for it; if no batch runs,
    /// it takes none.
    pub fn requeue<C: Choice>(self, number: u64, choice: &C) -> Result<(Lane, u64), AllocError>
        ensures lane { IfOk result (λ done. done.0 ≡ lanes.requeued (λ change. C.chooses change choice.now) number self) }
        ensures uses { IfOk result (λ done. done.1 ≡ lanes.requeued_uses (λ change. C.chooses change choice.now) self) }
        ensures no_memory { is_none self.running ≡ true → IsOk result }
    {
        let Lane { running, waiting } = self;
        let mut waiting = waiting.into_vec();
        let Some(mut rest) = running else {
            return Ok((waiting_only(waiting), 0));
        };
        keep(&mut rest, choice);
        let used = put_back(&mut waiting, number, rest)?;
        Ok((waiting_only(waiting), used))
    }

    /// Ends the running batch: one of several changes is split, and its halves wait again, under `number` and the next one;
    /// another is dropped. With it comes how many numbers were used. `AllocError` if there is no memory for it.
    pub fn fail(self, alloc: Global, number: u64) -> Result<(Lane, u64), AllocError>
        requires { number < MAX_NEXT }
        ensures lane { IfOk result (λ done. done.0 ≡ lanes.failed number self) }
        ensures uses { IfOk result (λ done. done.1 ≡ lanes.failed_uses self) }
    {
        let Lane { running, waiting } = self;
        let mut waiting = waiting.into_vec();
        let Some(batch) = running else {
            return Ok((waiting_only(waiting), 0));
        };
        if !batch.has_several() {
            return Ok((waiting_only(waiting), 0));
        }
        split_into(&mut waiting, alloc, number, &batch)?;
        Ok((waiting_only(waiting), 2))
    }

    /// Lets the first waiting batch run, ordered at this reading of the clock, if no batch runs. It takes no memory.
    pub fn start(self, now: u64) -> Lane
        ensures value { result ≡ lanes.started now self }
    {
        let Lane { running, waiting } = self;
        let waiting = waiting.into_vec();
        match running {
            Some(batch) => running_before(batch, waiting),
            None => first_started(waiting, now),
        }
    }

    /// Has the running batch, if there is one, tested at this commit since this reading of the clock; nothing was reported yet.
    /// It takes no memory; the map of reports keeps the allocator.
    pub fn stage(self, alloc: Global, now: u64, commit: Commit) -> Lane
        ensures value { result ≡ lanes.staged now commit self }
    {
        let Lane { running, waiting } = self;
        let running = match running {
            Some(batch) => Some(staged_at(batch, alloc, now, commit)),
            None => None,
        };
        Lane { running, waiting }
    }

    /// Keeps a report of the running batch, if that is tested, in place of the last one of this name. `AllocError` if there is
    /// no memory for it.
    pub fn report(self, name: Context, report: Report) -> Result<Lane, AllocError>
        ensures value { IfOk result (λ lane. lane ≡ lanes.reported name report self) }
    {
        let Lane { running, waiting } = self;
        let running = match running {
            Some(mut batch) => {
                keep_report(&mut batch.stage, name, report)?;
                Some(batch)
            }
            None => None,
        };
        Ok(Lane { running, waiting })
    }

    /// Has the running batch, if it is tested, land with the commit that is tested. It takes no memory.
    pub fn land(self) -> Lane
        ensures value { result ≡ lanes.landing self }
    {
        let Lane { running, waiting } = self;
        let running = match running {
            Some(batch) => Some(to_land(batch)),
            None => None,
        };
        Lane { running, waiting }
    }

    /// Drops the running batch.
    pub fn drop_running(self) -> Lane
        ensures value { result ≡ lanes.dropped self }
    {
        waiting_only(self.waiting.into_vec())
    }
}

fn staged_at(mut batch: Batch, alloc: Global, now: u64, commit: Commit) -> Batch
    ensures { result ≡ lanes.staged_at now commit batch }
{
    batch.stage = Stage::Staged {
        since: now,
        commit,
        reports: Reports::new(alloc),
    };
    batch
}

fn keep_report(stage: &mut Stage, name: Context, report: Report) -> Result<(), AllocError>
    ensures { OnOk result (stage.new ≡ lanes.with_report name report stage.old) }
{
    match stage {
        Stage::Staged { reports, .. } => reports.keep(name, report),
        Stage::Waiting | Stage::Ordered { .. } | Stage::Landing { .. } => Ok(()),
    }
}

fn to_land(mut batch: Batch) -> Batch
    ensures { result ≡ lanes.to_land batch }
{
    if let Stage::Staged { commit, .. } = &batch.stage {
        batch.stage = Stage::Landing { commit: *commit };
    }
    batch
}

fn numbered(batches: &[Batch], number: u64) -> Option<&Batch>
    ensures { option_copied result ≡ find (λ (batch : Batch). batch.number == number) batches.now }
{
    batches.iter().find(|batch| batch.number == number)
}

// Lets only the chosen changes of a running batch stay.
fn take_from_running<C: Choice>(
    mut batch: Batch,
    mut waiting: Vec<Batch>,
    number: u64,
    choice: &C,
) -> Result<(Lane, u64), AllocError>
    ensures lane { IfOk result (λ done. done.0
        ≡ lanes.running_back (lanes.loses (λ change. C.chooses change choice.now) batch) number batch
        (lanes.only (λ change. C.chooses change choice.now) batch) waiting.items) }
    ensures uses { IfOk result (λ done. done.1
        ≡ lanes.running_back_uses (lanes.loses (λ change. C.chooses change choice.now) batch) batch
        (lanes.only (λ change. C.chooses change choice.now) batch)) }
{
    if has_all(choice, batch.changes.as_slice()) || batch.is_landing() {
        return Ok((running_before(batch, waiting), 0));
    }
    keep(&mut batch, choice);
    let used = put_back(&mut waiting, number, batch)?;
    Ok((waiting_only(waiting), used))
}

fn first_started(mut waiting: Vec<Batch>, now: u64) -> Lane
    ensures { result ≡ lanes.first_started now waiting.items }
{
    if waiting.is_empty() {
        return waiting_only(waiting);
    }
    let mut batch = waiting.remove(0);
    batch.stage = Stage::Ordered { since: now };
    running_before(batch, waiting)
}

fn waiting_only(waiting: Vec<Batch>) -> Lane
    ensures { result ≡ record { running = None; waiting = waiting.items } }
{
    Lane {
        running: None,
        waiting: Batches::from(waiting),
    }
}

fn running_before(batch: Batch, waiting: Vec<Batch>) -> Lane
    ensures { result ≡ record { running = Some batch; waiting = waiting.items } }
{
    Lane {
        running: Some(batch),
        waiting: Batches::from(waiting),
    }
}
