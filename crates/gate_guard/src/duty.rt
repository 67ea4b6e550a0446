ghost use Rattle.std.specs.Prelude.{◌≡◌};
ghost use Rattle.gate_guard.specs.Duties.{duties_of, duty_at, duty_of};
ghost use Rattle.gate_state.specs.Queue.{lane_of};

use gate_queue::Gate;
use gate_state::{Batch, Branch, Stage, State};
use gate_text::Commit;

/// What a host has to do for the batch that runs on a branch.
#[derive(Clone, Copy, Debug, PartialEq, Eq)]
pub enum Duty {
    /// The batch was ordered to be staged. The heads that the order names are to be merged onto its base, and it is to be told that the
    /// batch is staged with the merge, or conflicts.
    Merge {
        /// The number of the batch, which names the order.
        batch: u64,
    },
    /// The batch is staged. What checks say of the merge is to be told.
    Test {
        /// The number of the batch.
        batch: u64,
        /// The merge.
        commit: Commit,
    },
    /// The batch was ordered to land. The main branch is to be moved from exactly the base to exactly the commit, and it is to be told that
    /// the base is the commit now, or that the batch doesn't land.
    Land {
        /// The number of the batch.
        batch: u64,
        /// The value that the main branch has to have.
        base: Commit,
        /// The value that it gets.
        commit: Commit,
    },
}

/// What a host has to do, for each branch. A branch on which no batch runs has none.
#[derive(Clone, Copy, Debug, PartialEq, Eq)]
pub struct Duties {
    /// For the batch on `staging`.
    pub staging: Option<Duty>,
    /// For the batch on `trying`, which never lands.
    pub trying: Option<Duty>,
}

// What is to be done for a batch that runs, on this base.
fn duty_for(base: Option<Commit>, batch: &Batch) -> Option<Duty>
    ensures value { result ≡ duty_at base batch.now.number batch.now.stage }
{
    match &batch.stage {
        Stage::Waiting => None,
        Stage::Ordered { .. } => Some(Duty::Merge {
            batch: batch.number,
        }),
        Stage::Staged { commit, .. } => Some(Duty::Test {
            batch: batch.number,
            commit: *commit,
        }),
        Stage::Landing { commit } => Some(Duty::Land {
            batch: batch.number,
            base: base?,
            commit: *commit,
        }),
    }
}

// What is to be done on a branch.
fn duty_on(state: &State, branch: Branch) -> Option<Duty>
    ensures value { result ≡ duty_of state.now.desk.base (lane_of branch state.now.queue).running }
{
    match &state.queue.lane(branch).running {
        Some(batch) => duty_for(state.desk.base(), batch),
        None => None,
    }
}

/// What a host has to do, by the state of a gate. It takes no memory.
pub fn duties_in(gate: &Gate) -> Duties
    ensures value { result ≡ duties_of gate.now }
{
    let state = gate.state();
    Duties {
        staging: duty_on(state, Branch::Staging),
        trying: duty_on(state, Branch::Trying),
    }
}
