ghost use Rattle.std.specs.Prelude.{◌≡◌, IfOk};
ghost use Rattle.gate_state.specs.Words.{why_called, why_word_of};

use crate::batch::Branch;
use gate_rules::Rule;
use gate_text::{ChangeNo, Commit, Context, List, TryCopy};
use std::alloc::{AllocError, Global};

/// Why a change's approval or try has ended without a command.
#[derive(Drop, PartialEq, Eq)]
pub enum Why {
    /// Its batch, in which it was alone, can't be merged.
    Conflict,
    /// This required status of its batch, in which it was alone, has failed.
    Failed(Context),
    /// Its batch, in which it was alone, has taken longer than the settings allow.
    TimedOut,
    /// Another head was pushed.
    Pushed,
    /// The change was closed.
    Closed,
    /// It was given a blocking label.
    Labeled,
    /// It has too few reviews since one was taken back.
    Reviews,
    /// New settings block one of its labels, or ask for more reviews.
    Settings,
    /// It was tried, and all required statuses have succeeded.
    TryPassed,
    /// It was tried, and couldn't be merged, or a required status has failed, or it has taken longer than the settings allow.
    TryFailed,
}

impl Why {
    /// The name of the reason, as notices write it.
    pub fn word(&self) -> &'static str
        ensures value { result.now ≡ why_word_of self.now }
    {
        match self {
            Why::Conflict => "Conflict",
            Why::Failed(_) => "Failed",
            Why::TimedOut => "TimedOut",
            Why::Pushed => "Pushed",
            Why::Closed => "Closed",
            Why::Labeled => "Labeled",
            Why::Reviews => "Reviews",
            Why::Settings => "Settings",
            Why::TryPassed => "TryPassed",
            Why::TryFailed => "TryFailed",
        }
    }

    /// The reason of this name, if there is one that names no status.
    pub fn called(word: &str) -> Option<Why>
        ensures value { result ≡ why_called word.now }
    {
        match word {
            "Conflict" => Some(Why::Conflict),
            "TimedOut" => Some(Why::TimedOut),
            "Pushed" => Some(Why::Pushed),
            "Closed" => Some(Why::Closed),
            "Labeled" => Some(Why::Labeled),
            "Reviews" => Some(Why::Reviews),
            "Settings" => Some(Why::Settings),
            "TryPassed" => Some(Why::TryPassed),
            "TryFailed" => Some(Why::TryFailed),
            _ => None,
        }
    }

    // A copy, or `AllocError` if there is no memory for it.
    fn copy(&self, alloc: Global) -> Result<Why, AllocError>
        ensures { IfOk result (λ copy. copy ≡ self.now) }
    {
        Ok(match self {
            Why::Conflict => Why::Conflict,
            Why::Failed(status) => Why::Failed(status.copy(alloc)?),
            Why::TimedOut => Why::TimedOut,
            Why::Pushed => Why::Pushed,
            Why::Closed => Why::Closed,
            Why::Labeled => Why::Labeled,
            Why::Reviews => Why::Reviews,
            Why::Settings => Why::Settings,
            Why::TryPassed => Why::TryPassed,
            Why::TryFailed => Why::TryFailed,
        })
    }
}

/// A change and the head at which it is to be merged.
#[derive(Clone, Copy, PartialEq, Eq)]
pub struct Head {
    /// The change.
    pub change: ChangeNo,
    /// Its head.
    pub head: Commit,
}

impl TryCopy for Head {
    fn try_copy(&self, _alloc: Global) -> Result<Head, AllocError> {
        Ok(*self)
    }
}

/// Heads, in the order in which they are to be merged.
pub type Heads = List<Head>;

/// What the host is to do.
#[derive(Drop, PartialEq, Eq)]
pub enum Order {
    /// To merge the heads onto the base, on the branch, and to have the outcome tested.
    Stage {
        /// The number of the batch.
        batch: u64,
        /// The branch.
        branch: Branch,
        /// The commit that the main branch stands at.
        base: Commit,
        /// The changes of the batch at their heads.
        heads: Heads,
    },
    /// To move the main branch from the base to the commit that was tested.
    Land {
        /// The number of the batch.
        batch: u64,
        /// The commit that the main branch stands at.
        base: Commit,
        /// The commit that it is to stand at.
        commit: Commit,
    },
    /// To tell the people of a change that its approval or its try has ended.
    Notice {
        /// The change.
        change: ChangeNo,
        /// Why.
        why: Why,
    },
}

impl TryCopy for Order {
    fn try_copy(&self, alloc: Global) -> Result<Order, AllocError> {
        Ok(match self {
            Order::Stage {
                batch,
                branch,
                base,
                heads,
            } => Order::Stage {
                batch: *batch,
                branch: *branch,
                base: *base,
                heads: heads.copy(alloc)?,
            },
            Order::Land {
                batch,
                base,
                commit,
            } => Order::Land {
                batch: *batch,
                base: *base,
                commit: *commit,
            },
            Order::Notice { change, why } => Order::Notice {
                change: *change,
                why: why.copy(alloc)?,
            },
        })
    }
}

/// Orders, in the order in which the host is to carry them out.
pub type Orders = List<Order>;

/// What one act is answered.
#[derive(Drop, PartialEq, Eq)]
pub enum Reply {
    /// It acted, and these are the orders.
    Done(Orders),
    /// It was denied by the first of its rules that fails. It changed nothing, and gives no orders.
    Denied(Rule),
}

impl TryCopy for Reply {
    fn try_copy(&self, alloc: Global) -> Result<Reply, AllocError> {
        Ok(match self {
            Reply::Done(orders) => Reply::Done(orders.copy(alloc)?),
            Reply::Denied(rule) => Reply::Denied(rule.copy(alloc)?),
        })
    }
}
