ghost use Rattle.std.specs.Prelude.{◌≡◌, IfOk};
ghost use Rattle.gate_rules.specs.Heads.{open_head};

use gate_text::{Commit, ContextSet, LabelSet, Name, NameSet, Names, TryCopy};
use std::alloc::{AllocError, Global};

/// How far a change (a pull request) has come.
#[derive(Clone, Copy, Debug, PartialEq, Eq)]
pub enum Phase {
    /// It is open.
    Opened,
    /// It was closed, and not opened again since.
    Closed,
    /// It has reached the main branch.
    Landed,
}

/// A command that `retry` repeats.
#[derive(Debug, Drop, PartialEq, Eq)]
pub enum Repeat {
    /// `r+`: the approval of who writes it.
    Approve,
    /// `r=`: the approval in the name of these people.
    ApproveFor(Names),
    /// `try`: a test that lands nothing.
    Try,
}

impl Repeat {
    /// A copy, or `AllocError` if there is no memory for it.
    pub fn copy(&self, alloc: Global) -> Result<Repeat, AllocError>
        ensures value { IfOk result (λ copy. copy ≡ self.now) }
    {
        Ok(match self {
            Repeat::Approve => Repeat::Approve,
            Repeat::ApproveFor(names) => Repeat::ApproveFor(names.copy(alloc)?),
            Repeat::Try => Repeat::Try,
        })
    }
}

/// A change (a pull request) as the bot keeps it.
#[derive(Debug, Drop, PartialEq, Eq)]
pub struct Change {
    /// Who opened it last.
    pub author: Name,
    /// The commit that is to be merged.
    pub head: Commit,
    /// How far it has come.
    pub phase: Phase,
    /// Changes of a greater priority are tested first: -9,999 to 9,999.
    pub priority: i32,
    /// Its labels.
    pub labels: LabelSet,
    /// Who has approved of it in a review of its head.
    pub reviews: NameSet,
    /// The statuses that have succeeded on its head, while it is open.
    pub passed: ContextSet,
    /// Who may approve and try it besides those whose role lets them.
    pub delegates: NameSet,
    /// The approvers, if the change is approved.
    pub approved: Option<Names>,
    /// Whether it is being tried: it has a batch on the branch `trying`.
    pub trying: bool,
    /// Whether the host was ordered to land it, and hasn't answered yet.
    pub landing: bool,
    /// The last command that `retry` would repeat, if there was one.
    pub last: Option<Repeat>,
}

impl Change {
    // Its head, if it is open.
    pub(crate) fn open_head(&self) -> Option<Commit>
        ensures { result ≡ open_head self.now }
    {
        match self.phase {
            Phase::Opened => Some(self.head),
            Phase::Closed | Phase::Landed => None,
        }
    }

    /// A copy, or `AllocError` if there is no memory for it.
    pub fn copy(&self, alloc: Global) -> Result<Change, AllocError>
        ensures value { IfOk result (λ copy. copy ≡ self.now) }
    {
        let approved = match &self.approved {
            Some(approvers) => Some(approvers.copy(alloc)?),
            None => None,
        };
        let last = match &self.last {
            Some(repeat) => Some(repeat.copy(alloc)?),
            None => None,
        };
        Ok(Change {
            author: self.author.copy(alloc)?,
            head: self.head,
            phase: self.phase,
            priority: self.priority,
            labels: self.labels.copy(alloc)?,
            reviews: self.reviews.copy(alloc)?,
            passed: self.passed.copy(alloc)?,
            delegates: self.delegates.copy(alloc)?,
            approved,
            trying: self.trying,
            landing: self.landing,
            last,
        })
    }
}

impl TryCopy for Change {
    fn try_copy(&self, alloc: Global) -> Result<Change, AllocError> {
        self.copy(alloc)
    }
}
