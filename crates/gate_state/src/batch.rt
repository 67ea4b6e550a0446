ghost use Rattle.std.specs.Prelude.{◌≡◌, IfOk, OnErr, OnOk};
ghost use Rattle.std.specs.FinMap.{empty, from_entries, get, insert};
ghost use Rattle.gate_state.specs.Lanes as lanes;
ghost use Rattle.gate_state.specs.Lanes.{has_succeeded};
ghost use Rattle.gate_state.specs.Words.{branch_called, branch_word_of};

use crate::choice::Choice;
use crate::waiting::has_all;
use gate_text::{ChangeNo, Commit, Context, List, TryCopy, copy_map};
use std::alloc::{AllocError, Global};
use std::collections::BTreeMap;
use std::marker::Model;

/// A branch on which batches are tested.
#[derive(Clone, Copy, Debug, PartialEq, Eq)]
pub enum Branch {
    /// What is to land is tested here.
    Staging,
    /// What somebody wants to try is tested here, and doesn't land.
    Trying,
}

impl Branch {
    /// The name of the branch, as orders and reports write it: `staging` or `trying`.
    pub fn word(self) -> &'static str
        ensures value { result.now ≡ branch_word_of self }
    {
        match self {
            Branch::Staging => "staging",
            Branch::Trying => "trying",
        }
    }

    /// The branch of this name, if there is one.
    pub fn called(word: &str) -> Option<Branch>
        ensures value { result ≡ branch_called word.now }
    {
        match word {
            "staging" => Some(Branch::Staging),
            "trying" => Some(Branch::Trying),
            _ => None,
        }
    }
}

/// What was last told of a required status.
#[derive(Clone, Copy, PartialEq, Eq)]
pub enum Report {
    /// It has succeeded.
    Success,
    /// It goes on.
    Pending,
}

impl TryCopy for Report {
    fn try_copy(&self, _alloc: Global) -> Result<Report, AllocError> {
        Ok(*self)
    }
}

/// The last report of each required status that one has come of. A contract sees it as the finite map.
#[derive(Drop)]
pub struct Reports {
    reports: BTreeMap<Context, Report>,
}

impl Model for Reports {
    ghost use Rattle.std.specs.Cmp.Lexicographic.{slice_cmp};
    ghost use Rattle.std.specs.Coded.{codes};
    ghost use Rattle.std.specs.FinMap as map;
    ghost use Rattle.std.specs.FinMap.{FinMap};
    ghost use Rattle.std.specs.Ordering.{nat_cmp};
    ghost use Rattle.gate_text.specs.Finite.{finite_codes};
    ghost use Rattle.gate_state.specs.declared.batch.Report.{Report as ReportOf};

    ghost Value = { FinMap (slice_cmp nat_cmp) ReportOf };

    ghost coded = { Prim.hlevel (codes, finite_codes) };

    ghost view = { λ r. map.from_entries r.reports.entries };
}

impl Reports {
    /// No reports. It takes no memory; the map keeps the allocator.
    pub fn new(alloc: Global) -> Reports
        ensures value { result ≡ empty }
    {
        Reports {
            reports: BTreeMap::new(alloc),
        }
    }

    /// Keeps a report, in place of the one of this name, if there is one. `AllocError` if there is no memory for it, and the reports stay
    /// as they were.
    pub fn keep(&mut self, name: Context, report: Report) -> Result<(), AllocError>
        ensures ok { OnOk result (self.new ≡ insert self.old name report) }
        ensures err { OnErr result (self.new ≡ self.old) }
    {
        self.reports.insert(name, report)?;
        Ok(())
    }

    /// The last report of this name, if one has come.
    pub fn last(&self, name: &Context) -> Option<Report>
        ensures value { result ≡ get self.now name.now }
    {
        self.reports.get(name).copied()
    }

    /// The reports, by name upwards.
    pub fn as_map(&self) -> &BTreeMap<Context, Report>
        ensures value { from_entries result.now.entries ≡ self.now }
    {
        &self.reports
    }

    /// Whether the last report of this name is a success.
    pub fn has_succeeded(&self, name: &Context) -> bool
        ensures value { result ≡ has_succeeded self.now name.now }
    {
        match self.last(name) {
            Some(Report::Success) => true,
            Some(Report::Pending) | None => false,
        }
    }

    // A copy, or `AllocError` if there is no memory for it.
    fn copy(&self, alloc: Global) -> Result<Reports, AllocError>
        ensures { IfOk result (λ copy. copy ≡ self.now) }
    {
        Ok(Reports {
            reports: copy_map(alloc, &self.reports)?,
        })
    }
}

/// Where a batch stands. Moments are readings of the clock, in seconds.
#[derive(Drop)]
pub enum Stage {
    /// It waits for its branch.
    Waiting,
    /// The host was ordered to stage it.
    Ordered {
        /// When.
        since: u64,
    },
    /// It is tested.
    Staged {
        /// Since when.
        since: u64,
        /// The commit that is tested.
        commit: Commit,
        /// What its required statuses have told.
        reports: Reports,
    },
    /// All required statuses have succeeded, and the host was ordered to land it.
    Landing {
        /// The commit that is to land.
        commit: Commit,
    },
}

impl Stage {
    // A copy, or `AllocError` if there is no memory for it.
    fn copy(&self, alloc: Global) -> Result<Stage, AllocError>
        ensures { IfOk result (λ copy. copy ≡ self.now) }
    {
        Ok(match self {
            Stage::Waiting => Stage::Waiting,
            Stage::Ordered { since } => Stage::Ordered { since: *since },
            Stage::Staged {
                since,
                commit,
                reports,
            } => Stage::Staged {
                since: *since,
                commit: *commit,
                reports: reports.copy(alloc)?,
            },
            Stage::Landing { commit } => Stage::Landing { commit: *commit },
        })
    }
}

/// Changes in an order. A contract sees them as the list of their numbers.
pub type Changes = List<ChangeNo>;

/// Changes that are tested together, on one branch.
#[derive(Drop)]
pub struct Batch {
    /// Its number, which no other batch ever has.
    pub number: u64,
    /// The branch.
    pub branch: Branch,
    /// The priority of its changes; 0 on `Trying`.
    pub priority: i32,
    /// Whether its changes were in a batch before.
    pub again: bool,
    /// Where it stands.
    pub stage: Stage,
    /// Its changes, in the order in which they are merged; one alone on `Trying`.
    pub changes: Changes,
}

impl Batch {
    /// Whether the host was ordered to land it.
    pub fn is_landing(&self) -> bool
        ensures value { result ≡ lanes.is_landing self.now.stage }
    {
        match &self.stage {
            Stage::Waiting | Stage::Ordered { .. } | Stage::Staged { .. } => false,
            Stage::Landing { .. } => true,
        }
    }

    /// Whether it has a change that isn't chosen.
    pub fn loses<C: Choice>(&self, choice: &C) -> bool
        ensures value { result ≡ lanes.loses (λ change. C.chooses change choice.now) self.now }
    {
        !has_all(choice, self.changes.as_slice())
    }

    /// Whether it has two changes or more.
    pub fn has_several(&self) -> bool
        ensures value { result ≡ lanes.has_several self.now }
    {
        self.changes.as_slice().len() > 1
    }
}

impl TryCopy for Batch {
    fn try_copy(&self, alloc: Global) -> Result<Batch, AllocError> {
        Ok(Batch {
            number: self.number,
            branch: self.branch,
            priority: self.priority,
            again: self.again,
            stage: self.stage.copy(alloc)?,
            changes: self.changes.copy(alloc)?,
        })
    }
}
