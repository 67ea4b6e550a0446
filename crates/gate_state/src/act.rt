ghost use Rattle.std.specs.Prelude.{◌≡◌, IfOk};
ghost use Rattle.gate_state.specs.Acts.{FactKeepsLimits};
ghost use Rattle.gate_state.specs.Words.{state_called};

use crate::moment::Moment;
use gate_rules::Role;
use gate_text::{ChangeNo, Commit, Context, Label, Name, Spoken, Text};
use std::alloc::{AllocError, Global};

/// What a status of a commit says, in the words of the code hosts.
#[derive(Clone, Copy, Debug, PartialEq, Eq)]
pub enum StatusState {
    /// What it checks is good.
    Success,
    /// What it checks is bad.
    Failure,
    /// It couldn't check it.
    Error,
    /// It goes on.
    Pending,
}

impl StatusState {
    /// What a status says by this name, if it says anything: `success`, `failure`, `error` or `pending`.
    pub fn called(word: &str) -> Option<StatusState>
        ensures value { result ≡ state_called word.now }
    {
        match word {
            "success" => Some(StatusState::Success),
            "failure" => Some(StatusState::Failure),
            "error" => Some(StatusState::Error),
            "pending" => Some(StatusState::Pending),
            _ => None,
        }
    }
}

/// What has happened to one change, as the host hands it in.
#[derive(Drop, PartialEq, Eq)]
pub enum ChangeFact {
    /// The fact `opened`: it is opened, for the first time or again.
    Opened {
        /// Who opened it.
        author: Name,
        /// The commit that is to be merged.
        head: Commit,
    },
    /// The fact `pushed`: it has a head, another one or the same.
    Pushed {
        /// Its head from now on.
        head: Commit,
    },
    /// The fact `closed`: it is closed.
    Closed,
    /// The fact `labeled`: it is given a label.
    Labeled {
        /// The label.
        label: Label,
    },
    /// The fact `unlabeled`: a label is taken from it.
    Unlabeled {
        /// The label.
        label: Label,
    },
    /// The fact `review`: a person reviews it.
    Review {
        /// Who reviews it.
        person: Name,
        /// The head that was reviewed.
        head: Commit,
        /// Whether the person approves of it.
        approves: bool,
    },
}

impl ChangeFact {
    /// A copy, or `AllocError` if there is no memory for it.
    pub fn copy(&self, alloc: Global) -> Result<ChangeFact, AllocError>
        ensures value { IfOk result (λ copy. copy ≡ self.now) }
    {
        Ok(match self {
            ChangeFact::Opened { author, head } => ChangeFact::Opened {
                author: author.copy(alloc)?,
                head: *head,
            },
            ChangeFact::Pushed { head } => ChangeFact::Pushed { head: *head },
            ChangeFact::Closed => ChangeFact::Closed,
            ChangeFact::Labeled { label } => ChangeFact::Labeled {
                label: label.copy(alloc)?,
            },
            ChangeFact::Unlabeled { label } => ChangeFact::Unlabeled {
                label: label.copy(alloc)?,
            },
            ChangeFact::Review {
                person,
                head,
                approves,
            } => ChangeFact::Review {
                person: person.copy(alloc)?,
                head: *head,
                approves: *approves,
            },
        })
    }
}

/// What has happened apart from any one change, as the host hands it in.
#[derive(Drop, PartialEq, Eq)]
pub enum Fact {
    /// The fact `role`: a person's role is set.
    Role {
        /// Whose role.
        person: Name,
        /// The role from now on.
        role: Role,
    },
    /// The fact `settings`: the team's settings have changed.
    Settings {
        /// The whole `bors.toml`.
        text: Text,
    },
    /// The fact `base`: the main branch stands at a commit.
    Base {
        /// The commit.
        commit: Commit,
    },
    /// The fact `staged`: the host has made the staging commit of a batch.
    Staged {
        /// The number of the batch.
        batch: u64,
        /// The commit that is tested now.
        commit: Commit,
    },
    /// The fact `conflict`: the changes of a batch can't be merged.
    Conflict {
        /// The number of the batch.
        batch: u64,
    },
    /// The fact `status`: a status of a commit is reported.
    Status {
        /// The commit.
        commit: Commit,
        /// The name of the status.
        name: Context,
        /// What it says.
        state: StatusState,
    },
    /// The fact `refused`: the host can't land a batch.
    Refused {
        /// The number of the batch.
        batch: u64,
    },
    /// The fact `tick`: the clock is read.
    Tick {
        /// The reading.
        now: Moment,
    },
}

impl Fact {
    /// A copy, or `AllocError` if there is no memory for it.
    pub fn copy(&self, alloc: Global) -> Result<Fact, AllocError>
        ensures value { IfOk result (λ copy. copy ≡ self.now) }
        ensures limits { FactKeepsLimits self.now }
    {
        Ok(match self {
            Fact::Role { person, role } => Fact::Role {
                person: person.copy(alloc)?,
                role: *role,
            },
            Fact::Settings { text } => Fact::Settings {
                text: text.copy(alloc)?,
            },
            Fact::Base { commit } => Fact::Base { commit: *commit },
            Fact::Staged { batch, commit } => Fact::Staged {
                batch: *batch,
                commit: *commit,
            },
            Fact::Conflict { batch } => Fact::Conflict { batch: *batch },
            Fact::Status {
                commit,
                name,
                state,
            } => Fact::Status {
                commit: *commit,
                name: name.copy(alloc)?,
                state: *state,
            },
            Fact::Refused { batch } => Fact::Refused { batch: *batch },
            // Made anew, so that its limit is seen.
            Fact::Tick { now } => Fact::Tick {
                now: Moment::at(now.seconds()),
            },
        })
    }
}

/// What is done to one change.
#[derive(Drop, PartialEq, Eq)]
pub enum Deed {
    /// One thing that a person's comment on it says.
    Said {
        /// Who wrote it.
        person: Name,
        /// What is said: a command, or something that is none.
        spoken: Spoken,
    },
    /// A fact about it.
    Happened(ChangeFact),
}

/// One thing that may change the state.
#[derive(Drop, PartialEq, Eq)]
pub enum Act {
    /// Something that is done to one change.
    On {
        /// The change.
        change: ChangeNo,
        /// What is done to it.
        deed: Deed,
    },
    /// Any other fact.
    Other(Fact),
}
