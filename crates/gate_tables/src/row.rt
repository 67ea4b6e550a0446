use gate_text::{List, Text};

/// The one row of the table `desk`.
#[derive(Debug, Drop, PartialEq, Eq, PartialOrd, Ord)]
pub struct DeskRow {
    /// 1: the key of the one row.
    pub one: i64,
    /// The version of the schema: 2, or 1 in a row of version 1.
    pub version: i64,
    /// The number of the next batch.
    pub next_batch: i64,
    /// The last reading of the clock, in seconds; 0 before the first.
    pub clock: i64,
    /// The base, or nothing if there is none.
    pub base: Text,
    /// After how many seconds a batch is given up; 0 without settings.
    pub timeout_sec: i64,
    /// How many reviews a change needs; 0 without settings.
    pub required_approvals: i64,
    /// How many changes a batch may have; 0 without settings or without a limit.
    pub max_batch_size: i64,
}

/// A row of the table `people`.
#[derive(Debug, Drop, PartialEq, Eq, PartialOrd, Ord)]
pub struct PersonRow {
    /// The name.
    pub name: Text,
    /// 1 for a member, 2 for a reviewer.
    pub role: i64,
}

/// A row of the table `changes`.
#[derive(Debug, Drop, PartialEq, Eq, PartialOrd, Ord)]
pub struct ChangeRow {
    /// The number.
    pub number: i64,
    /// The author.
    pub author: Text,
    /// The head.
    pub head: Text,
    /// 1 open, 2 closed, 3 landed.
    pub phase: i64,
    /// The priority.
    pub priority: i64,
    /// 1 if it has approvers, else 0.
    pub approved: i64,
    /// What a `retry` repeats: 0 nothing, 1 `r+`, 2 `r=`, 3 `try`.
    pub last_command: i64,
}

/// A row of the table `marks`.
#[derive(Debug, Drop, PartialEq, Eq, PartialOrd, Ord)]
pub struct MarkRow {
    /// The number of the change. In version 1 it is 0 for a word of the settings.
    pub change_no: i64,
    /// 1 a label, 2 a review, 3 a delegate, 4 an approver, 5 a name of the last `r=`, 8 a status that has succeeded on the head. In version
    /// 1 also, of the settings, 6 a required status, 7 a blocking label, 9 a name of `pr_status`.
    pub kind: i64,
    /// The label, the name of the person or that of the status.
    pub word: Text,
    /// The place in the list, from 0; 0 if it is in a set.
    pub place: i64,
}

/// A row of the table `batches`.
#[derive(Debug, Drop, PartialEq, Eq, PartialOrd, Ord)]
pub struct BatchRow {
    /// The number.
    pub number: i64,
    /// 1 `staging`, 2 `trying`.
    pub branch: i64,
    /// The priority of its changes.
    pub priority: i64,
    /// 1 if its changes were in a batch before, else 0.
    pub again: i64,
    /// 1 waiting, 2 ordered, 3 staged, 4 landing.
    pub phase: i64,
    /// The reading of the clock, in seconds, at which it was ordered or staged, if that is its phase, else 0.
    pub since: i64,
    /// The commit that is tested or is to land, or nothing.
    pub sha: Text,
}

/// A row of the table `members`.
#[derive(Debug, Drop, PartialEq, Eq, PartialOrd, Ord)]
pub struct MemberRow {
    /// The number of the batch.
    pub batch: i64,
    /// The place of the change in the batch, from 0.
    pub place: i64,
    /// The number of the change.
    pub change_no: i64,
}

/// A row of the table `statuses`.
#[derive(Debug, Drop, PartialEq, Eq, PartialOrd, Ord)]
pub struct StatusRow {
    /// The number of the batch.
    pub batch: i64,
    /// The name of the status.
    pub name: Text,
    /// What was last told of it: 1 a success, 2 that it goes on.
    pub report: i64,
}

/// A row of the table `wanted`.
#[derive(Debug, Drop, PartialEq, Eq, PartialOrd, Ord)]
pub struct WantedRow {
    /// Which list of the settings: 1 the required statuses, 2 the blocking labels, 3 the statuses wanted on the head of a change.
    pub kind: i64,
    /// The place in that list, from 0.
    pub place: i64,
    /// The name of the status, or the label.
    pub word: Text,
}

/// The rows of every table but `answers`. The order of a list says nothing.
#[derive(Debug, Drop)]
pub struct Rows {
    /// The table `desk`.
    pub desk: List<DeskRow>,
    /// The table `people`.
    pub people: List<PersonRow>,
    /// The table `changes`.
    pub changes: List<ChangeRow>,
    /// The table `marks`.
    pub marks: List<MarkRow>,
    /// The table `batches`.
    pub batches: List<BatchRow>,
    /// The table `members`.
    pub members: List<MemberRow>,
    /// The table `statuses`.
    pub statuses: List<StatusRow>,
    /// The table `wanted`.
    pub wanted: List<WantedRow>,
}
