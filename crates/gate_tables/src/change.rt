use crate::row::{
    BatchRow, ChangeRow, DeskRow, MarkRow, MemberRow, PersonRow, StatusRow, WantedRow,
};
use gate_text::Text;

/// A row of one of the tables but `answers`.
#[derive(Debug, Drop, PartialEq, Eq)]
pub enum Row {
    /// The one row of `desk`.
    Desk(DeskRow),
    /// A row of `people`.
    People(PersonRow),
    /// A row of `changes`.
    Changes(ChangeRow),
    /// A row of `marks`.
    Marks(MarkRow),
    /// A row of `batches`.
    Batches(BatchRow),
    /// A row of `members`.
    Members(MemberRow),
    /// A row of `statuses`.
    Statuses(StatusRow),
    /// A row of `wanted`.
    Wanted(WantedRow),
}

/// The key of a row of one of the tables but `answers`: its first columns. They have the names and the values that the row's type
/// tells.
#[derive(Debug, Drop, PartialEq, Eq)]
pub enum RowKey {
    /// Of a row of `desk`: always 1.
    Desk {
        one: i64,
    },
    /// Of a row of `people`.
    People {
        name: Text,
    },
    /// Of a row of `changes`.
    Changes {
        number: i64,
    },
    /// Of a row of `marks`.
    Marks {
        change_no: i64,
        kind: i64,
        word: Text,
    },
    /// Of a row of `batches`.
    Batches {
        number: i64,
    },
    /// Of a row of `members`.
    Members {
        batch: i64,
        place: i64,
    },
    /// Of a row of `statuses`.
    Statuses {
        batch: i64,
        name: Text,
    },
    /// Of a row of `wanted`.
    Wanted {
        kind: i64,
        place: i64,
    },
}

/// What becomes of one row.
#[derive(Debug, Drop, PartialEq, Eq)]
pub enum RowChange {
    /// The row takes the place of the one that has its key, or is added if none has it.
    Put(Row),
    /// The row of the key is deleted, if there is one.
    Delete(RowKey),
}
