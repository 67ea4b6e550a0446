ghost use Rattle.std.specs.Prelude.{◌≡◌};

use crate::sorting::Same;
use gate_tables::{
    BatchRow, ChangeRow, DeskRow, MarkRow, MemberRow, PersonRow, Row, RowChange, RowKey, StatusRow,
    WantedRow,
};
use gate_text::Text;
use std::alloc::{AllocError, Global};
use std::cmp::Ordering;

/// A row of one of the tables, with its key.
pub(crate) trait Keyed: Same {
    ghost use Rattle.std.specs.Prelude.{◌≡◌, IfOk};
    ghost use Rattle.gate_rows.specs.Changed.{key_cmp};
    ghost use Rattle.gate_tables.specs.Forms.{Form};
    ghost use Rattle.gate_tables.specs.Known.{IsKeyed};
    ghost use Rattle.gate_tables.specs.declared.change.RowChange.{RowChange as RowChangeOf};

    // How the rows of the table are seen, and the row changes that put and that delete one.
    ghost form: { Form Self };

    ghost put: { Self → RowChangeOf };

    ghost deletion: { Self → RowChangeOf };

    /// The order of the keys.
    fn compare_keys(&self, other: &Self) -> Ordering
        ensures { result ≡ key_cmp form self.now other.now };

    /// The change that deletes the row.
    fn deletion(&self, alloc: Global) -> Result<RowChange, AllocError>
        ensures { IfOk result (λ change. change ≡ deletion self.now) };

    /// The change that puts the row.
    fn into_put(self) -> RowChange
        ensures { result ≡ put self };

    ghost keyed: { IsKeyed form };
}

impl Keyed for DeskRow {
    ghost use Rattle.gate_tables.specs.Desk as statements;
    ghost use Rattle.gate_tables.specs.Forms as forms;
    ghost use Rattle.gate_tables.specs.declared.change.Row.TheVariants as row;
    ghost use Rattle.gate_tables.specs.declared.change.RowChange.TheVariants as change;
    ghost use Rattle.gate_tables.specs.declared.change.RowKey.TheVariants as key;

    ghost form = { forms.desk };

    ghost put = { λ r. change.Put (row.Desk r) };

    ghost deletion = { λ r. change.Delete (key.Desk r.one) };

    fn compare_keys(&self, other: &DeskRow) -> Ordering {
        self.one.cmp(&other.one)
    }

    fn deletion(&self, _alloc: Global) -> Result<RowChange, AllocError> {
        Ok(RowChange::Delete(RowKey::Desk { one: self.one }))
    }

    fn into_put(self) -> RowChange {
        RowChange::Put(Row::Desk(self))
    }

    ghost keyed = { statements.keyed };
}

impl Keyed for PersonRow {
    ghost use Rattle.gate_tables.specs.Forms as forms;
    ghost use Rattle.gate_tables.specs.People as statements;
    ghost use Rattle.gate_tables.specs.declared.change.Row.TheVariants as row;
    ghost use Rattle.gate_tables.specs.declared.change.RowChange.TheVariants as change;
    ghost use Rattle.gate_tables.specs.declared.change.RowKey.TheVariants as key;

    ghost form = { forms.people };

    ghost put = { λ r. change.Put (row.People r) };

    ghost deletion = { λ r. change.Delete (key.People r.name) };

    fn compare_keys(&self, other: &PersonRow) -> Ordering {
        self.name.cmp(&other.name)
    }

    fn deletion(&self, alloc: Global) -> Result<RowChange, AllocError> {
        let name = Text::from_str(alloc, self.name.as_str())?;
        Ok(RowChange::Delete(RowKey::People { name }))
    }

    fn into_put(self) -> RowChange {
        RowChange::Put(Row::People(self))
    }

    ghost keyed = { statements.keyed };
}

impl Keyed for ChangeRow {
    ghost use Rattle.gate_tables.specs.Changes as statements;
    ghost use Rattle.gate_tables.specs.Forms as forms;
    ghost use Rattle.gate_tables.specs.declared.change.Row.TheVariants as row;
    ghost use Rattle.gate_tables.specs.declared.change.RowChange.TheVariants as change;
    ghost use Rattle.gate_tables.specs.declared.change.RowKey.TheVariants as key;

    ghost form = { forms.changes };

    ghost put = { λ r. change.Put (row.Changes r) };

    ghost deletion = { λ r. change.Delete (key.Changes r.number) };

    fn compare_keys(&self, other: &ChangeRow) -> Ordering {
        self.number.cmp(&other.number)
    }

    fn deletion(&self, _alloc: Global) -> Result<RowChange, AllocError> {
        let number = self.number;
        Ok(RowChange::Delete(RowKey::Changes { number }))
    }

    fn into_put(self) -> RowChange {
        RowChange::Put(Row::Changes(self))
    }

    ghost keyed = { statements.keyed };
}

impl Keyed for MarkRow {
    ghost use Rattle.gate_tables.specs.Forms as forms;
    ghost use Rattle.gate_tables.specs.Marks as statements;
    ghost use Rattle.gate_tables.specs.declared.change.Row.TheVariants as row;
    ghost use Rattle.gate_tables.specs.declared.change.RowChange.TheVariants as change;
    ghost use Rattle.gate_tables.specs.declared.change.RowKey.TheVariants as key;

    ghost form = { forms.marks };

    ghost put = { λ r. change.Put (row.Marks r) };

    ghost deletion = { λ r. change.Delete (key.Marks r.change_no r.kind r.word) };

    fn compare_keys(&self, other: &MarkRow) -> Ordering {
        let changes = self.change_no.cmp(&other.change_no);
        let kinds = self.kind.cmp(&other.kind);
        changes.then(kinds).then(self.word.cmp(&other.word))
    }

    fn deletion(&self, alloc: Global) -> Result<RowChange, AllocError> {
        Ok(RowChange::Delete(RowKey::Marks {
            change_no: self.change_no,
            kind: self.kind,
            word: Text::from_str(alloc, self.word.as_str())?,
        }))
    }

    fn into_put(self) -> RowChange {
        RowChange::Put(Row::Marks(self))
    }

    ghost keyed = { statements.keyed };
}

impl Keyed for BatchRow {
    ghost use Rattle.gate_tables.specs.Batches as statements;
    ghost use Rattle.gate_tables.specs.Forms as forms;
    ghost use Rattle.gate_tables.specs.declared.change.Row.TheVariants as row;
    ghost use Rattle.gate_tables.specs.declared.change.RowChange.TheVariants as change;
    ghost use Rattle.gate_tables.specs.declared.change.RowKey.TheVariants as key;

    ghost form = { forms.batches };

    ghost put = { λ r. change.Put (row.Batches r) };

    ghost deletion = { λ r. change.Delete (key.Batches r.number) };

    fn compare_keys(&self, other: &BatchRow) -> Ordering {
        self.number.cmp(&other.number)
    }

    fn deletion(&self, _alloc: Global) -> Result<RowChange, AllocError> {
        let number = self.number;
        Ok(RowChange::Delete(RowKey::Batches { number }))
    }

    fn into_put(self) -> RowChange {
        RowChange::Put(Row::Batches(self))
    }

    ghost keyed = { statements.keyed };
}

impl Keyed for MemberRow {
    ghost use Rattle.gate_tables.specs.Forms as forms;
    ghost use Rattle.gate_tables.specs.Members as statements;
    ghost use Rattle.gate_tables.specs.declared.change.Row.TheVariants as row;
    ghost use Rattle.gate_tables.specs.declared.change.RowChange.TheVariants as change;
    ghost use Rattle.gate_tables.specs.declared.change.RowKey.TheVariants as key;

    ghost form = { forms.members };

    ghost put = { λ r. change.Put (row.Members r) };

    ghost deletion = { λ r. change.Delete (key.Members r.batch r.place) };

    fn compare_keys(&self, other: &MemberRow) -> Ordering {
        let batches = self.batch.cmp(&other.batch);
        batches.then(self.place.cmp(&other.place))
    }

    fn deletion(&self, _alloc: Global) -> Result<RowChange, AllocError> {
        let MemberRow { batch, place, .. } = self;
        Ok(RowChange::Delete(RowKey::Members {
            batch: *batch,
            place: *place,
        }))
    }

    fn into_put(self) -> RowChange {
        RowChange::Put(Row::Members(self))
    }

    ghost keyed = { statements.keyed };
}

impl Keyed for StatusRow {
    ghost use Rattle.gate_tables.specs.Forms as forms;
    ghost use Rattle.gate_tables.specs.Statuses as statements;
    ghost use Rattle.gate_tables.specs.declared.change.Row.TheVariants as row;
    ghost use Rattle.gate_tables.specs.declared.change.RowChange.TheVariants as change;
    ghost use Rattle.gate_tables.specs.declared.change.RowKey.TheVariants as key;

    ghost form = { forms.statuses };

    ghost put = { λ r. change.Put (row.Statuses r) };

    ghost deletion = { λ r. change.Delete (key.Statuses r.batch r.name) };

    fn compare_keys(&self, other: &StatusRow) -> Ordering {
        let batches = self.batch.cmp(&other.batch);
        batches.then(self.name.cmp(&other.name))
    }

    fn deletion(&self, alloc: Global) -> Result<RowChange, AllocError> {
        Ok(RowChange::Delete(RowKey::Statuses {
            batch: self.batch,
            name: Text::from_str(alloc, self.name.as_str())?,
        }))
    }

    fn into_put(self) -> RowChange {
        RowChange::Put(Row::Statuses(self))
    }

    ghost keyed = { statements.keyed };
}

impl Keyed for WantedRow {
    ghost use Rattle.gate_tables.specs.Forms as forms;
    ghost use Rattle.gate_tables.specs.Wanted as statements;
    ghost use Rattle.gate_tables.specs.declared.change.Row.TheVariants as row;
    ghost use Rattle.gate_tables.specs.declared.change.RowChange.TheVariants as change;
    ghost use Rattle.gate_tables.specs.declared.change.RowKey.TheVariants as key;

    ghost form = { forms.wanted };

    ghost put = { λ r. change.Put (row.Wanted r) };

    ghost deletion = { λ r. change.Delete (key.Wanted r.kind r.place) };

    fn compare_keys(&self, other: &WantedRow) -> Ordering {
        let kinds = self.kind.cmp(&other.kind);
        kinds.then(self.place.cmp(&other.place))
    }

    fn deletion(&self, _alloc: Global) -> Result<RowChange, AllocError> {
        let WantedRow { kind, place, .. } = self;
        Ok(RowChange::Delete(RowKey::Wanted {
            kind: *kind,
            place: *place,
        }))
    }

    fn into_put(self) -> RowChange {
        RowChange::Put(Row::Wanted(self))
    }

    ghost keyed = { statements.keyed };
}
