ghost use Rattle.std.specs.Prelude.{◌≡◌, true, false, IsTrue};
ghost use Rattle.std.specs.List.{list_all};
ghost use Rattle.gate_tables.specs.Plain.{is_none, is_null, is_plain_column, is_plain_table, is_plain_schema};

use sqlite_items::Items;
use sqlite_schema::code::Terms;
use sqlite_schema::schema::{Column, Index, Kind, Reference, Schema, Stamps, Table, View};
use sqlite_value::keys::{Collation, Order};
use sqlite_value::value::{Bytes, Value};

// Whether both schemas are the same, and plain: no view, no default, and no rule over rows but keys. The tables of the records
// are so.
#[tactic(auto, using(crate::proofs::Comparing::all_plain, crate::proofs::Comparing::none_plain))]
pub(crate) fn is_same(one: &Schema, other: &Schema) -> bool
    ensures same { IsTrue result → one.now ≡ other.now }
    ensures told { IsTrue (is_plain_schema other.now) → one.now ≡ other.now → IsTrue result }
{
    one.tables.is_same(&other.tables)
        & one.indexes.is_same(&other.indexes)
        & one.views.is_same(&other.views)
}

// A part of a schema.
trait Same {
    ghost use Rattle.std.specs.Prelude.{◌≡◌, IsTrue, Bool};

    // Which parts are plain: what is the same as one of these is told to be.
    ghost is_plain: { Self → Bool };

    // Whether both are the same, and plain.
    fn is_same(&self, other: &Self) -> bool
        ensures same { IsTrue result → self.now ≡ other.now }
        ensures told { IsTrue (is_plain other.now) → self.now ≡ other.now → IsTrue result };
}

impl Same for usize {
    ghost is_plain = { λ _. true };

    fn is_same(&self, other: &usize) -> bool {
        *self == *other
    }
}

impl Same for Bytes {
    ghost is_plain = { λ _. true };

    fn is_same(&self, other: &Bytes) -> bool {
        self.as_slice() == other.as_slice()
    }
}

impl Same for Order {
    ghost is_plain = { λ _. true };

    fn is_same(&self, other: &Order) -> bool {
        *self == *other
    }
}

impl Same for Kind {
    ghost is_plain = { λ _. true };

    fn is_same(&self, other: &Kind) -> bool {
        *self == *other
    }
}

impl Same for Collation {
    ghost is_plain = { λ _. true };

    fn is_same(&self, other: &Collation) -> bool {
        *self == *other
    }
}

impl Same for Option<usize> {
    ghost is_plain = { λ _. true };

    fn is_same(&self, other: &Option<usize>) -> bool {
        *self == *other
    }
}

impl<T: Same> Same for Items<T> {
    ghost is_plain = { list_all T.is_plain };

    fn is_same(&self, other: &Items<T>) -> bool {
        let (ones, others) = (self.as_slice(), other.as_slice());
        if ones.len() != others.len() {
            return false;
        }
        for at in 0..ones.len() {
            if !ones[at].is_same(&others[at]) {
                return false;
            }
        }
        true
    }
}

// The default of a column. Only NULL is plain.
impl Same for Value {
    ghost is_plain = { is_null };

    fn is_same(&self, other: &Value) -> bool {
        matches!((self, other), (Value::Null, Value::Null))
    }
}

// Rules over rows. Only none at all is plain.
impl Same for Terms {
    ghost is_plain = { is_none };

    fn is_same(&self, other: &Terms) -> bool {
        self.roots.is_empty() & other.roots.is_empty()
    }
}

impl Same for Stamps {
    ghost is_plain = { λ stamps. is_none stamps.terms };

    #[tactic(auto, using(crate::proofs::Comparing::all_plain))]
    fn is_same(&self, other: &Stamps) -> bool {
        self.places.is_same(&other.places)
            & self.terms.is_same(&other.terms)
            & self.formats.is_same(&other.formats)
    }
}

// No reference to another table is plain.
impl Same for Reference {
    ghost is_plain = { λ _. false };

    fn is_same(&self, _: &Reference) -> bool {
        false
    }
}

// Nor is a view.
impl Same for View {
    ghost is_plain = { λ _. false };

    fn is_same(&self, _: &View) -> bool {
        false
    }
}

impl Same for Column {
    ghost is_plain = { is_plain_column };

    fn is_same(&self, other: &Column) -> bool {
        self.name.is_same(&other.name)
            & self.kind.is_same(&other.kind)
            & (self.is_strict == other.is_strict)
            & (self.not_null == other.not_null)
            & self.collation.is_same(&other.collation)
            & self.default.is_same(&other.default)
    }
}

impl Same for Index {
    ghost is_plain = { λ _. true };

    #[tactic(auto, using(crate::proofs::Comparing::all_plain))]
    fn is_same(&self, other: &Index) -> bool {
        self.name.is_same(&other.name)
            & (self.tree == other.tree)
            & (self.table == other.table)
            & self.columns.is_same(&other.columns)
            & self.order.is_same(&other.order)
            & (self.is_unique == other.is_unique)
    }
}

impl Same for Table {
    ghost is_plain = { is_plain_table };

    fn is_same(&self, other: &Table) -> bool {
        self.name.is_same(&other.name)
            & (self.tree == other.tree)
            & self.columns.is_same(&other.columns)
            & self.key.is_same(&other.key)
            & self.primary.is_same(&other.primary)
            & self.uniques.is_same(&other.uniques)
            & self.orders.is_same(&other.orders)
            & (self.is_counted == other.is_counted)
            & self.checks.is_same(&other.checks)
            & self.references.is_same(&other.references)
            & self.computed.is_same(&other.computed)
            & self.stamps.is_same(&other.stamps)
    }
}
