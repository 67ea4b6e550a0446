ghost use Rattle.std.specs.Prelude.{◌≡◌, ◌↔◌, [], false, IsTrue};
ghost use Rattle.gate_tables.specs.Calls.{BringsTo, Commits, Does};
ghost use Rattle.gate_tables.specs.Database.{schema_of};
ghost use Rattle.gate_tables.specs.Effects.{IsBlank, Made, MayBeBrought, MayBeTaken, Taken};

use crate::apply::change_all;
use crate::change::RowChange;
use crate::complete::complete;
use crate::create::create_version;
use crate::fault::TablesFault;
use crate::version::Version;
use sqlite::{Alter, Connection, Transaction};
use sqlite_schema::schema::Schema;

/// Whether there is no table, index or view.
pub fn is_blank(schema: &Schema) -> bool
    ensures { IsTrue result ↔ (schema.now ≡ schema_of []) }
{
    schema.tables.as_slice().is_empty()
        && schema.indexes.as_slice().is_empty()
        && schema.views.as_slice().is_empty()
}

// Makes the tables and these row changes in them, or changes nothing.
pub(crate) fn make<S: Alter>(
    conn: &mut Connection<S>,
    first: &[RowChange],
) -> Result<(), TablesFault>
    requires mode { conn.old.in_transaction ≡ false }
    ensures { Commits S.Store conn.old conn.new result IsBlank (λ _. Made first.now) }
{
    let mut tx = conn.transaction();
    create_version(&mut tx, Version::Version2)?;
    change_all(&mut tx, first)?;
    Ok(tx.commit()?)
}

// Brings the tables of a version to those of the last one, and makes these row changes.
fn bring<S: Alter>(
    tx: &mut Transaction<'_, S>,
    version: Version,
    changes: &[RowChange],
) -> Result<(), TablesFault>
    ensures { Does S.Store tx.old tx.new (BringsTo result version changes.now) }
{
    complete(tx, version)?;
    change_all(tx, changes)
}

// The same in a transaction, or it changes nothing.
fn bring_all<S: Alter>(
    conn: &mut Connection<S>,
    version: Version,
    changes: &[RowChange],
) -> Result<(), TablesFault>
    requires mode { conn.old.in_transaction ≡ false }
    ensures { Commits S.Store conn.old conn.new result (MayBeBrought version) (Taken changes.now) }
{
    let mut tx = conn.transaction();
    bring(&mut tx, version, changes)?;
    Ok(tx.commit()?)
}

// Brings a database of any version to the last one, and makes these row changes in it, or changes nothing.
pub(crate) fn take_over<S: Alter>(
    conn: &mut Connection<S>,
    changes: &[RowChange],
) -> Result<(), TablesFault>
    requires mode { conn.old.in_transaction ≡ false }
    ensures { Commits S.Store conn.old conn.new result MayBeTaken (Taken changes.now) }
{
    let version = Version::of(conn.schema());
    bring_all(conn, version, changes)
}
