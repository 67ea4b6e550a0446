ghost use Rattle.std.specs.Prelude.{◌≡◌, false, IfOk};
ghost use Rattle.gate_tables.specs.Calls.{MakesTables};
ghost use Rattle.gate_tables.specs.Schemas.{IsFound, table_count};

use crate::create::create_version;
use crate::fault::TablesFault;
use crate::make::is_blank;
use crate::same_schema::is_same;
use crate::version::Version;
use sqlite::{Alter, Connection};
use sqlite_schema::schema::Schema;
use std::alloc::Global;

/// Which tables a database has.
#[derive(Clone, Copy, Debug, Drop, PartialEq, Eq)]
pub enum Found {
    /// No table, index or view.
    Nothing,
    /// The tables of this version, and nothing besides.
    Tables(Version),
    /// Anything else.
    Others,
}

/// Tells which tables a schema has. `Memory` if there is no memory for it.
pub fn found_in(alloc: Global, schema: &Schema) -> Result<Found, TablesFault>
    ensures { IfOk result (λ found. IsFound found schema.now) }
{
    if is_blank(schema) {
        return Ok(Found::Nothing);
    }
    let version = Version::of(schema);
    // The tables are made in memory, so that their columns stand in one place.
    let mut model = Connection::open_in_memory(alloc)?;
    make_version(&mut model, version)?;
    if is_same(schema, model.schema()) {
        return Ok(Found::Tables(version));
    }
    Ok(Found::Others)
}

// Makes the tables of a version, which have no rows, in a database that has none.
fn make_version<S: Alter>(conn: &mut Connection<S>, version: Version) -> Result<(), TablesFault>
    requires mode { conn.old.in_transaction ≡ false }
    ensures { MakesTables S.Store conn.old conn.new result 0 (table_count version) }
{
    let mut tx = conn.transaction();
    create_version(&mut tx, version)?;
    Ok(tx.commit()?)
}
