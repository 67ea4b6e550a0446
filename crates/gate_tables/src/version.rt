ghost use Rattle.std.specs.Prelude.{◌≡◌};
ghost use Rattle.gate_tables.specs.Schemas.{version_of};

use sqlite_schema::schema::Schema;

/// A version of the schema. Each has the tables of the one before it, and others behind them.
#[derive(Clone, Copy, Debug, Drop, PartialEq, Eq)]
pub enum Version {
    /// Eight tables.
    Version1,
    /// Those, and the table `wanted`. It is the last version, to which the others are brought.
    Version2,
}

impl Version {
    // The version of a schema, if it is that of one.
    pub(crate) fn of(schema: &Schema) -> Version
        ensures { result ≡ version_of schema.now }
    {
        if schema.tables.len() == 8 {
            Version::Version1
        } else {
            Version::Version2
        }
    }
}
