ghost use Rattle.std.specs.Prelude.{◌≡◌, false, IfOk, IfErr};
ghost use Rattle.gate_tables.specs.Applied.{applied};
ghost use Rattle.gate_tables.specs.Schemas.{HasTables};
ghost use Rattle.gate_tables.specs.Tables.{AreContents, HandsBack, HasAnswers, HasRows, HoldsTheSame, Outlasts, TakesOver, answers_in, stored_in};
ghost use Rattle.sqlite.specs.Held.{state};

use crate::change::RowChange;
use crate::fault::TablesFault;
use crate::look::{Contents, look};
use crate::make::take_over;
use crate::tables::{NotMade, Tables};
use sqlite::{Alter, Connection};
use std::alloc::Global;
use std::marker::Model;

/// The tables that a database had, of any version of the schema, before they are taken over. A contract sees them as what their
/// connection holds.
#[derive(Drop)]
pub struct FoundTables<S: Alter> {
    connection: Connection<S>,
}

impl<S: Alter> Model for FoundTables<S> {
    ghost use Rattle.sqlite.specs.Held.{Held, held_code};
    ghost use Rattle.gate_tables.specs.Tables.{AreFound};

    ghost Value = { Held S };

    ghost coded = { held_code S.code };

    ghost view = { λ found. found.connection };

    ghost invariant = { λ found. AreFound S.Store found.connection };
}

impl<S: Alter> FoundTables<S> {
    /// Reads all that the tables of a database hold, and changes nothing. `Store` if the database fails, or if a row has no rowid
    /// of its own or a value of another kind, and `Memory` if there is no memory for it. Then the connection is handed back.
    pub fn open(
        alloc: Global,
        mut connection: Connection<S>,
    ) -> Result<(FoundTables<S>, Contents), NotMade<S>>
        requires mode { connection.in_transaction ≡ false }
        requires tables { HasTables (state S.Store connection).now }
        ensures contents { IfOk result (λ found. AreContents S.Store found.0 found.1) }
        ensures found { IfOk result (λ found. HoldsTheSame S.Store connection found.0) }
        ensures outlasts { IfOk result (λ found. Outlasts S.Store connection found.0) }
        ensures hands_back { IfErr result (λ refused. HandsBack S.Store connection refused.connection) }
    {
        // That no transaction is open says that the database is as it was committed.
        if !connection.is_autocommit() {
            return Err(NotMade {
                fault: TablesFault::Store,
                connection,
            });
        }
        match look(alloc, &mut connection) {
            Ok(contents) => Ok((FoundTables { connection }, contents)),
            Err(fault) => Err(NotMade { fault, connection }),
        }
    }

    /// Makes the tables that the last version has besides, and these row changes, in their order, all in one transaction or not at
    /// all. The answers stay. If it is refused, the database is as it was, and the connection is handed back. `Store` if the
    /// database fails, and `Memory` if there is no memory for it.
    pub fn take(self, changes: &[RowChange]) -> Result<Tables<S>, NotMade<S>>
        ensures rows { IfOk result (λ tables. HasRows S.Store tables (applied changes.now (stored_in S.Store self))) }
        ensures answers { IfOk result (λ tables. HasAnswers S.Store tables (answers_in S.Store self)) }
        ensures takes_over { IfOk result (λ tables. TakesOver S.Store self tables) }
        ensures hands_back { IfErr result (λ refused. HandsBack S.Store self refused.connection) }
    {
        let FoundTables { mut connection } = self;
        match take_over(&mut connection, changes) {
            Ok(()) => Ok(Tables::of(connection)),
            Err(fault) => Err(NotMade { fault, connection }),
        }
    }

    /// Hands back the connection with its database as it was found.
    pub fn into_connection(self) -> Connection<S>
        ensures value { result ≡ self }
        ensures mode { result.in_transaction ≡ false }
    {
        let FoundTables { connection } = self;
        connection
    }
}
