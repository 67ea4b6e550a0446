ghost use Rattle.std.specs.Prelude.{◌≡◌, [], None, false, IfOk, IfErr, OnOk};
ghost use Rattle.std.specs.FinMap.{empty, get, insert};
ghost use Rattle.gate_tables.specs.Applied.{applied, no_rows};
ghost use Rattle.gate_tables.specs.Contents.{AreSame};
ghost use Rattle.gate_tables.specs.Database.{schema_of};
ghost use Rattle.gate_tables.specs.Tables.{AllOrNothing, ChangesNothing, HandsBack, HasAnswers, HasRows, TakesOver, is_sound, rows_in, answers_in, IsBook, Stands};
ghost use Rattle.sqlite.specs.Held.{state};

use crate::answers::find_answer;
use crate::apply::apply_all;
use crate::change::RowChange;
use crate::fault::TablesFault;
use crate::look::read;
use crate::make::make;
use crate::row::Rows;
use gate_text::Text;
use sqlite::{Alter, Connection};
use std::alloc::Global;
use std::marker::Model;

/// A connection in which no tables were made, found or taken over, with the reason.
#[derive(Drop)]
pub struct NotMade<S: Alter> {
    /// `Memory` or `Store`.
    pub fault: TablesFault,
    /// The connection, with its database as it was.
    pub connection: Connection<S>,
}

/// The tables of the records in a database. A contract sees them as what their connection holds.
#[derive(Drop)]
pub struct Tables<S: Alter> {
    connection: Connection<S>,
}

impl<S: Alter> Model for Tables<S> {
    ghost use Rattle.sqlite.specs.Held.{Held, held_code};
    ghost use Rattle.gate_tables.specs.Tables.{Stands};

    ghost Value = { Held S };

    ghost coded = { held_code S.code };

    ghost view = { λ t. t.connection };

    ghost invariant = { λ t. Stands S.Store t.connection };
}

impl<S: Alter> Tables<S> {
    /// Makes the tables in a database that has no table, index or view, and makes these row changes in them, in their order. They
    /// begin with no rows, and with no answer. If it is refused, the database is as it was, and the connection is handed back.
    /// `Store` if the database fails, and `Memory` if there is no memory for it.
    pub fn new(mut connection: Connection<S>, first: &[RowChange]) -> Result<Tables<S>, NotMade<S>>
        requires mode { connection.in_transaction ≡ false }
        requires blank { (state S.Store connection).now.schema ≡ schema_of [] }
        ensures rows { IfOk result (λ tables. HasRows S.Store tables (applied first.now no_rows)) }
        ensures answers { IfOk result (λ tables. HasAnswers S.Store tables empty) }
        ensures takes_over { IfOk result (λ tables. TakesOver S.Store connection tables) }
        ensures hands_back { IfErr result (λ refused. HandsBack S.Store connection refused.connection) }
    {
        // That no transaction is open says that the database is as it was committed.
        if !connection.is_autocommit() {
            return Err(NotMade {
                fault: TablesFault::Store,
                connection,
            });
        }
        match make(&mut connection, first) {
            Ok(()) => Ok(Tables { connection }),
            Err(fault) => Err(NotMade { fault, connection }),
        }
    }

    // The tables of a connection that has all of them.
    pub(crate) fn of(connection: Connection<S>) -> Tables<S>
        requires stands { Stands S.Store connection }
        ensures value { result ≡ connection }
    {
        Tables { connection }
    }

    /// Hands back the connection as it is: no transaction is open.
    pub fn into_connection(self) -> Connection<S>
        ensures value { result ≡ self }
        ensures mode { result.in_transaction ≡ false }
    {
        let Tables { connection } = self;
        connection
    }

    /// The connection as it is. No transaction is open. If it is sound, its database has the nine tables and nothing besides, in
    /// each column of a row a value of its kind, and no two rows of a table with one key.
    pub fn connection(&self) -> &Connection<S>
        ensures value { result.now ≡ self.now }
        ensures mode { self.now.in_transaction ≡ false }
        ensures book { is_sound S.Store self.now → IsBook (state S.Store self.now) }
    {
        &self.connection
    }

    /// The rows of all tables but `answers`. It changes nothing. `Store` if the database fails, or if a row has values of
    /// other kinds or no rowid of its own, and `Memory` if there is no memory for it.
    pub fn read(&mut self, alloc: Global) -> Result<Rows, TablesFault>
        ensures rows { is_sound S.Store self.new → IfOk result (AreSame (rows_in S.Store self.old)) }
        ensures changes_nothing { ChangesNothing S.Store self.old self.new result }
    {
        read(alloc, &mut self.connection)
    }

    /// The answer under an identifier, if there is one. It changes nothing. `Store` if the database fails, and `Memory` if
    /// there is no memory for it.
    pub fn answer(&mut self, id: &str) -> Result<Option<Text>, TablesFault>
        ensures answer { is_sound S.Store self.new
            → IfOk result (λ answer. answer ≡ get (answers_in S.Store self.old) id.now) }
        ensures changes_nothing { ChangesNothing S.Store self.old self.new result }
    {
        find_answer(&mut self.connection, id)
    }

    /// Makes row changes, in their order, and adds an answer under an identifier that has none, all or nothing: if it is refused,
    /// nothing changed. A row is found by its key alone, and no other row is touched. `Store` if the database fails, and `Memory`
    /// if there is no memory for it.
    pub fn apply(&mut self, changes: &[RowChange], id: &str, body: &str) -> Result<(), TablesFault>
        requires free { is_sound S.Store self.old → get (answers_in S.Store self.old) id.now ≡ None }
        ensures rows { is_sound S.Store self.new
            → OnOk result (AreSame (rows_in S.Store self.new) (applied changes.now (rows_in S.Store self.old))) }
        ensures answers { is_sound S.Store self.new
            → OnOk result (answers_in S.Store self.new ≡ insert (answers_in S.Store self.old) id.now body.now) }
        ensures all_or_nothing { AllOrNothing S.Store self.old self.new result }
    {
        apply_all(&mut self.connection, changes, id, body)
    }
}
