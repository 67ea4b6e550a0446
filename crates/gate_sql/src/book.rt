ghost use Rattle.std.specs.Prelude.{◌≡◌, None, false, IfOk, IfErr, IsErrAnd};
ghost use Rattle.std.specs.Option.{option_map};
ghost use Rattle.gate_tables.specs.Applied.{no_rows as no_rows_at_all};
ghost use Rattle.gate_sql.specs.Faults.{MayRefuse, MayRefuseOf};
ghost use Rattle.gate_sql.specs.Shown.{CommitsTables, shown, Holds, IsHeld};
ghost use Rattle.gate_sql.specs.Versions.{HasNoTables, LeadTo, OpensAs, ShowsWhat, StandsFor, new_records};
ghost use Rattle.gate_tables.specs.Schemas.{HasTables, IsFound, version_of};
ghost use Rattle.gate_tables.specs.Tables.{HandsBack, ShowsTheSame, Outlasts, TakesOver, is_sound, rows_in, answers_in, IsBook};
ghost use Rattle.gate_answers.specs.Reading.{answer_of};
ghost use Rattle.gate_store.specs.Performing.{HasItsText, LeadsFrom};
ghost use Rattle.gate_store.specs.Run.{IsOfBooks, kept_under, with_answer};
ghost use Rattle.sqlite.specs.Held.{state};

use crate::fault::told;
use crate::gate::gate_of;
use crate::opening::understood;
use gate_queue::{Fault, Gate};
use gate_rows::{
    changes_since, is_of_machine, law_of_changed_rows, law_of_keys, law_of_keys_of, law_of_rows,
    law_of_rows_of, row_changes, rows_of,
};
use gate_store::{
    Answer, AnswerFault, Answered, Book, Performed, answer_text, law_of_texts, read_answer,
};
use gate_tables::{
    Found, FoundTables, RowChange, Rows, Tables, TablesFault, Version, found_in, is_blank,
    law_of_differences,
};
use gate_text::{DeliveryId, List, Text};
use sqlite::{Alter, Connection};
use std::alloc::{AllocError, Global};
use std::marker::Model;

/// A connection in which no book was made, with the reason.
#[derive(Drop)]
pub struct Refused<S: Alter> {
    /// `Memory` or `Store`, and of `SqlBook::open` also `Foreign`.
    pub fault: Fault,
    /// The connection, with its database as it was.
    pub connection: Connection<S>,
}

/// A book in a SQLite database. A contract sees it as what its connection holds.
#[derive(Drop)]
pub struct SqlBook<S: Alter> {
    tables: Tables<S>,
}

impl<S: Alter> Model for SqlBook<S> {
    ghost use Rattle.sqlite.specs.Held.{Held, held_code};
    ghost use Rattle.gate_sql.specs.Shown.{Keeps};

    ghost Value = { Held S };

    ghost coded = { held_code S.code };

    ghost view = { λ book. book.tables };

    // Its tables hold the rows and texts of what it shows, and nothing besides.
    ghost invariant = { λ book. Keeps S.Store book.tables };
}

impl<S: Alter> SqlBook<S> {
    /// Makes the tables in a database that has no table, index or view, with the state of a gate without batches on an empty
    /// desk, whose first batch will have the number 1, and without answers. If it is refused, the database is as it was, and the
    /// connection is handed back. `Store` if the database has a table, an index or a view, or if it fails. `Memory` if there is
    /// no memory for it.
    pub fn new(alloc: Global, connection: Connection<S>) -> Result<SqlBook<S>, Refused<S>>
        requires { connection.in_transaction ≡ false }
        ensures value { IfOk result (λ book. is_sound S.Store book → shown S.Store book ≡ new_records) }
        ensures holds { IfOk result (λ book. is_sound S.Store book → Holds S.Store book) }
        ensures taken { ¬ HasNoTables (state S.Store connection).now
            → IsErrAnd result (λ refused. refused.fault ≡ Fault.Store) }
        ensures fault { IfErr result (λ refused. IsOfBooks refused.fault) }
        ensures takes_over { IfOk result (λ book. TakesOver S.Store connection book) }
        ensures hands_back { IfErr result (λ refused. HandsBack S.Store connection refused.connection) }
    {
        if !is_blank(connection.schema()) {
            return Err(Refused {
                fault: Fault::Store,
                connection,
            });
        }
        let gate = Gate::new(alloc);
        law_of_rows_of(&gate);
        is_of_machine(&gate);
        let first = first_changes(alloc, &gate);
        drop(gate);
        let first = match first {
            Ok(first) => first,
            Err(_) => {
                return Err(Refused {
                    fault: Fault::Memory,
                    connection,
                });
            }
        };
        match Tables::new(connection, first.as_slice()) {
            Ok(tables) => {
                tables.connection();
                Ok(SqlBook { tables })
            }
            Err(refused) => Err(Refused {
                fault: told(refused.fault),
                connection: refused.connection,
            }),
        }
    }

    /// Opens the book that a database of any schema version keeps, and brings one of an earlier version to the last, with the same
    /// state and the same answers, in one transaction. In a database that has no table, index or view it makes one, as `new` does. If
    /// it is refused, the database is as it was, and the connection is handed back. But if the disk fails at the end of that
    /// transaction, it may be of the last version already, with the same records; the next opening shows it. `Foreign` if the tables
    /// are those of a version, but what they hold stands for no state and answers of it. `Store` if the tables, their columns, keys or
    /// indexes are others, or if the database fails. `Memory` if there is no memory for it.
    pub fn open(alloc: Global, connection: Connection<S>) -> Result<SqlBook<S>, Refused<S>>
        requires { connection.in_transaction ≡ false }
        ensures stands { IfOk result (λ book. ShowsWhat OpensAs S.Store connection book) }
        ensures holds { IfOk result (λ book. is_sound S.Store book → Holds S.Store book) }
        ensures others { ¬ HasNoTables (state S.Store connection).now → ¬ HasTables (state S.Store connection).now
            → IsErrAnd result (λ refused. IsOfBooks refused.fault) }
        ensures fault { IfErr result (λ refused. MayRefuseOf (state S.Store connection).now refused.fault) }
        ensures takes_over { IfOk result (λ book. TakesOver S.Store connection book) }
        ensures hands_back { IfErr result (λ refused. HandsBack S.Store connection refused.connection) }
    {
        match found_in(alloc, connection.schema()) {
            Ok(found) => open_found(alloc, connection, found),
            Err(fault) => Err(refusal(told(fault), connection)),
        }
    }

    /// Hands back the connection as it is. No transaction is open, and if the connection is sound, its tables hold the rows and
    /// texts of what the book shows, and nothing besides.
    pub fn into_connection(self) -> Connection<S>
        ensures value { result ≡ self }
        ensures mode { result.in_transaction ≡ false }
        ensures holds { is_sound S.Store result → Holds S.Store result }
    {
        let SqlBook { tables } = self;
        tables.connection();
        tables.into_connection()
    }
}

impl<S: Alter> Book for SqlBook<S> {
    ghost use Rattle.gate_store.specs.Run.{IsOfBooks};
    ghost use Rattle.gate_sql.specs.Shown.{shown};
    ghost use Rattle.gate_tables.specs.Tables.{is_honest, is_shielded, is_sound};

    ghost shows = { λ book. shown S.Store book };

    // The disk has returned what was written, and no fault has shut the connection.
    ghost is_sound = { λ book. is_sound S.Store book };

    ghost is_honest = { λ book. is_honest S.Store book };

    ghost is_shielded = { λ book. is_shielded S.Store book };

    ghost sound_is_honest = { λ book sound. sound.0 };

    ghost may_answer = { IsOfBooks };

    fn load(&mut self, alloc: Global) -> Result<Gate, Fault> {
        let rows = match self.tables.read(alloc) {
            Ok(rows) => rows,
            Err(fault) => return Err(told(fault)),
        };
        gate_of(alloc, rows)
    }

    fn kept(&mut self, alloc: Global, id: &DeliveryId) -> Result<Option<Answer>, Fault> {
        let body = match self.tables.answer(id.text()) {
            Ok(body) => body,
            Err(fault) => return Err(told(fault)),
        };
        answer_in(alloc, body)
    }

    /// It is the text as the table has it, which was written for its answer.
    fn kept_text(&mut self, alloc: Global, id: &DeliveryId) -> Result<Option<String>, Fault> {
        match self.tables.answer(id.text()) {
            Ok(Some(body)) => Ok(Some(String::from_str(alloc, body.as_str())?)),
            Ok(None) => Ok(None),
            Err(fault) => Err(told(fault)),
        }
    }

    /// Keeps the state of a gate in place of the one before, and an answer under an identifier that has none, both or neither. It
    /// reads the rows that stand, and writes those that differ from the gate's. If the connection is sound, the tables then hold
    /// the rows and texts of what the book shows, and nothing besides.
    fn commit(
        &mut self,
        alloc: Global,
        gate: &Gate,
        id: &DeliveryId,
        answer: &Answer,
    ) -> Result<(), Fault>
        requires free { is_sound S.Store self.old → kept_under (shown S.Store self.old) id.now ≡ None }
        ensures commits { CommitsTables S.Store self.old self.new result
            (with_answer (shown S.Store self.old) gate.now id.now answer.now) }
        ensures holds { is_sound S.Store self.new → Holds S.Store self.new }
    {
        law_of_rows_of(gate);
        is_of_machine(gate);
        let changes = match changes_to(alloc, &mut self.tables, gate) {
            Ok(changes) => changes,
            Err(fault) => return Err(told(fault)),
        };
        let body = answer_text(alloc, answer)?;
        let written = self
            .tables
            .apply(changes.as_slice(), id.text(), body.as_str());
        drop(changes);
        self.tables.connection();
        match written {
            Ok(()) => Ok(()),
            Err(fault) => Err(told(fault)),
        }
    }

    /// Does what `commit` does, and reads nothing. It writes the rows that differ among those of the parts that were noted, and the
    /// rows of new batches.
    fn commit_since(
        &mut self,
        alloc: Global,
        performed: Performed,
        gate: &Gate,
        id: &DeliveryId,
        answered: &Answered,
    ) -> Result<(), Fault>
        requires free { is_sound S.Store self.old → kept_under (shown S.Store self.old) id.now ≡ None }
        requires leads { is_sound S.Store self.old → LeadsFrom (shown S.Store self.old).state performed gate.now }
        requires text { HasItsText answered.now }
        ensures commits { CommitsTables S.Store self.old self.new result
            (with_answer (shown S.Store self.old) gate.now id.now answered.now.answer) }
        ensures holds { is_sound S.Store self.new → Holds S.Store self.new }
    {
        // Its contract tells what the database is.
        self.tables.connection();
        law_of_rows_of(gate);
        is_of_machine(gate);
        let changes = changes_since(alloc, &performed.before, gate)?;
        drop(performed);
        let body = answered.text.as_str();
        let written = self.tables.apply(changes.as_slice(), id.text(), body);
        drop(changes);
        self.tables.connection();
        if let Err(fault) = written {
            return Err(told(fault));
        }
        Ok(())
    }
}

// The book that a database keeps which has these tables.
fn open_found<S: Alter>(
    alloc: Global,
    connection: Connection<S>,
    found: Found,
) -> Result<SqlBook<S>, Refused<S>>
    requires mode { connection.in_transaction ≡ false }
    requires found { IsFound found (state S.Store connection).now.schema }
    ensures stands { IfOk result (λ book. ShowsWhat OpensAs S.Store connection book) }
    ensures holds { IfOk result (λ book. is_sound S.Store book → Holds S.Store book) }
    ensures others { found ≡ Found.Others → IsErrAnd result (λ refused. refused.fault ≡ Fault.Store) }
    ensures fault { IfErr result (λ refused. MayRefuseOf (state S.Store connection).now refused.fault) }
    ensures takes_over { IfOk result (λ book. TakesOver S.Store connection book) }
    ensures hands_back { IfErr result (λ refused. HandsBack S.Store connection refused.connection) }
{
    match found {
        Found::Nothing => SqlBook::new(alloc, connection),
        Found::Tables(version) => adopt(alloc, connection, version),
        Found::Others => Err(refusal(Fault::Store, connection)),
    }
}

// The book that a database with tables of this version keeps.
fn adopt<S: Alter>(
    alloc: Global,
    connection: Connection<S>,
    version: Version,
) -> Result<SqlBook<S>, Refused<S>>
    requires mode { connection.in_transaction ≡ false }
    requires tables { HasTables (state S.Store connection).now }
    requires version { version ≡ version_of (state S.Store connection).now.schema }
    ensures stands { IfOk result (λ book. ShowsWhat StandsFor S.Store connection book) }
    ensures holds { IfOk result (λ book. is_sound S.Store book → Holds S.Store book) }
    ensures fault { IfErr result (λ refused. MayRefuse refused.fault) }
    ensures takes_over { IfOk result (λ book. TakesOver S.Store connection book) }
    ensures hands_back { IfErr result (λ refused. HandsBack S.Store connection refused.connection) }
{
    law_of_rows();
    let (found, contents) = match FoundTables::open(alloc, connection) {
        Ok(found) => found,
        Err(refused) => return Err(refusal(told(refused.fault), refused.connection)),
    };
    match understood(alloc, contents, version) {
        Ok(changes) => match found.take(changes.as_slice()) {
            Ok(tables) => {
                tables.connection();
                Ok(SqlBook { tables })
            }
            Err(refused) => Err(refusal(told(refused.fault), refused.connection)),
        },
        Err(fault) => Err(refusal(fault, found.into_connection())),
    }
}

// A connection that is handed back, with the reason.
fn refusal<S: Alter>(fault: Fault, connection: Connection<S>) -> Refused<S>
    ensures fault { result.fault ≡ fault }
    ensures connection { result.connection ≡ connection }
{
    Refused { fault, connection }
}

// The row changes that lead from no rows to those of a gate.
fn first_changes(alloc: Global, gate: &Gate) -> Result<Vec<RowChange>, AllocError>
    ensures { IfOk result (λ first. LeadTo gate.now first.items no_rows_at_all) }
{
    law_of_differences();
    law_of_keys_of(gate);
    let rows = rows_of(alloc, gate)?;
    row_changes(alloc, no_rows(alloc), rows)
}

fn no_rows(alloc: Global) -> Rows
    ensures { result ≡ no_rows_at_all }
{
    Rows {
        desk: List::from(Vec::new(alloc)),
        people: List::from(Vec::new(alloc)),
        changes: List::from(Vec::new(alloc)),
        marks: List::from(Vec::new(alloc)),
        batches: List::from(Vec::new(alloc)),
        members: List::from(Vec::new(alloc)),
        statuses: List::from(Vec::new(alloc)),
        wanted: List::from(Vec::new(alloc)),
    }
}

// The row changes that lead from the rows of the tables, if they are those of a state, to the rows of a gate.
fn changes_to<S: Alter>(
    alloc: Global,
    tables: &mut Tables<S>,
    gate: &Gate,
) -> Result<Vec<RowChange>, TablesFault>
    ensures led { is_sound S.Store tables.new → IsHeld (rows_in S.Store tables.old) (answers_in S.Store tables.old)
        → IfOk result (λ changes. LeadTo gate.now changes.items (rows_in S.Store tables.old)) }
    ensures same { is_sound S.Store tables.new → ShowsTheSame S.Store tables.old tables.new }
    ensures outlasts { Outlasts S.Store tables.old tables.new }
    ensures book { is_sound S.Store tables.new → IsBook (state S.Store tables.new) }
{
    law_of_changed_rows();
    law_of_keys();
    is_of_machine(gate);
    let read = tables.read(alloc);
    // Its contract tells what the database is.
    tables.connection();
    let rows = read?;
    let now = rows_of(alloc, gate)?;
    Ok(row_changes(alloc, rows, now)?)
}

// The answer whose text this is, if there is one. `Store` if it is the text of none.
fn answer_in(alloc: Global, body: Option<Text>) -> Result<Option<Answer>, Fault>
    ensures value { IfOk result (λ answer. answer ≡ option_map answer_of body) }
    ensures fault { IfErr result IsOfBooks }
{
    law_of_texts();
    let Some(body) = body else {
        return Ok(None);
    };
    match read_answer(alloc, body.as_str()) {
        Ok(answer) => Ok(Some(answer)),
        Err(AnswerFault::NotAnswer) => Err(Fault::Store),
        Err(AnswerFault::Memory) => Err(Fault::Memory),
    }
}
