ghost use Rattle.gate_tables.specs.Calls.{CreatesTables, CreatesWanted, Does};
ghost use Rattle.gate_tables.specs.Schemas.{table_count};

use crate::fault::TablesFault;
use crate::statement::run;
use crate::version::Version;
use sqlite::{Alter, Transaction};

fn create_first<S: Alter>(tx: &mut Transaction<'_, S>) -> Result<(), TablesFault>
    ensures { Does S.Store tx.old tx.new (CreatesTables result 0 4) }
{
    run(
        tx,
        "CREATE TABLE desk (one INTEGER NOT NULL, version INTEGER NOT NULL, next_batch INTEGER NOT NULL, clock INTEGER NOT NULL, base TEXT NOT NULL, timeout_sec INTEGER NOT NULL, required_approvals INTEGER NOT NULL, max_batch_size INTEGER NOT NULL, PRIMARY KEY (one)) STRICT",
        &[],
    )?;
    run(
        tx,
        "CREATE TABLE people (name TEXT NOT NULL, role INTEGER NOT NULL, PRIMARY KEY (name)) STRICT",
        &[],
    )?;
    run(
        tx,
        "CREATE TABLE changes (number INTEGER NOT NULL, author TEXT NOT NULL, head TEXT NOT NULL, phase INTEGER NOT NULL, priority INTEGER NOT NULL, approved INTEGER NOT NULL, last_command INTEGER NOT NULL, PRIMARY KEY (number)) STRICT",
        &[],
    )?;
    run(
        tx,
        "CREATE TABLE marks (change_no INTEGER NOT NULL, kind INTEGER NOT NULL, word TEXT NOT NULL, place INTEGER NOT NULL, PRIMARY KEY (change_no, kind, word)) STRICT",
        &[],
    )
}

fn create_last<S: Alter>(tx: &mut Transaction<'_, S>) -> Result<(), TablesFault>
    ensures { Does S.Store tx.old tx.new (CreatesTables result 4 8) }
{
    run(
        tx,
        "CREATE TABLE batches (number INTEGER NOT NULL, branch INTEGER NOT NULL, priority INTEGER NOT NULL, again INTEGER NOT NULL, phase INTEGER NOT NULL, since INTEGER NOT NULL, sha TEXT NOT NULL, PRIMARY KEY (number)) STRICT",
        &[],
    )?;
    run(
        tx,
        "CREATE TABLE members (batch INTEGER NOT NULL, place INTEGER NOT NULL, change_no INTEGER NOT NULL, PRIMARY KEY (batch, place)) STRICT",
        &[],
    )?;
    run(
        tx,
        "CREATE TABLE statuses (batch INTEGER NOT NULL, name TEXT NOT NULL, report INTEGER NOT NULL, PRIMARY KEY (batch, name)) STRICT",
        &[],
    )?;
    run(
        tx,
        "CREATE TABLE answers (id TEXT NOT NULL, body TEXT NOT NULL, PRIMARY KEY (id)) STRICT",
        &[],
    )
}

// Makes the eight tables of version 1, which have no rows, in a database that has none.
fn create_version_1<S: Alter>(tx: &mut Transaction<'_, S>) -> Result<(), TablesFault>
    ensures { Does S.Store tx.old tx.new (CreatesTables result 0 8) }
{
    create_first(tx)?;
    create_last(tx)
}

// Makes the table that version 2 has besides.
pub(crate) fn create_wanted<S: Alter>(tx: &mut Transaction<'_, S>) -> Result<(), TablesFault>
    ensures { Does S.Store tx.old tx.new (CreatesWanted result) }
{
    run(
        tx,
        "CREATE TABLE wanted (kind INTEGER NOT NULL, place INTEGER NOT NULL, word TEXT NOT NULL, PRIMARY KEY (kind, place)) STRICT",
        &[],
    )
}

// Makes the tables of a version, which have no rows, in a database that has none.
pub(crate) fn create_version<S: Alter>(
    tx: &mut Transaction<'_, S>,
    version: Version,
) -> Result<(), TablesFault>
    ensures { Does S.Store tx.old tx.new (CreatesTables result 0 (table_count version)) }
{
    match version {
        Version::Version1 => create_version_1(tx),
        Version::Version2 => {
            create_version(tx, Version::Version1)?;
            create_wanted(tx)
        }
    }
}
