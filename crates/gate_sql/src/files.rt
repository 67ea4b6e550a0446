ghost use Rattle.std.specs.Prelude.{◌≡◌, IfErr, IfOk, IsTrue, false};
ghost use Rattle.gate_sql.specs.Faults.{MayRefuse, told_of_files};
ghost use Rattle.gate_sql.specs.Files.{ConnectsTo, StandIn, held_by};
ghost use Rattle.gate_sql.specs.Shown.{shown};
ghost use Rattle.gate_sql.specs.Versions.{OpensAs, ShowsWhat};
ghost use Rattle.gate_tables.specs.Tables.{TakesOver, is_honest, is_shielded, is_sound};
ghost use Rattle.sqlite.specs.Files.{image_of, over_files};
ghost use Rattle.sqlite_disk.specs.Memory.{memory_is_usable};

use crate::book::SqlBook;
use gate_queue::Fault;
use sqlite::{Alter, Connection, Error, ErrorCode, FileStore, Files, Options};
use sqlite_disk::{Disk, Memory};
use std::alloc::Global;

/// The book that a log and a database file keep, of neither of which a sync has failed. Files that have nothing get the tables and no
/// records. If it is refused, the files are let go. `Store` if they hold no database, or the disk fails; `Foreign`, `Store` and `Memory` as
/// `SqlBook::open` answers them.
pub fn book_in_files<D: Disk + Drop>(
    alloc: Global,
    files: Files<D>,
    options: Options,
) -> Result<SqlBook<FileStore<D>>, Fault>
    requires log { IsTrue (D.Disk.is_usable files.log) }
    requires db { IsTrue (D.Disk.is_usable files.db) }
    // If the disk has returned what was written, the records are those for which the two files stood.
    ensures records { IfOk result (λ book. is_honest over_files book
        → StandIn (image_of D.Disk files) (shown over_files book)) }
    ensures stays { IfOk result (λ book. is_honest over_files book → is_sound over_files book) }
    ensures shield { IfOk result (λ book. is_honest over_files book → is_shielded over_files book) }
    ensures fault { IfErr result MayRefuse }
{
    match connected(alloc, files, options) {
        Ok(connection) => opened(alloc, connection),
        Err(fault) => Err(fault),
    }
}

/// The same over files in memory, which always return what was written. So the records are those for which the files stood, without a
/// premise.
pub fn book_in_files_in_memory(
    alloc: Global,
    files: Files<Memory>,
    options: Options,
) -> Result<SqlBook<FileStore<Memory>>, Fault>
    requires log { IsTrue (memory_is_usable files.log) }
    requires db { IsTrue (memory_is_usable files.db) }
    ensures records { IfOk result (λ book. StandIn (held_by files) (shown over_files book)) }
    ensures honest { IfOk result (λ book. is_honest over_files book) }
    ensures sound { IfOk result (λ book. is_sound over_files book) }
    ensures fault { IfErr result MayRefuse }
{
    book_in_files(alloc, files, options)
}

// A connection to the database of two files.
fn connected<D: Disk + Drop>(
    alloc: Global,
    files: Files<D>,
    options: Options,
) -> Result<Connection<FileStore<D>>, Fault>
    requires log { IsTrue (D.Disk.is_usable files.log) }
    requires db { IsTrue (D.Disk.is_usable files.db) }
    ensures connects { IfOk result (ConnectsTo files) }
    ensures fault { IfErr result MayRefuse }
{
    match Connection::open_files(alloc, files, options) {
        Ok(connection) => Ok(connection),
        Err((error, _)) => Err(told(error)),
    }
}

// The book that a database keeps. A connection whose store is known is dear to prove.
fn opened<S: Alter + Drop>(alloc: Global, connection: Connection<S>) -> Result<SqlBook<S>, Fault>
    requires { connection.in_transaction ≡ false }
    ensures stands { IfOk result (λ book. ShowsWhat OpensAs S.Store connection book) }
    ensures takes_over { IfOk result (λ book. TakesOver S.Store connection book) }
    ensures fault { IfErr result MayRefuse }
{
    match SqlBook::open(alloc, connection) {
        Ok(book) => Ok(book),
        Err(refused) => Err(refused.fault),
    }
}

// What is told of files that can't be opened.
fn told(error: Error) -> Fault
    ensures { result ≡ told_of_files error }
{
    match error {
        Error::SqliteFailure(ErrorCode::OutOfMemory) => Fault::Memory,
        _ => Fault::Store,
    }
}
