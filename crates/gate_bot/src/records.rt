ghost use Rattle.std.specs.Prelude.{◌≡◌, IfErr, IfOk, false};
ghost use Rattle.gate_bot.specs.Program.{IsOfFiles, IsOfRecords, IsUnopened, fault_of};
ghost use Rattle.gate_sql.specs.Files.{StandIn};
ghost use Rattle.gate_sql.specs.Shown.{shown};
ghost use Rattle.gate_sql.specs.Versions.{OpensAs};
ghost use Rattle.gate_tables.specs.Tables.{Outlasts, is_honest, is_shielded, is_sound};
ghost use Rattle.gate_tables.specs.Schemas.{HasTables};
ghost use Rattle.sqlite.specs.Closing.{IsCopied};
ghost use Rattle.sqlite.specs.Files.{IsClosed, IsOpened, file_state, over_files};
ghost use Rattle.sqlite.specs.Held.{state};
ghost use Rattle.sqlite.specs.Start.{FindsIn};
ghost use Rattle.sqlite.specs.State.{HasCleanDisk};
ghost use Rattle.sqlite.specs.WalFiles.{image_at};
ghost use Rattle.sqlite.specs.WalReads.{AreClean};

use gate_jobs::JobFault;
use gate_queue::Fault;
use gate_sql::SqlBook;
use sqlite::{Alter, Connection, Error, ErrorCode, FileFrom, FileStore, Files, Start};
use sqlite_disk::Disk;
use std::alloc::Global;

/// A book in a database file, which keeps the records for the next program. `S` stands for what the file and its log held.
pub type FileBook<S> = SqlBook<FileStore<FileFrom<S>>>;

/// The book that a database file keeps. A file that isn't there is made, and one that is empty gets its tables and no records. Each
/// page of a new file ends in a sum of it, by which a later open refuses a page that was changed. `File` if it can't be opened, or
/// isn't a database, or is damaged, or another program has it open. `Gate(Foreign)` and `Gate(Store)` if its tables or what they
/// hold are others. `Gate(Memory)` if there is no memory for it. A file that is refused keeps the records that it held.
pub fn book_in_file<S: Start>(
    rt: &HostRuntime,
    file: &str,
    start: S,
) -> Result<FileBook<S>, JobFault>
    // If nobody else has written the file, and the disk has returned what was written, the records are those for which the database
    // stands that the file held.
    ensures records { IfOk result (λ book. is_honest over_files book → StandIn (image_at S.Start) (shown over_files book)) }
    ensures stays { IfOk result (λ book. is_honest over_files book → is_sound over_files book) }

    // If so far nobody else has written the file, and the disk has returned what was written, each later read is compared with a
    // digest of what was written.
    ensures shield { IfOk result (λ book. is_honest over_files book → is_shielded over_files book) }
    ensures fault { IfErr result IsOfFiles }
{
    match connected(rt, file, start) {
        Ok(connection) => book_over(rt.alloc(), connection),
        Err(fault) => Err(fault),
    }
}

// A connection to a database file.
fn connected<S: Start>(
    rt: &HostRuntime,
    file: &str,
    start: S,
) -> Result<Connection<FileStore<FileFrom<S>>>, JobFault>
    ensures found { IfOk result (λ connection. HasCleanDisk (file_state connection) → FindsIn (image_at S.Start) (file_state connection)) }
    ensures opened { IfOk result (λ connection. HasCleanDisk (file_state connection) → IsOpened connection) }
    ensures guarded { IfOk result (λ connection. HasCleanDisk (file_state connection) → (file_state connection).IsShielded) }
    ensures mode { IfOk result (λ connection. connection.in_transaction ≡ false) }
    ensures fault { IfErr result IsUnopened }
{
    match Connection::open_from(rt, file, true, start) {
        Ok(connection) => Ok(connection),
        Err((error, _)) => Err(told(error)),
    }
}

// The book that a database keeps. A connection whose store is known is dear to prove.
fn book_over<S: Alter + Drop>(
    alloc: Global,
    connection: Connection<S>,
) -> Result<SqlBook<S>, JobFault>
    requires { connection.in_transaction ≡ false }
    ensures stands { IfOk result (λ book. is_sound S.Store book → OpensAs (state S.Store connection).now (shown S.Store book)) }
    ensures outlasts { IfOk result (λ book. Outlasts S.Store connection book) }
    ensures stays { IfOk result (λ book. is_honest S.Store book → is_sound S.Store book) }
    ensures fault { IfErr result (IsOfRecords (HasTables (state S.Store connection).now)) }
{
    match SqlBook::open(alloc, connection) {
        Ok(book) => Ok(book),
        Err(refused) => Err(JobFault::from(refused.fault)),
    }
}

/// Lets a book go, and copies into the file what its log has. If that fails, nothing is lost: file and log have the records together
/// then, as after a program that was killed.
pub fn close<D: Disk + Drop>(book: SqlBook<FileStore<D>>) {
    match closed(book) {
        Ok(files) => drop(files),
        Err(store) => drop(store.close()),
    }
}

// The two files of a book, or what is left of it if they can't be closed.
fn closed<D: Disk + Drop>(book: SqlBook<FileStore<D>>) -> Result<Files<D>, FileStore<D>>
    // If the disk has returned what was written, the database file has by itself what was committed last, as it reads now and after a
    // crash.
    ensures copied { IfOk result (λ files. AreClean D.Disk files.log files.db → IsCopied book files) }

    // If not, a crash leaves nothing but what one could leave before.
    ensures kept { IfErr result (λ store. IsClosed book store) }
{
    match book.into_connection().close_files() {
        Ok(files) => Ok(files),
        Err((_, store)) => Err(store),
    }
}

// What is told of a file that can't be opened.
fn told(error: Error) -> JobFault
    ensures { result ≡ fault_of error }
{
    match error {
        Error::SqliteFailure(ErrorCode::OutOfMemory) => JobFault::from(Fault::Memory),
        _ => JobFault::File,
    }
}
