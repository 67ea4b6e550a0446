ghost use Rattle.std.specs.Prelude.{◌≡◌, ℕ, List, IfErr, IfOk, IfSome, OnOk};
ghost use Rattle.std.specs.Io.KnownBytes.{IsAtEnd};
ghost use Rattle.gate_bot.specs.Program.{IsOfFiles};
ghost use Rattle.gate_guard_lines.specs.Lines.{IsInputOf, IsTold};
ghost use Rattle.gate_hook.specs.Lines.{MayEnd};
ghost use Rattle.gate_hook.specs.Memory.{no_records};
ghost use Rattle.gate_hook.specs.Serving.{StaysSound};
ghost use Rattle.gate_sql.specs.Files.{StandIn};
ghost use Rattle.gate_sql.specs.Shown.{shown};
ghost use Rattle.gate_store.specs.Run.{IsOfBooks, Records};
ghost use Rattle.gate_tables.specs.Tables.{is_honest, is_sound};
ghost use Rattle.sqlite.specs.Files.{over_files};
ghost use Rattle.sqlite.specs.WalFiles.{image_at};

use crate::records::{FileBook, book_in_file};
use gate_guard_lines::guard_lines;
use gate_hook::{HookFault, book_in_memory};
use gate_jobs::JobFault;
use gate_queue::Fault;
use gate_store::{Book, Keeper};
use sqlite::Start;
use std::alloc::Global;
use std::io::{BufRead, Write};

// Answers lines for a host over any book, and gives it back. A keeper whose book is known takes long to prove.
fn guard_over<B: Book, R: BufRead, W: Write>(
    alloc: Global,
    book: B,
    reader: &mut R,
    writer: &mut W,
) -> (Result<u64, HookFault>, B)
    ensures told { B.is_sound result.1 → (input : List ℕ) × IsInputOf (R.Read.remaining reader.old) input
        × IsTold result.0 (B.shows book) (B.shows result.1) input (W.contents writer.old) (W.contents writer.new) }
    ensures end { OnOk result.0 (IfSome (R.Read.remaining reader.old) (λ _. IsAtEnd (R.Read.remaining reader.new))) }
    ensures cause { IfErr result.0 (MayEnd B.may_answer) }
    ensures honest { B.is_honest result.1 → B.is_honest book }
    ensures stays { (B.is_honest book → B.is_sound book) → B.is_honest result.1 → StaysSound result.0 (B.is_sound result.1) }
{
    let mut keeper = Keeper::new(book);
    let told = guard_lines(alloc, &mut keeper, reader, writer);
    (told, keeper.into_book())
}

/// Answers the lines of a reader for a host, over a new book in memory. Such a book needs no premise, so what is said holds without one.
/// It answers how many lines there were.
pub fn guard<R: BufRead, W: Write>(
    alloc: Global,
    reader: &mut R,
    writer: &mut W,
) -> Result<u64, HookFault>
    // The lines are told from the empty state on, without answers that are kept.
    ensures told { (new : Records) × (input : List ℕ) × IsInputOf (R.Read.remaining reader.old) input
        × IsTold result no_records new input (W.contents writer.old) (W.contents writer.new) }

    // It succeeds at the end of the input alone.
    ensures end { OnOk result (IfSome (R.Read.remaining reader.old) (λ _. IsAtEnd (R.Read.remaining reader.new))) }

    // A fault of the gate is one that a keeper over a book in memory may answer.
    ensures cause { IfErr result (MayEnd (λ fault. fault ≡ Fault.Memory)) }
{
    let (told, book) = guard_over(alloc, book_in_memory(alloc), reader, writer);
    drop(book);
    told
}

/// Answers the lines of a reader for a host, over the records in a database file, which keeps what they make of these. It answers how many
/// lines there were, or at which fault it ended, and the book. If the book can't be opened, nothing is read or written, and the fault is
/// that of `book_in_file`.
pub fn guard_in_file<S: Start, R: BufRead, W: Write>(
    rt: &HostRuntime,
    file: &str,
    start: S,
    reader: &mut R,
    writer: &mut W,
) -> Result<(Result<u64, HookFault>, FileBook<S>), JobFault>
    // The lines are told from the records on for which the file stood, if the book is sound in the end.
    ensures told { IfOk result (λ ended. is_honest over_files ended.1 → is_sound over_files ended.1
        → (old : Records) × StandIn (image_at S.Start) old × (input : List ℕ) × IsInputOf (R.Read.remaining reader.old) input
        × IsTold ended.0 old (shown over_files ended.1) input (W.contents writer.old) (W.contents writer.new)) }

    // A book that is honest in the end is sound, unless it met `Memory` or `Store`.
    ensures stays { IfOk result (λ ended. is_honest over_files ended.1 → StaysSound ended.0 (is_sound over_files ended.1)) }

    // It succeeds at the end of the input alone.
    ensures end { IfOk result (λ ended. OnOk ended.0 (IfSome (R.Read.remaining reader.old) (λ _. IsAtEnd (R.Read.remaining reader.new)))) }

    // A fault of the gate is one that a keeper over the database may answer.
    ensures cause { IfOk result (λ ended. IfErr ended.0 (MayEnd IsOfBooks)) }

    // A file that can't be opened costs no line of the input.
    ensures unopened { IfErr result (λ fault. IsOfFiles fault × (R.Read.remaining reader.new ≡ R.Read.remaining reader.old)
        × (W.contents writer.new ≡ W.contents writer.old)) }
{
    match book_in_file(rt, file, start) {
        Ok(book) => Ok(guard_over(rt.alloc(), book, reader, writer)),
        Err(fault) => Err(fault),
    }
}
