ghost use Rattle.std.specs.Prelude.{◌≡◌, ℕ, List, IfErr, IfOk, OnOk};
ghost use Rattle.std.specs.Io.KnownBytes.{Consumes, IsAtEnd};
ghost use Rattle.gate_bot.specs.Program.{IsOfFiles};
ghost use Rattle.gate_hook.specs.Lines.{IsWithinLimit, MayEnd, Serves};
ghost use Rattle.gate_sql.specs.Files.{StandIn};
ghost use Rattle.gate_sql.specs.Shown.{shown};
ghost use Rattle.gate_store.specs.Run.{IsOfBooks, Records};
ghost use Rattle.gate_tables.specs.Tables.{is_honest, is_sound};
ghost use Rattle.sqlite.specs.Files.{over_files};
ghost use Rattle.sqlite.specs.WalFiles.{image_at};

use crate::records::{FileBook, book_in_file};
use gate_hook::{HookFault, serve_book};
use gate_jobs::JobFault;
use sqlite::Start;
use std::io::{Read, Write};

/// Serves the lines of a reader on a writer over the records in a database file, which keeps what they make of these. It answers how
/// many lines there were, or at which fault it ended, and the book. If the book can't be opened, nothing is read or written, and the
/// fault is that of `book_in_file`.
pub fn run_in_file<S: Start, R: Read, W: Write>(
    rt: &HostRuntime,
    file: &str,
    start: S,
    reader: &mut R,
    writer: &mut W,
) -> Result<(Result<u64, HookFault>, FileBook<S>), JobFault>
    // The lines are served from the records on for which the file stood, if nobody else has written the file, and the disk has
    // returned what was written. Only `Memory` and `Store` may have shut the book; what was answered before stands then too.
    ensures served { IfOk result (λ ended. (input : List ℕ) × Consumes (R.remaining reader.old) (R.remaining reader.new) input
        × IsWithinLimit ended.0 input
        × (is_honest over_files ended.1 → (old : Records) × StandIn (image_at S.Start) old
        × Serves (is_sound over_files ended.1) ended.0 old input (R.remaining reader.new) (shown over_files ended.1) (W.contents writer.old)
        (W.contents writer.new))) }

    // It succeeds at the end of the input alone.
    ensures end { IfOk result (λ ended. OnOk ended.0 (IsAtEnd (R.remaining reader.new))) }

    // A fault of the gate is one that a keeper over the database may answer.
    ensures cause { IfOk result (λ ended. IfErr ended.0 (MayEnd IsOfBooks)) }

    // A file that can't be opened costs no line of the input.
    ensures unopened { IfErr result (λ fault. IsOfFiles fault × (R.remaining reader.new ≡ R.remaining reader.old)
        × (W.contents writer.new ≡ W.contents writer.old)) }
{
    match book_in_file(rt, file, start) {
        Ok(book) => Ok(serve_book(rt.alloc(), book, reader, writer)),
        Err(fault) => Err(fault),
    }
}
