ghost use Rattle.std.specs.Prelude.{◌≡◌, ℕ, List, IfErr, OnOk};
ghost use Rattle.std.specs.Io.KnownBytes.{Consumes, IsAtEnd};
ghost use Rattle.gate_hook.specs.Lines.{IsServed, IsWithinLimit, MayEnd, ServesLines};
ghost use Rattle.gate_hook.specs.Memory.{no_records};
ghost use Rattle.gate_store.specs.Run.{Records};

use crate::fault::HookFault;
use crate::lines::serve_lines;
use gate_queue::{Fault, Gate};
use gate_store::{Book, Keeper, PlainBook};
use std::alloc::Global;
use std::io::{Read, Write};

/// A book in memory that has no records. What it keeps is lost when the program ends. It takes no memory.
pub fn book_in_memory(alloc: Global) -> PlainBook
    ensures value { result ≡ no_records }
{
    PlainBook::new(alloc, Gate::new(alloc))
}

/// Serves the lines of a reader on a writer over a book, as `serve_lines` does over a keeper, and gives the book back. It answers how many
/// lines there were.
// A keeper whose book is known is dear to prove.
pub fn serve_book<B: Book, R: Read, W: Write>(
    alloc: Global,
    book: B,
    reader: &mut R,
    writer: &mut W,
) -> (Result<u64, HookFault>, B)
    ensures served { ServesLines B.Book book result.1 result.0 (R.remaining reader.old) (R.remaining reader.new)
        (W.contents writer.old) (W.contents writer.new) }

    // It succeeds at the end of the input alone, and its faults are those that may come.
    ensures end { OnOk result.0 (IsAtEnd (R.remaining reader.new)) }
    ensures cause { IfErr result.0 (MayEnd B.may_answer) }

    // A book that is honest then was so before.
    ensures honest { B.is_honest result.1 → B.is_honest book }
{
    let mut keeper = Keeper::new(book);
    let served = serve_lines(alloc, &mut keeper, reader, writer);
    (served, keeper.into_book())
}

/// Serves the lines of a reader on a writer over a new book in memory. Such a book needs no premise, so what is said holds without
/// one. It answers how many lines there were.
pub fn serve_in_memory<R: Read, W: Write>(
    alloc: Global,
    reader: &mut R,
    writer: &mut W,
) -> Result<u64, HookFault>
    // The lines are served from the empty state on, without answers that are kept.
    ensures served { (input : List ℕ) × Consumes (R.remaining reader.old) (R.remaining reader.new) input
        × IsWithinLimit result input
        × ((new : Records) × IsServed result no_records input (R.remaining reader.new) new (W.contents writer.old)
        (W.contents writer.new)) }

    // It succeeds at the end of the input alone.
    ensures end { OnOk result (IsAtEnd (R.remaining reader.new)) }

    // A fault of the gate is one that a keeper over a book in memory may answer.
    ensures cause { IfErr result (MayEnd (λ fault. fault ≡ Fault.Memory)) }
{
    let (served, book) = serve_book(alloc, book_in_memory(alloc), reader, writer);
    drop(book);
    served
}
