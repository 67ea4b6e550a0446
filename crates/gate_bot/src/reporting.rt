ghost use Rattle.std.specs.Prelude.{◌≡◌, ℕ, List, IfErr, OnOk};
ghost use Rattle.std.specs.Io.KnownBytes.{Consumes, IsAtEnd};
ghost use Rattle.gate_hook.specs.Lines.{MayEnd};
ghost use Rattle.gate_jobs.specs.Report.{IsReported};

use gate_hook::HookFault;
use gate_queue::Fault;
use gate_store::{Book, Keeper, PlainBook};
use std::alloc::Global;
use std::io::{Read, Write};

// Reports over any book, which is let go; `last` stands for the book as it is then. A keeper whose book is known is dear to prove
// where it is let go.
fn report_over<B: Book + Drop, R: Read, W: Write>(
    alloc: Global,
    book: B,
    reader: &mut R,
    writer: &mut W,
) -> Result<(), HookFault>
    ensures reported { (input : List ℕ) × Consumes (R.remaining reader.old) (R.remaining reader.new) input
        × ((last : B) × (B.is_sound last
        → IsReported (B.shows book) result input (R.remaining reader.new) (W.contents writer.old) (W.contents writer.new))) }
    ensures end { OnOk result (IsAtEnd (R.remaining reader.new)) }
    ensures cause { IfErr result (MayEnd B.may_answer) }
{
    let mut keeper = Keeper::new(book);
    let reported = gate_jobs::report(alloc, &mut keeper, reader, writer);
    // By name, since a keeper that ends with its function is dear to prove.
    drop(keeper);
    reported
}

/// Serves the lines of a reader over the records of a book, drops the answers, and then writes the queue as text. The book is let
/// go. After a fault nothing is written, or after `Write` a part of the text.
pub fn report<R: Read, W: Write>(
    alloc: Global,
    book: PlainBook,
    reader: &mut R,
    writer: &mut W,
) -> Result<(), HookFault>
    // The report is that of the input which was read. A book in memory needs no premise.
    ensures reported { (input : List ℕ) × Consumes (R.remaining reader.old) (R.remaining reader.new) input
        × IsReported book result input (R.remaining reader.new) (W.contents writer.old) (W.contents writer.new) }

    // It succeeds at the end of the input alone.
    ensures end { OnOk result (IsAtEnd (R.remaining reader.new)) }

    // A fault of the gate is one that a keeper over a book in memory may answer.
    ensures cause { IfErr result (MayEnd (λ fault. fault ≡ Fault.Memory)) }
{
    report_over(alloc, book, reader, writer)
}
