ghost use Rattle.std.specs.Prelude.{◌≡◌, IfErr, IfOk};
ghost use Rattle.std.specs.String.{string_bytes};
ghost use Rattle.gate_jobs.specs.Report.{MakesQueue, MakesText, Reports};
ghost use Rattle.gate_hook.specs.Lines.{ReadsLines};
ghost use Rattle.gate_report.specs.Queue.{queue_text_of};

use gate_hook::{HookFault, send, serve_lines};
use gate_queue::{Fault, Gate};
use gate_report::queue_text;
use gate_store::{Book, Keeper};
use std::alloc::Global;
use std::io::{self, Read, Write};

// The text of the queue of a gate.
fn text_of(alloc: Global, gate: &Gate) -> Result<String, Fault>
    ensures text { IfOk result (λ text. string_bytes text ≡ queue_text_of gate.now) }
    ensures fault { IfErr result (λ fault. fault ≡ Fault.Memory) }
{
    Ok(queue_text(alloc, gate)?)
}

// The text of the queue of a keeper.
fn queue_of<B: Book>(alloc: Global, keeper: &mut Keeper<B>) -> Result<String, Fault>
    ensures makes { MakesQueue B.Book keeper.old keeper.new result }
{
    match keeper.look(alloc) {
        Ok(gate) => text_of(alloc, gate),
        Err(fault) => Err(fault),
    }
}

// The text of the queue after the lines of a reader.
fn text_after<B: Book, R: Read>(
    alloc: Global,
    keeper: &mut Keeper<B>,
    reader: &mut R,
) -> Result<String, HookFault>
    ensures made { MakesText B.Book keeper.old keeper.new result (R.remaining reader.old) (R.remaining reader.new) }
    ensures reads { ReadsLines B.Book keeper.old keeper.new result (R.remaining reader.new) }
{
    if let Err(fault) = serve_lines(alloc, keeper, reader, &mut io::sink()) {
        return Err(fault);
    }
    match queue_of(alloc, keeper) {
        Ok(text) => Ok(text),
        Err(fault) => Err(HookFault::Gate(fault)),
    }
}

/// Serves the lines of a reader over the records of a keeper, drops the answers, and then writes the queue as text. The fault is one of
/// `serve_lines`, `Gate(Memory)` or one of the book's for the text, or `Write`. After a fault nothing is written, or after `Write` a part
/// of the text.
pub fn report<B: Book, R: Read, W: Write>(
    alloc: Global,
    keeper: &mut Keeper<B>,
    reader: &mut R,
    writer: &mut W,
) -> Result<(), HookFault>
    // The report is that of the input which was read, and the records are then those after its lines, if the premise of the
    // keeper's book holds.
    ensures reported { Reports B.Book keeper.old keeper.new result
        (R.remaining reader.old) (R.remaining reader.new) (W.contents writer.old) (W.contents writer.new) }

    // It succeeds at the end of the input alone, its faults are those that may come, and the premise of the book outlasts it.
    ensures reads { ReadsLines B.Book keeper.old keeper.new result (R.remaining reader.new) }
{
    match text_after(alloc, keeper, reader) {
        Ok(text) => send(writer, text.as_bytes()),
        Err(fault) => Err(fault),
    }
}
