ghost use Rattle.std.specs.Prelude.{◌≡◌, ℕ, List, Ok, IfErr, IfSome, OnOk};
ghost use Rattle.std.specs.Io.BufRead.{strip_last};
ghost use Rattle.std.specs.Io.KnownBytes.{IsAtEnd};
ghost use Rattle.gate_guard_lines.specs.Lines.{IsInputOf, IsTold};
ghost use Rattle.gate_guard_lines.specs.Serving.{FindsDuties, TellsDelivery, TellsLine, TellsReading};
ghost use Rattle.gate_hook.specs.Lines.{MayEnd};
ghost use Rattle.gate_hook.specs.Serving.{StaysSound};
ghost use Rattle.gate_store.specs.Outlasting.{Outlasts, RemainsSound};

use crate::text::told_text;
use gate_deliveries::{DeliveryFault, error_text, read_delivery};
use gate_guard::{Duties, duties_in};
use gate_hook::{HookFault, send};
use gate_http::with_line_feed;
use gate_queue::Fault;
use gate_store::{Book, Delivery, Keeper};
use std::alloc::Global;
use std::io::{BufRead, ErrorKind, Write};

// The most bytes that a line may have, without its line feed.
const MAX_LINE: usize = 65_536;

// The answer to a line that is too long, with its line feed.
const TOO_LONG: &str = "{\"error\":\"LineTooLong\",\"number\":5}\n";

// What is to be done by the gate of a keeper.
fn duties_now<B: Book>(alloc: Global, keeper: &mut Keeper<B>) -> Result<Duties, Fault>
    ensures finds { FindsDuties B.Book keeper.old keeper.new result }
{
    match keeper.look(alloc) {
        Ok(gate) => Ok(duties_in(gate)),
        Err(fault) => Err(fault),
    }
}

// Answers a delivery, and tells what is to be done then.
fn delivery_told<B: Book>(
    alloc: Global,
    keeper: &mut Keeper<B>,
    delivery: &Delivery,
) -> Result<String, Fault>
    ensures tells { TellsDelivery B.Book keeper.old keeper.new delivery.now result }
{
    let answer = match keeper.deliver_text(alloc, delivery) {
        Ok(answer) => answer,
        Err(fault) => return Err(fault),
    };
    match duties_now(alloc, keeper) {
        Ok(duties) => Ok(told_text(alloc, answer.as_str(), duties)?),
        Err(fault) => Err(fault),
    }
}

// The same with a line feed.
fn delivery_line<B: Book>(
    alloc: Global,
    keeper: &mut Keeper<B>,
    delivery: &Delivery,
) -> Result<String, Fault>
    ensures tells { TellsReading B.Book keeper.old keeper.new (Ok delivery.now) result }
{
    let text = match delivery_told(alloc, keeper, delivery) {
        Ok(text) => text,
        Err(fault) => return Err(fault),
    };
    Ok(with_line_feed(text)?)
}

// The text for a line, with its line feed.
fn line_told<B: Book>(alloc: Global, keeper: &mut Keeper<B>, line: &[u8]) -> Result<String, Fault>
    ensures tells { TellsLine B.Book keeper.old keeper.new line.now result }
{
    if line.len() > MAX_LINE {
        return Ok(String::from_str(alloc, TOO_LONG)?);
    }
    match read_delivery(alloc, line) {
        Ok(delivery) => delivery_line(alloc, keeper, &delivery),
        Err(DeliveryFault::Memory) => Err(Fault::Memory),
        Err(fault) => {
            let text = error_text(alloc, &fault)?;
            Ok(with_line_feed(text)?)
        }
    }
}

// A line without the line feed that ends it, if one does.
fn without_line_feed(line: &[u8]) -> &[u8]
    ensures { result.now ≡ strip_last 10 line.now }
{
    match line.split_last() {
        Some((b'\n', front)) => front,
        _ => line,
    }
}

/// Answers each line of a reader on a writer, in order, as `serve_lines` of gate_hook does; but the answer to a delivery is an object that
/// has besides what is to be done then on each branch. At the end of the input it answers the count of lines.
///
/// Each fault ends the call; the lines before the one that it came at are answered. After `Read` a line that isn't complete is dropped.
/// After `Write` the line has acted, and a part of its answer, but not all, is written. After `Gate`, which has a fault of the keeper's,
/// nothing of the answer is written. Then the line has acted, or it hasn't, but an answer that is kept is written if the delivery is handed
/// in again. The line is kept in memory, and a reader may have more in its buffer.
pub fn guard_lines<B: Book, R: BufRead, W: Write>(
    alloc: Global,
    keeper: &mut Keeper<B>,
    reader: &mut R,
    writer: &mut W,
) -> Result<u64, HookFault>
    // If the book is sound, there is an input, which is what the reader has, if it tells its bytes. The records are those after its lines,
    // and what is written is what is told for them. None of them met a full gate. At a fault that is so of some first lines. After a fault
    // of the gate the next one has acted, or it hasn't, and nothing of its text is written. After `Write` it has, and a part is.
    ensures told { B.is_sound keeper.new → (input : List ℕ) × IsInputOf (R.remaining reader.old) input
        × IsTold result (B.shows keeper.old) (B.shows keeper.new) input (W.contents writer.old) (W.contents writer.new) }

    // It succeeds at the end of the input alone, its faults are those that may come, and the premise of the book outlasts it.
    ensures end { OnOk result (IfSome (R.remaining reader.old) (λ _. IsAtEnd (R.remaining reader.new))) }
    ensures cause { IfErr result (MayEnd B.may_answer) }
    ensures outlasts { Outlasts B.Book keeper.old keeper.new }

    // A book that was sound, and is honest still, is sound, unless it met `Memory` or `Store`.
    ensures stays { RemainsSound B.Book keeper.old keeper.new (StaysSound result) }
{
    let mut line = Vec::new(alloc);
    for count in 0..u64::MAX {
        line.clear();
        match reader.read_until(b'\n', &mut line) {
            Ok(0) => return Ok(count),
            Ok(_) => {}
            Err(error) if error.kind() == ErrorKind::OutOfMemory => {
                return Err(HookFault::Gate(Fault::Memory));
            }
            Err(_) => return Err(HookFault::Read),
        }
        match line_told(alloc, keeper, without_line_feed(&line)) {
            Ok(text) => match send(writer, text.as_bytes()) {
                Ok(()) => {}
                Err(fault) => return Err(fault),
            },
            Err(fault) => return Err(HookFault::Gate(fault)),
        }
    }
    Err(HookFault::TooMuch)
}
