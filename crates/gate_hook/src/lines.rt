ghost use Rattle.std.specs.Prelude.{◌≡◌, ◌+◌, ◌<◌, ◌≤◌, ◌^◌, ℕ, List, length, OnOk};
ghost use Rattle.std.specs.Io.KnownBytes.{IsAtEnd};
ghost use Rattle.gate_hook.specs.Lines.{IsWithinLimit, MayEnd, ReadsLines, ServesLines};
ghost use Rattle.gate_hook.specs.Serving.{MakesAnswer, MayStop};
ghost use Rattle.gate_hook.specs.Sessions.{AnswersLine, HasBegun, ServesAll, ServesInput, ServesLast, Steps, TakesAll, TakesOne, TellsLast};

use crate::answering::delivery_answer;
use crate::fault::HookFault;
use crate::line::Line;
use crate::receiving::read_part;
use crate::sending::send;
use gate_deliveries::{DeliveryFault, error_text, read_delivery};
use gate_http::with_line_feed;
use gate_queue::Fault;
use gate_store::{Book, Keeper};
use std::alloc::Global;
use std::io::{Read, Write};

// The answer to a line that is too long, with its line feed.
const TOO_LONG: &str = "{\"error\":\"LineTooLong\",\"number\":5}\n";

// How many bytes are read at once.
const CHUNK: usize = 8_192;

// The most bytes that one call reads.
const MAX_INPUT: u64 = 4_294_967_296;

// The text of the answer to a line, with its line feed.
fn line_answer<B: Book>(alloc: Global, keeper: &mut Keeper<B>, line: &Line) -> Result<String, Fault>
    ensures makes { MakesAnswer B.Book keeper.old keeper.new line.now result }
{
    if line.is_too_long() {
        return Ok(String::from_str(alloc, TOO_LONG)?);
    }
    match read_delivery(alloc, line.as_bytes()) {
        Ok(delivery) => delivery_answer(alloc, keeper, &delivery),
        Err(DeliveryFault::Memory) => Err(Fault::Memory),
        Err(fault) => {
            let text = error_text(alloc, &fault)?;
            Ok(with_line_feed(text)?)
        }
    }
}

// How many bytes to read if this many are left: one if none is, to see whether the input is at its end.
fn room_for(left: u64) -> usize
    ensures some { 0 < result }
    ensures within { result ≤ CHUNK }
    ensures left { 0 < left → result ≤ left }
    ensures last { left ≡ 0 → result ≡ 1 }
{
    left.clamp(1, CHUNK as u64) as usize
}

// What one call has at hand: the keeper, the line that is open, how many lines have ended, and where the answers go.
#[derive(Drop)]
struct Session<'k, 'w, B: Book, W> {
    keeper: &'k mut Keeper<B>,
    line: Line,
    count: u64,
    writer: &'w mut W,
}

impl<B: Book, W: Write> Session<'_, '_, B, W> {
    // Answers the line that is open: its text goes out whole, and a part of it if the writer refuses the rest.
    fn answer_line(&mut self, alloc: Global) -> Result<(), HookFault>
        ensures answers { AnswersLine B.Book W.contents self.old self.new result }
        ensures steps { Steps B.Book MayStop self.old self.new result }
    {
        let text = line_answer(alloc, self.keeper, &self.line)?;
        send(self.writer, text.as_bytes())
    }

    // Takes one byte: a line feed ends the line that is open, which is answered; any other byte goes on with it.
    fn take_byte(&mut self, alloc: Global, byte: u8) -> Result<(), HookFault>
        requires { self.old.count < 2 ^ 32 }
        ensures taken { TakesOne B.Book W.contents self.old self.new result byte }
        ensures steps { Steps B.Book MayStop self.old self.new result }
        ensures count { self.new.count ≤ self.old.count + 1 }
    {
        if byte != b'\n' {
            self.line.add(byte);
            return Ok(());
        }
        match self.answer_line(alloc) {
            Ok(()) => {
                self.line.clear();
                self.count += 1;
                Ok(())
            }
            Err(fault) => Err(fault),
        }
    }

    // Takes the bytes of a chunk, in order.
    fn take_chunk(&mut self, alloc: Global, bytes: &[u8]) -> Result<(), HookFault>
        requires { self.old.count + length bytes.now ≤ 2 ^ 32 }
        ensures taken { TakesAll B.Book W.contents self.old self.new result bytes.now }
        ensures steps { Steps B.Book MayStop self.old self.new result }
        ensures count { self.new.count ≤ self.old.count + length bytes.now }
    {
        for byte in bytes {
            match self.take_byte(alloc, *byte) {
                Ok(()) => {}
                Err(fault) => return Err(fault),
            }
        }
        Ok(())
    }

    // Answers the last line, if bytes follow the last line feed, and counts it.
    fn finish(&mut self, alloc: Global) -> Result<u64, HookFault>
        requires { self.old.count ≤ 2 ^ 32 }
        ensures within { (input : List ℕ) → length input ≤ MAX_INPUT → IsWithinLimit result input }
        ensures served { ServesLast B.Book W.contents self.old self.new result }
        ensures told { TellsLast B.Book W.contents self.old self.new result }
        ensures steps { Steps B.Book MayEnd self.old self.new result }
    {
        if self.line.is_empty() {
            return Ok(self.count);
        }
        match self.answer_line(alloc) {
            Ok(()) => Ok(self.count + 1),
            Err(fault) => Err(fault),
        }
    }

    // Takes the whole input of a reader, chunk by chunk.
    fn take_input<R: Read>(&mut self, alloc: Global, reader: &mut R) -> Result<u64, HookFault>
        requires { HasBegun B.Book W.contents self.old }
        ensures served { ServesInput B.Book W.contents self.old self.new result
            (R.remaining reader.old) (R.remaining reader.new) }
        ensures end { OnOk result (IsAtEnd (R.remaining reader.new)) }
        ensures steps { Steps B.Book MayEnd self.old self.new result }
    {
        let mut buffer = [0; CHUNK];
        let mut left = MAX_INPUT;
        'chunks: loop {
            let n = read_part(reader, &mut buffer, room_for(left))?;
            if n == 0 {
                return self.finish(alloc);
            }
            if left == 0 {
                return Err(HookFault::TooMuch);
            }
            match self.take_chunk(alloc, &buffer[..n]) {
                Ok(()) => left -= n as u64,
                Err(fault) => return Err(fault),
            }
        }
    }

    // The same, told as `serve_lines` tells it.
    fn serve<R: Read>(&mut self, alloc: Global, reader: &mut R) -> Result<u64, HookFault>
        requires { HasBegun B.Book W.contents self.old }
        ensures served { ServesAll B.Book W.contents self.old self.new result
            (R.remaining reader.old) (R.remaining reader.new) }
        ensures end { OnOk result (IsAtEnd (R.remaining reader.new)) }
        ensures steps { Steps B.Book MayEnd self.old self.new result }
    {
        self.take_input(alloc, reader)
    }
}

/// Answers each line of a reader on a writer, in order: a delivery by its answer, any other line by its error. The
/// lines are JSON Lines (jsonlines.org). The answer to a line is written before more of the input is asked for. At the
/// end of the input it answers the count of lines.
///
/// Each fault ends the call; the lines before the one that it came at are answered. After `Read` and `TooMuch` a line
/// that isn't complete is dropped. After `Write` the line has acted, and a part of its answer, but not all, is written.
/// After `Gate`, which has a fault of the keeper's, nothing of the answer is written, and the line has changed nothing; but
/// after `Memory` it may have acted, with its answer kept. Whatever the fault, an answer that is kept is written if the
/// delivery is handed in again. Of the reader up to 8,191 bytes behind that line may be taken.
///
/// What is said of answers, of the count and of the book holds if the book's premise does; how much is read, and which faults
/// may come, holds without it.
///
/// The buffers have a fixed size, whatever the input. The writer isn't flushed, so it shouldn't keep bytes back.
pub fn serve_lines<B: Book, R: Read, W: Write>(
    alloc: Global,
    keeper: &mut Keeper<B>,
    reader: &mut R,
    writer: &mut W,
) -> Result<u64, HookFault>
    // Within the limit, input was consumed. If the book is sound, what is written is the text for its lines. If it was sound, and is
    // honest still, so are the answers before a fault that has shut it.
    ensures served { ServesLines B.Book keeper.old keeper.new result (R.remaining reader.old) (R.remaining reader.new)
        (W.contents writer.old) (W.contents writer.new) }

    // It succeeds at the end of the input alone, its faults are those that may come, and the premise of the book outlasts it.
    ensures reads { ReadsLines B.Book keeper.old keeper.new result (R.remaining reader.new) }
{
    let mut session = Session {
        keeper,
        line: Line::new(),
        count: 0,
        writer,
    };
    session.serve(alloc, reader)
}
