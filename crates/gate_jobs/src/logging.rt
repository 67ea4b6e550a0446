ghost use Rattle.std.specs.Prelude.{◌≡◌, IfOk, option_copied};
ghost use Rattle.std.specs.Char.{is_ascii_graphic};
ghost use Rattle.std.specs.List.{list_all};
ghost use Rattle.std.specs.String.{string_bytes};
ghost use Rattle.gate_jobs.specs.Log as log;
ghost use Rattle.gate_jobs.specs.Log.{IsLogLine, IsLogged, IsShownOf, how_it_ended, shown, time_of};
ghost use Rattle.gate_jobs.specs.Outcome.{word_of};
ghost use Rattle.gate_jobs.specs.declared.fault.JobFault.TheVariants.{Hook};

use crate::fault::JobFault;
use crate::outcome::{COMPLAINT, complaint};
use gate_hook::{HookFault, Served, Transcript, denial_in, send};
use std::alloc::{AllocError, Global};
use std::io::{self, Write};
use std::str;
use std::time::{Clock, SystemTime, UNIX_EPOCH};

// The most bytes that are shown of a method, and of a path.
const MAX_SHOWN: usize = 200;

// What stands for what isn't there, and for what can't be shown.
const NOTHING: &str = "-";

const HIDDEN: &str = "?";

/// What is told of each request that was served.
pub trait Log {
    /// Tells of one, by what came in and went out, and by how serving it ended. If that fails, nobody is told.
    fn tell(&mut self, transcript: &Transcript, served: &Result<Served, HookFault>);
}

/// Tells nothing.
#[derive(Clone, Copy)]
pub struct Silence;

impl Log for Silence {
    fn tell(&mut self, _transcript: &Transcript, _served: &Result<Served, HookFault>) {}
}

/// Writes a line for each request.
#[derive(Drop)]
pub struct LineLog<'a, C: Clock, W: Write> {
    alloc: Global,
    clock: &'a C,
    writer: W,
}

impl<'a, C: Clock, W: Write> LineLog<'a, C, W> {
    /// One that has the time of day from this clock, and writes on this writer.
    pub fn new(alloc: Global, clock: &'a C, writer: W) -> LineLog<'a, C, W>
        ensures writer { result.writer ≡ writer }
    {
        LineLog {
            alloc,
            clock,
            writer,
        }
    }
}

impl<C: Clock, W: Write> Log for LineLog<'_, C, W> {
    fn tell(&mut self, transcript: &Transcript, served: &Result<Served, HookFault>)
        ensures logged { IsLogged transcript.now served.now (W.contents self.old.writer) (W.contents self.new.writer) }
    {
        let seconds = seconds_of(SystemTime::now(self.clock));
        if let Ok(line) = log_line(self.alloc, seconds, transcript, served) {
            // If standard error fails, there is nothing left to tell it by.
            let _ = send(&mut self.writer, line.as_bytes());
        }
    }
}

// The seconds since 1970 by a reading of the clock, or none if it can't be read.
fn seconds_of(reading: io::Result<SystemTime>) -> u64
    ensures { result ≡ log.seconds_of reading }
{
    match reading {
        Ok(now) => match now.duration_since(UNIX_EPOCH) {
            Ok(since) => since.as_secs(),
            Err(_) => 0,
        },
        Err(_) => 0,
    }
}

// The time of day in UTC, by the seconds since 1970.
fn time_text(alloc: Global, seconds: u64) -> Result<String, AllocError>
    ensures { IfOk result (λ text. string_bytes text ≡ time_of seconds) }
{
    let hour = seconds / 3_600 % 24;
    let minute = seconds / 60 % 60;
    let second = seconds % 60;
    format!(in alloc;
        "{}{}:{}{}:{}{}Z",
        hour / 10,
        hour % 10,
        minute / 10,
        minute % 10,
        second / 10,
        second % 10
    )
}

// Whether all bytes are visible ASCII.
fn are_visible(text: &[u8]) -> bool
    ensures { result ≡ list_all is_ascii_graphic text.now }
{
    text.iter().all(|byte| byte.is_ascii_graphic())
}

// What may be shown of a text.
fn front_of(text: &[u8]) -> &[u8]
    ensures { result.now ≡ log.front_of text.now }
{
    if text.len() > MAX_SHOWN {
        &text[..MAX_SHOWN]
    } else {
        text
    }
}

// A method or a path, as it is shown.
fn shown_text(text: &[u8]) -> &str
    ensures { result.now ≡ shown text.now }
{
    let front = front_of(text);
    if !are_visible(front) {
        return HIDDEN;
    }
    match str::from_utf8(front) {
        Ok(front) => front,
        Err(_) => HIDDEN,
    }
}

// The method and the path of a request, as they are shown.
fn first_words(transcript: &Transcript) -> (&str, &str)
    ensures { IsShownOf transcript.now.request result.0.now result.1.now }
{
    match transcript.line() {
        Some(line) => (shown_text(line.method), shown_text(line.path)),
        None => (NOTHING, NOTHING),
    }
}

// The word of a fault.
fn fault_word(fault: HookFault) -> &'static str
    ensures { result.now ≡ word_of (Hook fault) }
{
    &complaint(JobFault::Hook(fault))[COMPLAINT.len()..]
}

// How serving a request ended: its status, and the fault or the rule of a denial.
fn ending_text(
    alloc: Global,
    served: &Result<Served, HookFault>,
    denial: Option<&str>,
) -> Result<String, AllocError>
    ensures { IfOk result (λ text. string_bytes text ≡ how_it_ended served.now (option_copied denial.entry)) }
{
    match served {
        Ok(served) => {
            let status = served.status.as_u16();
            match (served.fault, denial) {
                (Some(fault), _) => {
                    let word = fault_word(HookFault::Gate(fault));
                    format!(in alloc; "{status} {word}")
                }
                (None, Some(rule)) => format!(in alloc; "{status} denied {rule}"),
                (None, None) => format!(in alloc; "{status}"),
            }
        }
        Err(fault) => {
            let word = fault_word(*fault);
            format!(in alloc; "- {word}")
        }
    }
}

/// The line that a log has for a request, with its line feed: the time of day in UTC by the seconds since 1970, the method and the
/// path, the status, and the fault or the rule of the first denial. Method and path are `-` if there is no head; of each the first
/// 200 bytes are shown, or `?` if one of these isn't visible ASCII. The status is `-` if no response was written. `AllocError` if there
/// is no memory for the line.
pub fn log_line(
    alloc: Global,
    seconds: u64,
    transcript: &Transcript,
    served: &Result<Served, HookFault>,
) -> Result<String, AllocError>
    ensures line { IfOk result (λ line. IsLogLine seconds transcript.now served.now (string_bytes line)) }
{
    let time = time_text(alloc, seconds)?;
    let (method, path) = first_words(transcript);
    let denial = denial_in(alloc, transcript.response())?;
    let ending = ending_text(alloc, served, denial)?;
    format!(in alloc; "{time} {method} {path} {ending}\n")
}
