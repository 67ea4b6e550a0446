ghost use Rattle.std.specs.Prelude.{◌≡◌, map, IfOk, IfErr, IfSome};
ghost use Rattle.std.specs.IoError.{error_kind};
ghost use Rattle.clap.specs.Words.{found_of, kind_of, rows_of, subcommand_rows_of};
ghost use Rattle.gate_words.specs.Words.{AreNumbersIn, AreWithinLimits, IsAskedFor, IsFileIn, IsFileOf, IsFlagIn, IsGuardIn, IsJobIn, IsPatienceIn, IsPatient, IsRefusedBy, IsRunIn, IsServeIn, IsToldAs, IsToldBy, IsWithinLimits, IsWithoutWords, LacksJob, LacksNumbers, LacksPatience};

use crate::command::{MAX_COUNT, MAX_PATIENCE, PATIENCE, matches_in};
use clap::error::ErrorKind;
use clap::{ArgMatches, Error};
use std::alloc::{AllocError, Global};
use std::io;

const NO_JOB: &str = "error: these words ask for nothing that gate does\n";

const NO_TEXT: &str = "error: a word isn't UTF-8\n";

/// What the program is asked to do.
#[derive(Debug, PartialEq, Eq, Drop)]
pub enum Job {
    /// To serve the lines of standard input, over the records in a database file, or over new ones in memory.
    Run {
        /// The path of the database file. Without one the records are in memory.
        db: Option<String>,
    },
    /// To serve the same lines over the same, and to tell with each answer what a host has to do for each branch then.
    Guard {
        /// The path of the database file. Without one the records are in memory.
        db: Option<String>,
    },
    /// To serve so many connections on a port of 127.0.0.1, over the same.
    Serve {
        /// From 1 to 65,535.
        port: u16,
        /// From 1 to 1,000,000.
        count: u32,
        /// For how many seconds a client may be silent, from 1 to 3,600.
        patience: u32,
        /// The path of the database file. Without one the records are in memory.
        db: Option<String>,
        /// The path of the file with the token that each request has to bear. Without one none is needed.
        token: Option<String>,
        /// Whether a log of the requests goes to standard error.
        log: bool,
        /// Whether it ends when standard input is closed.
        until_input_ends: bool,
    },
    /// To report the queue after the lines of a file.
    Report {
        /// The file's path.
        file: String,
    },
}

/// Why words ask for no job.
#[derive(Debug, PartialEq, Eq, Drop)]
pub enum WordsFault {
    /// They ask for help, which is this text.
    Help(String),
    /// They are none that the program takes. The text says why.
    Usage(String),
    /// There is no memory to read them.
    Memory,
}

impl From<AllocError> for WordsFault {
    ghost use Rattle.std.specs.Prelude.{◌≡◌};
    ghost use Rattle.gate_words.specs.declared.words.WordsFault.TheVariants.{Memory};

    ghost from_gives = { λ _ fault. fault ≡ Memory };

    fn from(_error: AllocError) -> WordsFault {
        WordsFault::Memory
    }
}

// The file that the option of this name gives, if it is among the options.
fn file_of(
    alloc: Global,
    options: &ArgMatches<'_>,
    name: &str,
) -> Result<Option<String>, AllocError>
    ensures { IfOk result (λ file. IsFileOf name.now file (rows_of (found_of options.now))) }
{
    match options.get_str(name) {
        Some(file) => Ok(Some(String::from_str(alloc, file)?)),
        None => Ok(None),
    }
}

fn run_job(alloc: Global, options: &ArgMatches<'_>) -> Result<Job, AllocError>
    ensures limits { IfOk result IsWithinLimits }
    ensures job { IfOk result (λ job. IsRunIn job (rows_of (found_of options.now))) }
{
    Ok(Job::Run {
        db: file_of(alloc, options, "db")?,
    })
}

fn guard_job(alloc: Global, options: &ArgMatches<'_>) -> Result<Job, AllocError>
    ensures limits { IfOk result IsWithinLimits }
    ensures job { IfOk result (λ job. IsGuardIn job (rows_of (found_of options.now))) }
{
    Ok(Job::Guard {
        db: file_of(alloc, options, "db")?,
    })
}

// Whether the option of this name is there.
fn has_flag(options: &ArgMatches<'_>, name: &str) -> bool
    ensures { IsFlagIn name.now result (rows_of (found_of options.now)) }
{
    options.get_flag(name)
}

// The port and the count of `serve`. The limits are those of the command; they are looked at again, so that what is said of them
// doesn't rest on it.
fn numbers_in(options: &ArgMatches<'_>) -> Option<(u16, u32)>
    ensures limits { IfSome result (λ numbers. AreWithinLimits numbers.0 numbers.1) }
    ensures numbers { IfSome result (λ numbers. AreNumbersIn numbers.0 numbers.1 (rows_of (found_of options.now))) }
    ensures none { LacksNumbers result (rows_of (found_of options.now)) }
{
    let port = options.get_one::<u16>("port")?;
    let count = options.get_one::<u32>("count")?;
    if port == 0 || count == 0 || count > MAX_COUNT {
        return None;
    }
    Some((port, count))
}

// The patience of `serve`, or that of `PATIENCE` if it is left out.
fn read_patience(options: &ArgMatches<'_>) -> Option<u32>
    ensures value { IfSome result (λ patience. IsPatienceIn patience (rows_of (found_of options.now))) }
    ensures none { LacksPatience result (rows_of (found_of options.now)) }
{
    match options.try_get_one::<u32>("patience") {
        Ok(Some(patience)) => Some(patience),
        Ok(None) => Some(PATIENCE),
        Err(_) => None,
    }
}

// The limits are those of the command, looked at again.
fn patience_in(options: &ArgMatches<'_>) -> Option<u32>
    ensures limits { IfSome result IsPatient }
    ensures value { IfSome result (λ patience. IsPatienceIn patience (rows_of (found_of options.now))) }
    ensures none { LacksPatience result (rows_of (found_of options.now)) }
{
    let patience = read_patience(options)?;
    if patience == 0 || patience > MAX_PATIENCE {
        return None;
    }
    Some(patience)
}

fn serve_job(alloc: Global, options: &ArgMatches<'_>) -> Result<Option<Job>, AllocError>
    ensures limits { IfOk result (λ job. IfSome job IsWithinLimits) }
    ensures job { IfOk result (λ job. IfSome job (λ job. IsServeIn job (rows_of (found_of options.now)))) }
    ensures none { IfOk result (λ job. LacksJob job (λ job. IsServeIn job (rows_of (found_of options.now)))) }
{
    let Some((port, count)) = numbers_in(options) else {
        return Ok(None);
    };
    let Some(patience) = patience_in(options) else {
        return Ok(None);
    };
    let db = file_of(alloc, options, "db")?;
    let token = file_of(alloc, options, "token")?;
    let log = has_flag(options, "log");
    let until_input_ends = has_flag(options, "until-input-ends");
    Ok(Some(Job::Serve {
        port,
        count,
        patience,
        db,
        token,
        log,
        until_input_ends,
    }))
}

fn report_job(alloc: Global, options: &ArgMatches<'_>) -> Result<Option<Job>, AllocError>
    ensures job { IfOk result (λ job. IfSome job (λ job. IsFileIn job (rows_of (found_of options.now)))) }
    ensures none { IfOk result (λ job. LacksJob job (λ job. IsFileIn job (rows_of (found_of options.now)))) }
{
    match options.get_str("FILE") {
        Some(file) => Ok(Some(Job::Report {
            file: String::from_str(alloc, file)?,
        })),
        None => Ok(None),
    }
}

fn job_in(alloc: Global, matches: &ArgMatches<'_>) -> Result<Option<Job>, AllocError>
    ensures limits { IfOk result (λ job. IfSome job IsWithinLimits) }
    ensures job { IfOk result (λ job. IfSome job (λ job. IsJobIn job (subcommand_rows_of matches.now))) }
    ensures none { IfOk result (λ job. LacksJob job (λ job. IsJobIn job (subcommand_rows_of matches.now))) }
{
    match matches.subcommand() {
        None => Ok(Some(Job::Run { db: None })),
        Some(("run", options)) => Ok(Some(run_job(alloc, options)?)),
        Some(("guard", options)) => Ok(Some(guard_job(alloc, options)?)),
        Some(("serve", options)) => serve_job(alloc, options),
        Some(("report", options)) => report_job(alloc, options),
        Some(_) => Ok(None),
    }
}

// What is told of an error of the words.
fn fault_of(alloc: Global, error: &Error) -> WordsFault
    ensures { IsToldBy result (kind_of error.now) }
{
    if error.kind() == ErrorKind::OutOfMemory {
        return WordsFault::Memory;
    }
    match format!(in alloc; "{error}") {
        Ok(text) if error.use_stderr() => WordsFault::Usage(text),
        Ok(text) => WordsFault::Help(text),
        Err(_) => WordsFault::Memory,
    }
}

// A fault of words that `clap` doesn't see.
fn misuse(alloc: Global, text: &str) -> WordsFault
    ensures { IsToldAs text.now result }
{
    match String::from_str(alloc, text) {
        Ok(text) => WordsFault::Usage(text),
        Err(_) => WordsFault::Memory,
    }
}

/// Why the words couldn't be had as texts. It is `Usage` if one of them is no text, with a line that says so. It is `Memory` if the
/// error is one of memory, or if there is none for that line.
pub fn no_text(alloc: Global, error: &io::Error) -> WordsFault
    ensures { IsWithoutWords result (error_kind error.now) }
{
    if error.kind() == io::ErrorKind::OutOfMemory {
        return WordsFault::Memory;
    }
    misuse(alloc, NO_TEXT)
}

/// The job that words ask for, which stand behind the program's name. The fault is `Help` if they ask for help, `Usage` if they have a
/// mistake or a number past its limits, and `Memory` if there is no memory to read them.
pub fn read_words(alloc: Global, words: &[&str]) -> Result<Job, WordsFault>
    // The port, the count and the patience keep their limits.
    ensures limits { IfOk result IsWithinLimits }

    // The words have no mistake, and ask for this job.
    ensures job { IfOk result (λ job. IsAskedFor job (map (λ word. word.now) words.now)) }

    // Help is told only if the words ask for it. That they are wrong is told only if they have a mistake, or ask for no job within
    // the limits.
    ensures help { IfErr result (λ fault. IsRefusedBy fault (map (λ word. word.now) words.now)) }
{
    let matches = match matches_in(alloc, words) {
        Ok(matches) => matches,
        Err(error) => return Err(fault_of(alloc, &error)),
    };
    match job_in(alloc, &matches) {
        Ok(Some(job)) => Ok(job),
        // The command refuses such words, so this is never told.
        Ok(None) => Err(misuse(alloc, NO_JOB)),
        Err(_) => Err(WordsFault::Memory),
    }
}
