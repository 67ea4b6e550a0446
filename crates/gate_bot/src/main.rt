//! The program `gate`: the merge bot, from the words that it is started with to its exit status.
#![tactic(auto)]

mod guarding;
mod records;
mod reporting;
mod running;
mod serving;

use crate::records::close;
use crate::serving::{Service, routes_of, serve, serve_in_file, token_in};
use gate_hook::{book_in_memory, serve_in_memory};
use gate_jobs::{
    Ending, Job, JobFault, WordsFault, complaint, ended, explain, no_text, read_words, status,
};
use gate_queue::Fault;
use sqlite::{Start, Unknown};
use std::env;
use std::fs::File;
use std::io::{self, BufReader, StdinLock};
use std::process::ExitCode;

/// Does the job that the words ask for. The status is 0 at its end or after help that was asked for, 1 after a fault, with one line
/// `gate: WORD` on standard error, and 2 if the words are wrong.
fn main(rt: HostRuntime) -> ExitCode {
    // What a database file held can't be known here. Each clause that speaks of it is proved for all contents.
    let end = end_of(&rt, Unknown);
    if let Ending::Fault(fault) = end {
        // If standard error fails too, there is nothing left to tell it by.
        let _ = eprintln!(rt; "{}", complaint(fault));
    }
    ExitCode::from(status(end))
}

fn end_of<S: Start>(rt: &HostRuntime, start: S) -> Ending {
    match asked(rt) {
        Ok(job) => ended(done(rt, &job, start)),
        Err(fault) => explain(&fault, &mut io::writer(rt), &mut rt.stderr()),
    }
}

// The job that the words behind the program's name ask for.
fn asked(rt: &HostRuntime) -> Result<Job, WordsFault> {
    let alloc = rt.alloc();
    let words: Vec<String> = match env::args(rt) {
        Ok(words) => words.skip(1).collect(alloc)?,
        Err(error) => return Err(no_text(alloc, &error)),
    };
    let texts: Vec<&str> = words.iter().map(|word| word.as_str()).collect(alloc)?;
    read_words(alloc, &texts)
}

// `start` stands for what the database file of the job held, if it has one.
fn done<S: Start>(rt: &HostRuntime, job: &Job, start: S) -> Result<(), JobFault> {
    match job {
        Job::Run { db: None } => run(rt),
        Job::Run { db: Some(db) } => run_in_file(rt, db.as_str(), start),
        Job::Guard { db: None } => guard(rt),
        Job::Guard { db: Some(db) } => guard_in_file(rt, db.as_str(), start),
        Job::Serve {
            port,
            count,
            patience,
            db,
            token,
            log,
            until_input_ends,
        } => {
            let routes = routes_of(rt, token_in(rt, token.as_ref())?)?;
            let service = Service {
                port: *port,
                count: *count,
                patience: *patience,
                routes: &routes,
                has_log: *log,
                until_input_ends: *until_input_ends,
            };
            match db {
                None => serve(rt, service),
                Some(db) => serve_in_file(rt, db.as_str(), start, service),
            }
        }
        Job::Report { file } => report(rt, file.as_str()),
    }
}

fn run(rt: &HostRuntime) -> Result<(), JobFault> {
    serve_in_memory(rt.alloc(), &mut rt.reader(), &mut io::writer(rt))?;
    Ok(())
}

fn run_in_file<S: Start>(rt: &HostRuntime, file: &str, start: S) -> Result<(), JobFault> {
    let (served, book) = running::run_in_file(
        rt,
        file,
        start,
        &mut rt.reader(),
        &mut io::writer(rt),
    )?;
    close(book);
    served?;
    Ok(())
}

// Standard input, which is read in pieces. If there is no memory for them, the fault is `Gate(Memory)`.
fn input_of(rt: &HostRuntime) -> Result<BufReader<StdinLock<'_>>, JobFault> {
    BufReader::new(rt.alloc(), rt.reader()).map_err(|_| JobFault::from(Fault::Memory))
}

fn guard(rt: &HostRuntime) -> Result<(), JobFault> {
    let mut reader = input_of(rt)?;
    guarding::guard(rt.alloc(), &mut reader, &mut io::writer(rt))?;
    Ok(())
}

fn guard_in_file<S: Start>(rt: &HostRuntime, file: &str, start: S) -> Result<(), JobFault> {
    let mut reader = input_of(rt)?;
    let (told, book) = guarding::guard_in_file(rt, file, start, &mut reader, &mut io::writer(rt))?;
    close(book);
    told?;
    Ok(())
}

// The records are made before the file is opened.
fn report(rt: &HostRuntime, file: &str) -> Result<(), JobFault> {
    let book = book_in_memory(rt.alloc());
    match File::open(rt, file) {
        Ok(mut file) => {
            reporting::report(rt.alloc(), book, &mut file, &mut io::writer(rt))?;
            Ok(())
        }
        Err(_) => {
            // By name, since a book that ends with its function is dear to prove.
            drop(book);
            Err(JobFault::File)
        }
    }
}
