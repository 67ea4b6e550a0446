//! A program for tests alone: it makes calls over a database that the program `gate` never makes.
//!
//! `gate_books committed` serves lines over a book in two files in memory that keeps each delivery by `commit`, and prints the rows
//! of the tables in place of the answers. `.ci/test_rows` starts it so.
#![tactic(auto)]

mod by_commit;
mod fault;
mod serving;
mod tables;

use crate::fault::BooksFault;
use std::env;
use std::io::{self, BufReader};
use std::process::ExitCode;

/// Does what the word behind the program's name asks for. The status is 1 after a fault, with one line `gate_books: WORD` on
/// standard error.
fn main(rt: HostRuntime) -> ExitCode {
    match run(&rt) {
        Ok(()) => ExitCode::SUCCESS,
        Err(fault) => {
            // If standard error fails too, there is nothing left to tell it by.
            let _ = eprintln!(rt; "gate_books: {fault}");
            ExitCode::FAILURE
        }
    }
}

fn run(rt: &HostRuntime) -> Result<(), BooksFault> {
    let asked = asked(rt)?;
    let mut reader = BufReader::new(rt.alloc(), rt.reader())?;
    let mut writer = io::writer(rt);
    match asked.as_str() {
        "committed" => tables::print_committed(rt.alloc(), &mut reader, &mut writer),
        _ => Err(BooksFault::Usage),
    }
}

// The word behind the program's name.
fn asked(rt: &HostRuntime) -> Result<String, BooksFault> {
    env::args(rt)?.nth(1).ok_or(BooksFault::Usage)
}
