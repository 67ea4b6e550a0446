//! A program that answers lines over records in memory, and has no other job. `./gate` builds it for a first answer, since less has to be
//! proved for it than for the program `gate`, which has this job too.
#![tactic(auto)]

use gate_hook::serve_in_memory;
use std::io;
use std::process::ExitCode;

/// Answers the lines of standard input on standard output, as `gate run` does. It reads no words. The status is 0 at the end of the input,
/// and 1 after a fault, with one line `gate: WORD` on standard error.
fn main(rt: HostRuntime) -> ExitCode {
    match serve_in_memory(rt.alloc(), &mut rt.reader(), &mut io::writer(&rt)) {
        Ok(_) => ExitCode::SUCCESS,
        Err(fault) => {
            // If standard error fails too, there is nothing left to tell it by.
            let _ = eprintln!(rt; "gate: {fault}");
            ExitCode::FAILURE
        }
    }
}
