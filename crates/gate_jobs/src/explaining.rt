ghost use Rattle.gate_jobs.specs.Explaining.{Explains};

use crate::fault::JobFault;
use crate::outcome::Ending;
use gate_hook::{HookFault, send};
use gate_queue::Fault;
use gate_words::WordsFault;
use std::io::Write;

/// Tells why words ask for no job: help that was asked for goes to the first writer, and what is wrong with the words to the
/// second.
pub fn explain<O: Write, E: Write>(fault: &WordsFault, out: &mut O, err: &mut E) -> Ending
    ensures explains { Explains fault.now result (O.contents out.old) (O.contents out.new) (E.contents err.old) (E.contents err.new) }
{
    match fault {
        WordsFault::Help(text) => match send(out, text.as_bytes()) {
            Ok(()) => Ending::Done,
            Err(fault) => Ending::Fault(JobFault::Hook(fault)),
        },
        WordsFault::Usage(text) => {
            // If standard error fails, there is nothing left to tell it by.
            let _ = send(err, text.as_bytes());
            Ending::Usage
        }
        WordsFault::Memory => Ending::Fault(JobFault::Hook(HookFault::Gate(Fault::Memory))),
    }
}
