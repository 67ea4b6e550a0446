ghost use Rattle.std.specs.Prelude.{◌≡◌};
ghost use Rattle.gate_jobs.specs.Outcome.{complaint_of, ending_of, status_of};

use crate::fault::JobFault;
use gate_hook::HookFault;
use gate_queue::Fault;

/// What the program ends with.
#[derive(Clone, Copy, Debug, PartialEq, Eq)]
pub enum Ending {
    /// The job is done, or the help is printed that was asked for.
    Done,
    /// A fault stopped it.
    Fault(JobFault),
    /// The words are wrong.
    Usage,
}

/// What the program ends with after a job.
pub fn ended(job: Result<(), JobFault>) -> Ending
    ensures value { result ≡ ending_of job }
{
    match job {
        Ok(()) => Ending::Done,
        Err(fault) => Ending::Fault(fault),
    }
}

/// The exit status: 0 at the end of a job or after help, 1 after a fault, and 2 if the words are wrong.
pub fn status(ending: Ending) -> u8
    ensures value { result ≡ status_of ending }
{
    match ending {
        Ending::Done => 0,
        Ending::Fault(_) => 1,
        Ending::Usage => 2,
    }
}

/// What the line of a fault begins with, before the fault's word.
pub const COMPLAINT: &str = "gate: ";

/// The line that a fault prints on standard error, without its line feed.
pub fn complaint(fault: JobFault) -> &'static str
    ensures value { result.now ≡ complaint_of fault }
{
    match fault {
        JobFault::Hook(HookFault::Gate(Fault::Memory)) => "gate: Memory",
        JobFault::Hook(HookFault::Gate(Fault::Store)) => "gate: Store",
        JobFault::Hook(HookFault::Gate(Fault::Full)) => "gate: Full",
        JobFault::Hook(HookFault::Gate(Fault::Foreign)) => "gate: Foreign",
        JobFault::Hook(HookFault::Read) => "gate: Read",
        JobFault::Hook(HookFault::Write) => "gate: Write",
        JobFault::Hook(HookFault::TooMuch) => "gate: TooMuch",
        JobFault::Bind => "gate: Bind",
        JobFault::Accept => "gate: Accept",
        JobFault::File => "gate: File",
        JobFault::Token => "gate: Token",
    }
}
