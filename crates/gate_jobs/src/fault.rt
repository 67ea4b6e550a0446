use gate_hook::HookFault;
use gate_queue::Fault;

/// Why a job stopped before its end.
#[derive(Clone, Copy, Debug, PartialEq, Eq)]
pub enum JobFault {
    /// No book could be made, or reading, answering or writing stopped.
    Hook(HookFault),
    /// The address can't be bound.
    Bind,
    /// No connection could be accepted.
    Accept,
    /// The file can't be opened.
    File,
    /// The file with the token can't be opened or read, or holds no token.
    Token,
}

impl From<HookFault> for JobFault {
    ghost use Rattle.std.specs.Prelude.{◌≡◌};
    ghost use Rattle.gate_jobs.specs.declared.fault.JobFault.TheVariants.{Hook};

    ghost from_gives = { λ hook fault. fault ≡ Hook hook };

    fn from(fault: HookFault) -> JobFault {
        JobFault::Hook(fault)
    }
}

impl From<Fault> for JobFault {
    ghost use Rattle.std.specs.Prelude.{◌≡◌};
    ghost use Rattle.gate_jobs.specs.declared.fault.JobFault.TheVariants.{Hook};
    ghost use Rattle.gate_hook.specs.declared.fault.HookFault.TheVariants.{Gate};

    ghost from_gives = { λ gate fault. fault ≡ Hook (Gate gate) };

    fn from(fault: Fault) -> JobFault {
        JobFault::Hook(HookFault::Gate(fault))
    }
}
