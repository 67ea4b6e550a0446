ghost use Rattle.std.specs.Prelude.{◌≡◌, IfOk};

use crate::names::Names;
use std::alloc::{AllocError, Global};

/// A command of a comment, as the bors-ng reference documentation names them.
#[derive(Debug, Drop, PartialEq, Eq)]
pub enum Command {
    /// `ping`: asks whether the bot is there.
    Ping,
    /// `r+`, `merge`: approves the change.
    Approve,
    /// `r=`, `merge=`: approves the change in the name of these people, one or more and all different.
    ApproveFor(Names),
    /// `r-`, `merge-`: takes the approval back.
    Withdraw,
    /// `p=`: sets the priority, from -9,999 to 9,999.
    Priority(i32),
    /// `try`: has the change tested, and not landed.
    Try,
    /// `try-`: takes the try back.
    TryCancel,
    /// `delegate+`, `d+`: makes the author of the change its delegate, who may then approve it.
    DelegateAuthor,
    /// `delegate=`, `d=`: makes these people delegates of the change, one or more and all different.
    DelegateTo(Names),
    /// `delegate-`, `d-`: takes all delegations of the change back.
    DelegateNone,
    /// `retry`: repeats the last command of the change that asked for an approval or a try.
    Retry,
}

impl Command {
    /// A copy, or `AllocError` if there is no memory for it.
    pub fn copy(&self, alloc: Global) -> Result<Command, AllocError>
        ensures value { IfOk result (λ copy. copy ≡ self.now) }
    {
        Ok(match self {
            Command::Ping => Command::Ping,
            Command::Approve => Command::Approve,
            Command::ApproveFor(names) => Command::ApproveFor(names.copy(alloc)?),
            Command::Withdraw => Command::Withdraw,
            Command::Priority(priority) => Command::Priority(*priority),
            Command::Try => Command::Try,
            Command::TryCancel => Command::TryCancel,
            Command::DelegateAuthor => Command::DelegateAuthor,
            Command::DelegateTo(names) => Command::DelegateTo(names.copy(alloc)?),
            Command::DelegateNone => Command::DelegateNone,
            Command::Retry => Command::Retry,
        })
    }
}

/// One thing that a command line of a comment says.
#[derive(Debug, Drop, PartialEq, Eq)]
pub enum Spoken {
    /// A command.
    Known(Command),
    /// A body that is no command.
    Unknown,
}
