ghost use Rattle.std.specs.Prelude.{◌≡◌, IfErr, IfOk, IfSome, Ok, Some, None};
ghost use Rattle.std.specs.Option.{unwrap_or};
ghost use Rattle.gate_rules.specs.View.{look};
ghost use Rattle.gate_text.specs.declared.command.Command.TheVariants as command;
ghost use Rattle.gate_text.specs.declared.command.Spoken.TheVariants.{Known};
ghost use Rattle.gate_state.specs.declared.act.Act.TheVariants.{On};
ghost use Rattle.gate_state.specs.declared.act.Deed.TheVariants.{Said};
ghost use Rattle.gate_queue.specs.Judging.{IsRetry};
ghost use Rattle.gate_queue.specs.Machine as machine;

use gate_rules::{Desk, Repeat};
use gate_state::{Act, Deed};
use gate_text::{ChangeNo, Command, Name, Spoken};
use std::alloc::{AllocError, Global};

/// What a `retry` means: the command that it repeats, by the person who writes it. `None` for any other act, since it means
/// itself, and if there is nothing to repeat. `AllocError` if there is no memory for it; any other act takes none.
pub fn repeated_act(desk: &Desk, alloc: Global, act: &Act) -> Result<Option<Act>, AllocError>
    ensures value { IfOk result (λ repeated. unwrap_or repeated act.now ≡ machine.meaning (look desk.now) act.now) }
    ensures retry { IfOk result (λ repeated. IfSome repeated (λ _. IsRetry act.now)) }
    ensures cause { IfErr result (λ _. IsRetry act.now) }
    ensures no_memory { machine.DeskTakesNoMemory desk.now act.now → result ≡ Ok None }
{
    match act {
        Act::On {
            change,
            deed: Deed::Said {
                person,
                spoken: Spoken::Known(Command::Retry),
            },
        } => repeated_line(desk, alloc, *change, person),
        _ => Ok(None),
    }
}

fn repeated_line(
    desk: &Desk,
    alloc: Global,
    change: ChangeNo,
    person: &Name,
) -> Result<Option<Act>, AllocError>
    ensures value { IfOk result
        (λ repeated. unwrap_or repeated (On change (Said person.now (Known command.Retry)))
        ≡ machine.meaning (look desk.now) (On change (Said person.now (Known command.Retry)))) }
{
    let Some(repeat) = desk.last_command(change) else {
        return Ok(None);
    };
    let deed = Deed::Said {
        person: person.copy(alloc)?,
        spoken: Spoken::Known(command_of(alloc, repeat)?),
    };
    Ok(Some(Act::On { change, deed }))
}

// The command that is repeated.
fn command_of(alloc: Global, repeat: &Repeat) -> Result<Command, AllocError>
    ensures { IfOk result (λ repeated. repeated ≡ machine.repeated (Some repeat.now)) }
{
    Ok(match repeat {
        Repeat::Approve => Command::Approve,
        Repeat::ApproveFor(names) => Command::ApproveFor(names.copy(alloc)?),
        Repeat::Try => Command::Try,
    })
}
