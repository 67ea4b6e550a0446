ghost use Rattle.std.specs.Prelude.{◌≡◌, OnOk, IfOk, IsNone, IsOk};
ghost use Rattle.gate_rules.specs.View.{look};
ghost use Rattle.gate_state.specs.declared.act.Act.TheVariants.{On};
ghost use Rattle.gate_state.specs.declared.act.Deed.TheVariants.{Happened};
ghost use Rattle.gate_queue.specs.Machine as machine;
ghost use Rattle.gate_queue.specs.Machine.{CommandTakesNoMemory, DeedTakesNoMemory, broken, effect, command_effect};

use crate::changing;
use crate::changing::no_orders;
use gate_rules::{Desk, Repeat};
use gate_state::{ChangeFact, Deed, Orders};
use gate_text::{ChangeNo, Command, Name, Names, Spoken};
use std::alloc::{AllocError, Global};

/// Does to the desk what a deed on this change does that no rule denies, and gives its orders.
pub fn perform(
    desk: &mut Desk,
    alloc: Global,
    number: ChangeNo,
    deed: &Deed,
) -> Result<Orders, AllocError>
    requires { IsNone (broken (look desk.old) (On number deed.now)) }
    ensures desk { OnOk result (desk.new ≡ effect desk.old number deed.now) }
    ensures orders { IfOk result (λ orders. orders ≡ machine.notices desk.old number deed.now) }
    ensures no_memory { DeedTakesNoMemory desk.old number deed.now → IsOk result }
{
    match deed {
        Deed::Said {
            person,
            spoken: Spoken::Known(command),
        } => perform_command(desk, alloc, person, number, command)?,
        // An unknown line does nothing.
        Deed::Said { .. } => {}
        Deed::Happened(fact) => return take_change_fact(desk, alloc, number, fact),
    }
    Ok(no_orders(alloc))
}

// Does what a fact about a change does that no rule denies.
fn take_change_fact(
    desk: &mut Desk,
    alloc: Global,
    number: ChangeNo,
    fact: &ChangeFact,
) -> Result<Orders, AllocError>
    requires { IsNone (broken (look desk.old) (On number (Happened fact.now))) }
    ensures desk { OnOk result (desk.new ≡ effect desk.old number (Happened fact.now)) }
    ensures orders { IfOk result (λ orders. orders ≡ machine.notices desk.old number (Happened fact.now)) }
    ensures no_memory { DeedTakesNoMemory desk.old number (Happened fact.now) → IsOk result }
{
    match fact {
        ChangeFact::Opened { author, head } => changing::open(desk, alloc, number, author, *head)?,
        ChangeFact::Pushed { head } => return changing::push(desk, alloc, number, *head),
        ChangeFact::Closed => return changing::close(desk, alloc, number),
        ChangeFact::Labeled { label } => return changing::add_label(desk, alloc, number, label),
        ChangeFact::Unlabeled { label } => changing::remove_label(desk, number, label),
        ChangeFact::Review {
            person,
            approves,
            ..
        } => return changing::review(desk, alloc, number, person, *approves),
    }
    Ok(no_orders(alloc))
}

// Does what a command does that no rule denies.
fn perform_command(
    desk: &mut Desk,
    alloc: Global,
    person: &Name,
    change: ChangeNo,
    command: &Command,
) -> Result<(), AllocError>
    ensures value { OnOk result (desk.new ≡ command_effect desk.old person.now change command.now) }
    ensures no_memory { CommandTakesNoMemory command.now → IsOk result }
{
    match command {
        Command::Approve => {
            let mut approvers = Names::from(Vec::new(alloc));
            approvers.push(person.copy(alloc)?)?;
            changing::approve(desk, change, approvers, Repeat::Approve);
        }
        Command::ApproveFor(names) => {
            let last = Repeat::ApproveFor(names.copy(alloc)?);
            changing::approve(desk, change, names.copy(alloc)?, last);
        }
        Command::Withdraw => changing::withdraw(desk, change),
        Command::Try => changing::start_trying(desk, change),
        Command::TryCancel => changing::stop_trying(desk, change),
        Command::Priority(priority) => changing::set_priority(desk, change, *priority),
        Command::DelegateAuthor => changing::delegate_author(desk, alloc, change)?,
        Command::DelegateTo(names) => changing::delegate_to(desk, alloc, change, names)?,
        Command::DelegateNone => changing::delegate_none(desk, alloc, change),
        // `ping` does nothing, and a `retry` that acts comes as what it repeats.
        Command::Ping | Command::Retry => {}
    }
    Ok(())
}
