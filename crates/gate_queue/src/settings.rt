ghost use Rattle.std.specs.Prelude.{◌≡◌, Ok, IfOk};
ghost use Rattle.gate_state.specs.declared.reply.Order.TheVariants.{Notice};
ghost use Rattle.gate_state.specs.declared.reply.Why.TheVariants as why;
ghost use Rattle.gate_queue.specs.Machine as machine;
ghost use Rattle.gate_queue.specs.Machine.{settings_notices};
ghost use Rattle.gate_state.specs.Queue.{restarted};
ghost use Rattle.gate_state.specs.declared.batch.Branch.TheVariants.{Staging, Trying};
ghost use Rattle.gate_state.specs.Room.{HasRoom, HasRoomFor};

use crate::outcome::{Outcome, quiet};
use gate_rules::{Change, Condition, Desk, has_too_few_reviews, is_blocked};
use gate_state::{Approved, Branch, Order, Orders, Queue, State, Why};
use gate_text::{ChangeNo, Settings};
use std::alloc::{AllocError, Global};

/// That settings end the approval of a change: it is approved, and has a blocking label or too few reviews under them.
#[derive(Clone, Copy, Debug)]
pub struct LosesApproval<'a> {
    /// The settings.
    pub settings: &'a Settings,
}

impl Condition for LosesApproval<'_> {
    ghost meets = { λ change loses. machine.loses_approval loses.settings.now change };

    fn is_met(&self, change: &Change) -> bool {
        change.approved.is_some()
            && (is_blocked(self.settings, change) || has_too_few_reviews(self.settings, change))
    }
}

/// Takes settings that a text brought, unless they are the present ones. `AllocError` if there is no memory for it.
pub fn accept_settings(
    state: State,
    alloc: Global,
    settings: Settings,
) -> Result<Outcome, AllocError>
    requires { HasRoom state.queue }
    ensures value { IfOk result (λ outcome. outcome ≡ machine.accepted state (Ok settings)) }
{
    if are_present(&state.desk, &settings) {
        Ok(quiet(state, alloc))
    } else {
        take_settings(state, alloc, settings)
    }
}

/// Whether these are the settings of a desk.
pub fn are_present(desk: &Desk, settings: &Settings) -> bool
    ensures { result ≡ machine.are_present desk.now settings.now }
{
    match desk.settings() {
        Some(present) => present == settings,
        None => false,
    }
}

// Takes settings in place of the present ones. They end the approvals that they are against, and what was tested under the
// present ones is tested anew.
fn take_settings(state: State, alloc: Global, settings: Settings) -> Result<Outcome, AllocError>
    requires { HasRoom state.queue }
    ensures { IfOk result (λ outcome. outcome ≡ machine.under settings state) }
{
    let State { mut desk, queue } = state;
    let orders = losing_notices(alloc, &desk, &settings)?;
    settle(&mut desk, settings);
    let queue = resettle(queue, &desk)?;
    Ok(Outcome {
        state: State { desk, queue },
        orders,
    })
}

// A notice for each change that loses its approval by settings.
fn losing_notices(alloc: Global, desk: &Desk, settings: &Settings) -> Result<Orders, AllocError>
    ensures { IfOk result (λ orders. orders ≡ settings_notices (machine.losing_on desk.now settings.now)) }
{
    let losing = desk.numbers_where(alloc, &LosesApproval { settings })?;
    notices_to(alloc, losing.as_slice())
}

// Ends the approvals that settings are against, and puts these in place of the present ones.
fn settle(desk: &mut Desk, settings: Settings)
    ensures { desk.new ≡ machine.with_new_settings desk.old settings }
{
    let loses = LosesApproval {
        settings: &settings,
    };
    desk.end_approvals_where(&loses);
    desk.set_settings(settings);
}

// Takes out what isn't approved any longer, and lets the running batches wait again.
fn resettle(queue: Queue, desk: &Desk) -> Result<Queue, AllocError>
    requires { HasRoom queue }
    ensures { IfOk result (λ after. after ≡ machine.resettled desk.now queue) }
{
    restart_both(queue.take_out(Branch::Staging, &Approved { desk })?)
}

// Lets the running batches of both branches wait again.
fn restart_both(queue: Queue) -> Result<Queue, AllocError>
    requires { HasRoomFor 2 queue }
    ensures { IfOk result (λ after. after ≡ restarted Trying (restarted Staging queue)) }
{
    queue.restart(Branch::Staging)?.restart(Branch::Trying)
}

// A notice for each of these changes, in their order.
fn notices_to(alloc: Global, numbers: &[ChangeNo]) -> Result<Orders, AllocError>
    ensures { IfOk result (λ orders. orders ≡ settings_notices numbers.now) }
{
    let mut notices = Vec::new(alloc);
    for number in numbers {
        notices.push(settings_notice(*number))?;
    }
    Ok(Orders::from(notices))
}

fn settings_notice(change: ChangeNo) -> Order
    ensures { result ≡ Notice change why.Settings }
{
    Order::Notice {
        change,
        why: Why::Settings,
    }
}
