ghost use Rattle.std.specs.Prelude.{◌≡◌, IfOk, codes, decimal};
ghost use Rattle.std.specs.String.{string_bytes};
ghost use Rattle.gate_report.specs.Columns as columns;
ghost use Rattle.gate_report.specs.Queue as queue;
ghost use Rattle.gate_report.specs.Queue.{queue_text_of};

use crate::batches::push_rows;
use crate::columns::field;
use gate_queue::Gate;
use gate_rules::Desk;
use std::alloc::{AllocError, Global};

// The names of the columns, each over its places.
const HEADING: &str = "           batch branch  state     prio changes\n";

fn base_line(alloc: Global, desk: &Desk) -> Result<String, AllocError>
    ensures { IfOk result (λ line. string_bytes line ≡ columns.field (codes "base") (queue.base_word desk.now.base)) }
{
    match desk.base() {
        Some(commit) => field(alloc, "base", commit.text()),
        None => field(alloc, "base", "none"),
    }
}

fn clock_line(alloc: Global, desk: &Desk) -> Result<String, AllocError>
    ensures { IfOk result (λ line. string_bytes line ≡ columns.field (codes "clock") (decimal desk.now.clock)) }
{
    let clock = desk.clock().to_string(alloc)?;
    field(alloc, "clock", clock.as_str())
}

// What stands above the batches.
#[tactic(auto, unfolding(crate::specs::Queue::head_of))]
fn head(alloc: Global, desk: &Desk) -> Result<String, AllocError>
    ensures { IfOk result (λ text. string_bytes text ≡ queue.head_of desk.now) }
{
    let base = base_line(alloc, desk)?;
    let clock = clock_line(alloc, desk)?;
    format!(in alloc; "{base}{clock}{HEADING}")
}

/// The base, the clock and the batches of a gate as text: a line for each of the two, a heading, and a row for each batch, in
/// order of service. `AllocError` if there is no memory for it.
pub fn queue_text(alloc: Global, gate: &Gate) -> Result<String, AllocError>
    ensures value { IfOk result (λ text. string_bytes text ≡ queue_text_of gate.now) }
{
    let state = gate.state();
    let mut text = head(alloc, &state.desk)?;
    let batches = state.queue.batches(alloc)?;
    push_rows(&mut text, alloc, &batches)?;
    Ok(text)
}
