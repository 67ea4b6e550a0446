ghost use Rattle.std.specs.Prelude.{◌≡◌, [], IfOk};
ghost use Rattle.std.specs.Option.{option_copied, unwrap_or};
ghost use Rattle.gate_rows.specs.Encoding as encoding;

use crate::rows::numbers::integer;
use gate_queue::Gate;
use gate_tables::DeskRow;
use gate_text::{Commit, Settings, Text};
use std::alloc::{AllocError, Global};

/// The one row of the desk.
pub(crate) fn desk_row(alloc: Global, gate: &Gate) -> Result<DeskRow, AllocError>
    ensures { IfOk result (λ row. row ≡ encoding.desk_row gate.now) }
{
    let desk = gate.desk();
    desk_row_of(
        alloc,
        gate.next(),
        desk.clock(),
        desk.base(),
        desk.settings(),
    )
}

/// The row by the number of the next batch, the clock, the base and the settings.
pub(crate) fn desk_row_of(
    alloc: Global,
    next: u64,
    clock: u64,
    base: Option<Commit>,
    settings: Option<&Settings>,
) -> Result<DeskRow, AllocError>
    ensures { IfOk result (λ row. row ≡ encoding.desk_row_of next clock base (option_copied settings.entry)) }
{
    Ok(DeskRow {
        one: 1,
        version: 2,
        next_batch: integer(next)?,
        clock: integer(clock)?,
        base: base_text(alloc, base)?,
        timeout_sec: timeout_of(settings),
        required_approvals: approvals_of(settings),
        max_batch_size: size_of(settings),
    })
}

fn base_text(alloc: Global, base: Option<Commit>) -> Result<Text, AllocError>
    ensures { IfOk result (λ text. text ≡ unwrap_or base []) }
{
    match base {
        Some(commit) => Text::from_str(alloc, commit.text()),
        None => Text::from_str(alloc, ""),
    }
}

fn timeout_of(settings: Option<&Settings>) -> i64
    ensures { result ≡ encoding.timeout_of (option_copied settings.entry) }
{
    match settings {
        Some(settings) => i64::from(settings.timeout_sec()),
        None => 0,
    }
}

fn approvals_of(settings: Option<&Settings>) -> i64
    ensures { result ≡ encoding.approvals_of (option_copied settings.entry) }
{
    match settings {
        Some(settings) => i64::from(settings.required_approvals()),
        None => 0,
    }
}

fn size_of(settings: Option<&Settings>) -> i64
    ensures { result ≡ encoding.size_of (option_copied settings.entry) }
{
    match settings {
        Some(settings) => i64::from(settings.max_batch_size().unwrap_or(0)),
        None => 0,
    }
}
