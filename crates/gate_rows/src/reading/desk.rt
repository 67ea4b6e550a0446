ghost use Rattle.std.specs.Prelude.{◌≡◌, ◌≢◌, IfErr, IfOk};
ghost use Rattle.gate_rows.specs.Encoding.{role_number};
ghost use Rattle.gate_rules.specs.declared.role.Role.{Role as RoleOf};

use crate::reading::changes::put_changes;
use crate::reading::words::{commit, context, label, name, natural, small_natural};
use gate_rules::{Desk, Role};
use gate_tables::{DeskRow, PersonRow, Rows, TablesFault, WantedRow};
use gate_text::{Contexts, Labels, Settings};
use std::alloc::Global;

/// The desk of these rows, whose changes are neither tried nor landing yet.
pub(crate) fn desk_in(alloc: Global, rows: &Rows, row: &DeskRow) -> Result<Desk, TablesFault> {
    let clock = natural(row.clock)?;
    let mut desk = Desk::new(alloc);
    desk.set_clock(clock);
    match fill(alloc, &mut desk, rows, row) {
        Ok(()) => Ok(desk),
        Err(fault) => {
            drop(desk);
            Err(fault)
        }
    }
}

// Puts the rest onto a desk. (Each value that a function lets go where it ends early is dear to prove, so it has none.)
fn fill(alloc: Global, desk: &mut Desk, rows: &Rows, row: &DeskRow) -> Result<(), TablesFault> {
    if !row.base.as_str().is_empty() {
        desk.set_base(commit(&row.base)?);
    }
    if row.timeout_sec != 0 {
        desk.set_settings(settings_in(alloc, row, rows.wanted.as_slice())?);
    }
    put_people(alloc, desk, rows.people.as_slice())?;
    put_changes(alloc, desk, rows)
}

// The settings with their lists.
fn settings_in(
    alloc: Global,
    row: &DeskRow,
    wanted: &[WantedRow],
) -> Result<Settings, TablesFault> {
    let timeout = small_natural(row.timeout_sec)?;
    let approvals = small_natural(row.required_approvals)?;
    let size = match small_natural(row.max_batch_size)? {
        0 => None,
        size => Some(size),
    };
    let mut status = Contexts::from(Vec::new(alloc));
    let mut labels = Labels::from(Vec::new(alloc));
    let mut own = Contexts::from(Vec::new(alloc));
    match add_wanted(alloc, &mut status, &mut labels, &mut own, wanted) {
        Ok(()) => {
            Settings::new(status, timeout, labels, approvals, size, own).ok_or(TablesFault::Store)
        }
        Err(fault) => {
            drop((status, labels, own));
            Err(fault)
        }
    }
}

fn add_wanted(
    alloc: Global,
    status: &mut Contexts,
    labels: &mut Labels,
    own: &mut Contexts,
    rows: &[WantedRow],
) -> Result<(), TablesFault> {
    for row in rows {
        match row.kind {
            1 => status.push(context(alloc, &row.word)?)?,
            2 => labels.push(label(alloc, &row.word)?)?,
            3 => own.push(context(alloc, &row.word)?)?,
            _ => return Err(TablesFault::Store),
        }
    }
    Ok(())
}

fn put_people(alloc: Global, desk: &mut Desk, rows: &[PersonRow]) -> Result<(), TablesFault> {
    for row in rows {
        let role = role_in(row.role)?;
        let name = name(alloc, &row.name)?;
        let put = desk.set_role(alloc, &name, role);
        drop(name);
        put?;
    }
    Ok(())
}

fn role_in(number: i64) -> Result<Role, TablesFault>
    ensures some { IfOk result (λ role. (role ≢ Role.Nobody) × (number ≡ role_number role)) }
    ensures none { IfErr result (λ fault. (fault ≡ TablesFault.Store)
        × ((role : RoleOf) → role ≢ Role.Nobody → number ≢ role_number role)) }
{
    match number {
        1 => Ok(Role::Member),
        2 => Ok(Role::Reviewer),
        _ => Err(TablesFault::Store),
    }
}
