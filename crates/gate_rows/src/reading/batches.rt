ghost use Rattle.std.specs.Prelude.{◌≡◌, ◌⊎◌, IfErr, IfOk, IsTrue, OnErr, OnOk};
ghost use Rattle.gate_rows.specs.Encoding as encoding;
ghost use Rattle.gate_rows.specs.Guess.{HasMore};
ghost use Rattle.gate_rows.specs.Words.{IsReadBy};
ghost use Rattle.gate_state.specs.Checks.{is_waiting};
ghost use Rattle.gate_state.specs.declared.lane.Lane.{Lane as LaneOf};

use crate::reading::words::{change_no, commit, context, natural, priority};
use gate_rules::Desk;
use gate_state::{Batch, Branch, Changes, Lane, Queue, Report, Reports, Stage};
use gate_tables::{BatchRow, MemberRow, Rows, StatusRow, TablesFault};
use gate_text::{ChangeNo, Context};
use std::alloc::{AllocError, Global};
use std::collections::BTreeMap;

/// The queue of these rows. Its changes are tried and landing on the desk from then on.
pub(crate) fn queue_in(
    alloc: Global,
    desk: &mut Desk,
    rows: &Rows,
    next: u64,
) -> Result<Queue, TablesFault> {
    let mut queue = Queue {
        staging: Lane::new(alloc),
        trying: Lane::new(alloc),
        next,
    };
    match fill(alloc, desk, &mut queue, rows) {
        Ok(()) => Ok(queue),
        Err(fault) => {
            drop(queue);
            Err(fault)
        }
    }
}

// Puts the batches of these rows on their branches.
fn fill(alloc: Global, desk: &mut Desk, queue: &mut Queue, rows: &Rows) -> Result<(), TablesFault> {
    let mut changes = members_in(alloc, rows.members.as_slice())?;
    let mut reports = reports_in(alloc, rows.statuses.as_slice())?;
    for row in rows.batches.as_slice() {
        let changes = changes
            .remove(&row.number)
            .unwrap_or(Changes::from(Vec::new(alloc)));
        let reports = reports.remove(&row.number).unwrap_or(Reports::new(alloc));
        put(desk, queue, batch_in(row, changes, reports)?)?;
    }
    Ok(())
}

fn put(desk: &mut Desk, queue: &mut Queue, batch: Batch) -> Result<(), TablesFault> {
    mark_changes(desk, &batch);
    match batch.branch {
        Branch::Staging => put_batch(&mut queue.staging, batch),
        Branch::Trying => put_batch(&mut queue.trying, batch),
    }
}

// The changes of each batch.
fn members_in(alloc: Global, rows: &[MemberRow]) -> Result<BTreeMap<i64, Changes>, TablesFault> {
    let mut changes = BTreeMap::new(alloc);
    for row in rows {
        add_change(alloc, &mut changes, row.batch, change_no(row.change_no)?)?;
    }
    Ok(changes)
}

fn add_change(
    alloc: Global,
    changes: &mut BTreeMap<i64, Changes>,
    batch: i64,
    change: ChangeNo,
) -> Result<(), AllocError> {
    if let Some(changes) = changes.get_mut(&batch) {
        return changes.push(change);
    }
    let mut first = Changes::from(Vec::new(alloc));
    first.push(change)?;
    changes.insert(batch, first)?;
    Ok(())
}

// The reports of each batch.
fn reports_in(alloc: Global, rows: &[StatusRow]) -> Result<BTreeMap<i64, Reports>, TablesFault> {
    let mut reports = BTreeMap::new(alloc);
    for row in rows {
        let name = context(alloc, &row.name)?;
        add_report(alloc, &mut reports, row.batch, name, report_in(row.report)?)?;
    }
    Ok(reports)
}

fn add_report(
    alloc: Global,
    reports: &mut BTreeMap<i64, Reports>,
    batch: i64,
    name: Context,
    report: Report,
) -> Result<(), AllocError> {
    if let Some(reports) = reports.get_mut(&batch) {
        return reports.keep(name, report);
    }
    let mut first = Reports::new(alloc);
    first.keep(name, report)?;
    reports.insert(batch, first)?;
    Ok(())
}

fn report_in(number: i64) -> Result<Report, TablesFault>
    ensures { IsReadBy encoding.report_number number result }
{
    match number {
        1 => Ok(Report::Success),
        2 => Ok(Report::Pending),
        _ => Err(TablesFault::Store),
    }
}

fn batch_in(row: &BatchRow, changes: Changes, reports: Reports) -> Result<Batch, TablesFault> {
    Ok(Batch {
        number: natural(row.number)?,
        branch: branch_in(row.branch)?,
        priority: priority(row.priority)?,
        again: row.again != 0,
        stage: stage_in(row, reports)?,
        changes,
    })
}

fn branch_in(number: i64) -> Result<Branch, TablesFault>
    ensures { IsReadBy encoding.branch_number number result }
{
    match number {
        1 => Ok(Branch::Staging),
        2 => Ok(Branch::Trying),
        _ => Err(TablesFault::Store),
    }
}

fn stage_in(row: &BatchRow, reports: Reports) -> Result<Stage, TablesFault>
    ensures { IfOk result (λ stage. row.now.phase ≡ encoding.stage_number stage) }
{
    match row.phase {
        1 => Ok(Stage::Waiting),
        2 => Ok(Stage::Ordered {
            since: natural(row.since)?,
        }),
        3 => Ok(Stage::Staged {
            since: natural(row.since)?,
            commit: commit(&row.sha)?,
            reports,
        }),
        4 => Ok(Stage::Landing {
            commit: commit(&row.sha)?,
        }),
        _ => Err(TablesFault::Store),
    }
}

// A batch that doesn't wait runs, and a branch runs one. So `Store` if there is no such branch with this batch as well.
fn put_batch(lane: &mut Lane, batch: Batch) -> Result<(), TablesFault>
    ensures ok { OnOk result (HasMore batch lane.old lane.new) }
    ensures same { OnErr result (lane.new ≡ lane.old) }
    ensures cause { IfErr result (λ fault. ((fault ≡ TablesFault.Memory) × IsTrue (is_waiting batch.stage))
        ⊎ ((fault ≡ TablesFault.Store) × ((other : LaneOf) → ¬ HasMore batch lane.old other))) }
{
    if let Stage::Waiting = &batch.stage {
        lane.waiting.push(batch)?;
        return Ok(());
    }
    if lane.running.is_some() {
        return Err(TablesFault::Store);
    }
    lane.running = Some(batch);
    Ok(())
}

// Has the changes of a batch tried or landing, if the batch says so.
fn mark_changes(desk: &mut Desk, batch: &Batch) {
    for number in batch.changes.as_slice() {
        if let Branch::Trying = batch.branch {
            desk.alter(*number, |change| change.trying = true);
        }
        if let Stage::Landing { .. } = &batch.stage {
            desk.alter(*number, |change| change.landing = true);
        }
    }
}
