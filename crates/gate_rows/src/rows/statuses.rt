ghost use Rattle.std.specs.Prelude.{◌≡◌, ◌++◌, IfOk, OnOk, map};
ghost use Rattle.std.specs.Cmp.Lexicographic.{slice_cmp};
ghost use Rattle.std.specs.FinMap as finite;
ghost use Rattle.std.specs.List.{flat_map};
ghost use Rattle.std.specs.List.Sorted.{IsStrictlySortedBy};
ghost use Rattle.std.specs.Map.{keys_of};
ghost use Rattle.std.specs.Ordering.{nat_cmp};
ghost use Rattle.gate_rows.specs.Encoding as encoding;

use crate::rows::numbers::{integer, report_number};
use gate_state::{Batch, Report, Reports, Stage};
use gate_tables::StatusRow;
use gate_text::{Context, List, Text};
use std::alloc::{AllocError, Global};
use std::collections::BTreeMap;

/// A row for each report of each batch.
pub(crate) fn status_rows(alloc: Global, batches: &[&Batch]) -> Result<List<StatusRow>, AllocError>
    ensures { IfOk result (λ rows. rows ≡ flat_map encoding.statuses_of (map (λ batch. batch.now) batches.now)) }
{
    let mut rows = Vec::new(alloc);
    for batch in batches {
        push_batch(alloc, &mut rows, batch)?;
    }
    Ok(List::from(rows))
}

fn push_batch(alloc: Global, rows: &mut Vec<StatusRow>, batch: &Batch) -> Result<(), AllocError>
    ensures { OnOk result (rows.new.items ≡ rows.old.items ++ encoding.statuses_of batch.now) }
{
    match &batch.stage {
        Stage::Staged { reports, .. } => push_reports(alloc, rows, batch.number, reports),
        Stage::Waiting | Stage::Ordered { .. } | Stage::Landing { .. } => Ok(()),
    }
}

fn push_reports(
    alloc: Global,
    rows: &mut Vec<StatusRow>,
    number: u64,
    reports: &Reports,
) -> Result<(), AllocError>
    ensures { OnOk result
        (rows.new.items ≡ rows.old.items ++ map (encoding.status_row number) (finite.entries reports.now)) }
{
    push_entries(alloc, rows, number, reports.as_map())
}

fn push_entries(
    alloc: Global,
    rows: &mut Vec<StatusRow>,
    number: u64,
    reports: &BTreeMap<Context, Report>,
) -> Result<(), AllocError>
    ensures value { OnOk result
        (rows.new.items ≡ rows.old.items ++ map (encoding.status_row number) reports.now.entries) }
    ensures ordered { IsStrictlySortedBy (slice_cmp nat_cmp) (keys_of reports.now.entries) }
{
    for (name, report) in reports {
        rows.push(status_row(alloc, number, name, *report)?)?;
    }
    Ok(())
}

fn status_row(
    alloc: Global,
    number: u64,
    name: &Context,
    report: Report,
) -> Result<StatusRow, AllocError>
    ensures { IfOk result (λ row. row ≡ encoding.status_row number (name.now, report)) }
{
    Ok(StatusRow {
        batch: integer(number)?,
        name: Text::from_str(alloc, name.text())?,
        report: report_number(report),
    })
}
