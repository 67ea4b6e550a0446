ghost use Rattle.gate_tables.specs.Calls.{Finds};
ghost use Rattle.gate_tables.specs.Effects.{ReadsFirst, ReadsLast, ReadsRows};

use crate::fault::TablesFault;
use crate::kind::all;
use crate::row::{
    BatchRow, ChangeRow, DeskRow, MarkRow, MemberRow, PersonRow, Rows, StatusRow, WantedRow,
};
use gate_text::List;
use sqlite::{Alter, Transaction};
use std::alloc::Global;

// The rows of the first four tables, and of the last four. A function has four statements at the most, since the proof of more
// takes minutes.
#[derive(Drop)]
struct First {
    desk: List<DeskRow>,
    people: List<PersonRow>,
    changes: List<ChangeRow>,
    marks: List<MarkRow>,
}

#[derive(Drop)]
struct Last {
    batches: List<BatchRow>,
    members: List<MemberRow>,
    statuses: List<StatusRow>,
    wanted: List<WantedRow>,
}

fn read_first<S: Alter>(alloc: Global, tx: &mut Transaction<'_, S>) -> Result<First, TablesFault>
    ensures { Finds S.Store tx.old tx.new result ReadsFirst }
{
    let desk = all(alloc, tx)?;
    let people = all(alloc, tx)?;
    let changes = all(alloc, tx)?;
    let marks = all(alloc, tx)?;
    Ok(First {
        desk,
        people,
        changes,
        marks,
    })
}

fn read_last<S: Alter>(alloc: Global, tx: &mut Transaction<'_, S>) -> Result<Last, TablesFault>
    ensures { Finds S.Store tx.old tx.new result ReadsLast }
{
    let batches = all(alloc, tx)?;
    let members = all(alloc, tx)?;
    let statuses = all(alloc, tx)?;
    let wanted = all(alloc, tx)?;
    Ok(Last {
        batches,
        members,
        statuses,
        wanted,
    })
}

// The rows of all tables but `answers`, in an open transaction. It changes nothing.
pub(crate) fn read_rows<S: Alter>(
    alloc: Global,
    tx: &mut Transaction<'_, S>,
) -> Result<Rows, TablesFault>
    ensures { Finds S.Store tx.old tx.new result ReadsRows }
{
    let First {
        desk,
        people,
        changes,
        marks,
    } = read_first(alloc, tx)?;
    let Last {
        batches,
        members,
        statuses,
        wanted,
    } = read_last(alloc, tx)?;
    Ok(Rows {
        desk,
        people,
        changes,
        marks,
        batches,
        members,
        statuses,
        wanted,
    })
}
