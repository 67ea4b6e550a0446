ghost use Rattle.std.specs.Prelude.{◌≡◌, ◌↔◌, IfOk, IfErr, IsErrAnd, IsOk, IsTrue, OnOk, true, false};
ghost use Rattle.gate_text.specs.SmallTexts.{delivery_id_of};
ghost use Rattle.gate_rows.specs.Encoding as encoding;
ghost use Rattle.gate_sql.specs.Faults.{MayRefuse, foreign_unless_memory};
ghost use Rattle.gate_sql.specs.Versions as versions;
ghost use Rattle.gate_sql.specs.Versions.{AreKeptAnswers, IsAnswerText, IsKeptAnswer, LeadFromVersion, Understands, rows_as};
ghost use Rattle.gate_store.specs.Run.{IsOfBooks};
ghost use Rattle.gate_tables.specs.Contents.{AreSame};

use crate::fault::told;
use crate::gate::gate_of;
use gate_queue::{Fault, Gate};
use gate_rows::{
    in_first, is_of_machine, law_of_first_keys_of, law_of_keys_of, row_changes, rows_of, upgraded,
};
use gate_store::{AnswerFault, answer_text, read_answer};
use gate_tables::{Contents, DeskRow, RowChange, Rows, TablesFault, Version, law_of_differences};
use gate_text::{DeliveryId, Text, TextFault};
use std::alloc::{AllocError, Global};

/// The row changes that bring what tables of a version hold to the rows in the last version of the state for which it stands. `Foreign`
/// if it stands for no state and answers. `Store` if it names the next version, so that a table of that is missing. `Memory` if there
/// is no memory for them.
pub(crate) fn understood(
    alloc: Global,
    contents: Contents,
    version: Version,
) -> Result<Vec<RowChange>, Fault>
    ensures rows { IfOk result (λ changes. Understands version contents.rows changes.items) }
    ensures texts { OnOk result (AreKeptAnswers contents.answers) }
    ensures fault { IfErr result MayRefuse }
{
    let Contents { rows, answers } = contents;
    let kept = check_answers(alloc, answers.as_slice());
    drop(answers);
    match kept {
        Ok(()) => understood_rows(alloc, rows, version),
        Err(fault) => {
            drop(rows);
            Err(fault)
        }
    }
}

fn understood_rows(alloc: Global, rows: Rows, version: Version) -> Result<Vec<RowChange>, Fault>
    ensures rows { IfOk result (λ changes. Understands version rows changes.items) }
    ensures next { versions.names_next version rows.desk ≡ true → IsErrAnd result (λ fault. fault ≡ Fault.Store) }
    ensures fault { IfErr result MayRefuse }
{
    // The next version has a table more.
    if names_next(rows.desk.as_slice(), version) {
        drop(rows);
        return Err(Fault::Store);
    }
    match gate_in(alloc, rows, version) {
        Ok(gate) => {
            is_of_machine(&gate);
            let changes = upgrade(alloc, &gate, version);
            drop(gate);
            Ok(changes?)
        }
        Err(fault) => Err(foreign(fault)),
    }
}

// Whether the row of the desk names the next version.
fn names_next(desk: &[DeskRow], version: Version) -> bool
    ensures { result ≡ versions.names_next version desk.now }
{
    let Some(row) = desk.first() else {
        return false;
    };
    match version {
        Version::Version1 => row.version == 2,
        Version::Version2 => false,
    }
}

// The gate for whose state rows of a version stand.
fn gate_in(alloc: Global, rows: Rows, version: Version) -> Result<Gate, Fault>
    ensures rows { IfOk result (λ gate. AreSame rows (rows_as version (encoding.rows_of gate))) }
    ensures fault { IfErr result IsOfBooks }
{
    match upgraded_from(alloc, rows, version) {
        Ok(last) => gate_of(alloc, last),
        Err(fault) => Err(told(fault)),
    }
}

// The rows of the last version that stand for what rows of a version stand for. Each version but the last has one step, which leads to
// the next.
fn upgraded_from(alloc: Global, rows: Rows, version: Version) -> Result<Rows, TablesFault>
    ensures { IfOk result (λ last. AreSame rows (rows_as version last)) }
{
    match version {
        Version::Version1 => upgraded_from(alloc, upgraded(alloc, rows)?, Version::Version2),
        Version::Version2 => Ok(rows),
    }
}

// The same steps back: the rows of a version that stand for what rows of the last one stand for.
fn rows_in(alloc: Global, rows: Rows, version: Version) -> Result<Rows, AllocError>
    ensures { IfOk result (λ earlier. earlier ≡ rows_as version rows) }
{
    match version {
        Version::Version1 => in_first(alloc, rows_in(alloc, rows, Version::Version2)?),
        Version::Version2 => Ok(rows),
    }
}

// The row changes that lead from the rows of a gate in a version to those in the last one.
fn upgrade(alloc: Global, gate: &Gate, version: Version) -> Result<Vec<RowChange>, AllocError>
    ensures { IfOk result (λ changes. LeadFromVersion version gate.now changes.items) }
{
    match version {
        Version::Version1 => changes_from(alloc, gate, version),
        // Its rows stay as they are.
        Version::Version2 => Ok(Vec::new(alloc)),
    }
}

fn changes_from(alloc: Global, gate: &Gate, version: Version) -> Result<Vec<RowChange>, AllocError>
    ensures { IfOk result (λ changes. LeadFromVersion version gate.now changes.items) }
{
    law_of_differences();
    law_of_keys_of(gate);
    law_of_first_keys_of(gate);
    let earlier = rows_in(alloc, rows_of(alloc, gate)?, version)?;
    row_changes(alloc, earlier, rows_of(alloc, gate)?)
}

// Refuses answers with `Foreign`, unless each stands under an identifier, and is the text of an answer.
fn check_answers(alloc: Global, answers: &[(Text, Text)]) -> Result<(), Fault>
    ensures texts { OnOk result (AreKeptAnswers answers.now) }
    ensures fault { IfErr result MayRefuse }
{
    for answer in answers {
        if !is_kept(alloc, answer.0.as_str(), answer.1.as_str())? {
            return Err(Fault::Foreign);
        }
    }
    Ok(())
}

fn is_kept(alloc: Global, id: &str, body: &str) -> Result<bool, AllocError>
    ensures { IfOk result (λ is. IsTrue is ↔ IsKeptAnswer (id.now, body.now)) }
{
    Ok(is_identifier(alloc, id)? && is_answer_text(alloc, body)?)
}

fn is_identifier(alloc: Global, text: &str) -> Result<bool, AllocError>
    ensures { IfOk result (λ is. IsTrue is ↔ IsOk (delivery_id_of text.now)) }
{
    match DeliveryId::read(alloc, text) {
        Ok(_) => Ok(true),
        Err(TextFault::Memory) => Err(AllocError),
        Err(_) => Ok(false),
    }
}

// Whether a text is that of the answer that is read of it.
fn is_answer_text(alloc: Global, text: &str) -> Result<bool, AllocError>
    ensures { IfOk result (λ is. IsTrue is ↔ IsAnswerText text.now) }
{
    match read_answer(alloc, text) {
        Ok(answer) => {
            let written = answer_text(alloc, &answer);
            drop(answer);
            Ok(written?.as_str() == text)
        }
        Err(AnswerFault::NotAnswer) => Ok(false),
        Err(AnswerFault::Memory) => Err(AllocError),
    }
}

// What rows are told to be that stand for no state.
fn foreign(fault: Fault) -> Fault
    ensures value { result ≡ foreign_unless_memory fault }
{
    match fault {
        Fault::Memory => Fault::Memory,
        _ => Fault::Foreign,
    }
}
