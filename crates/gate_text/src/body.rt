ghost use Rattle.std.specs.Prelude.{◌≡◌, ◌++◌, IfOk, OnOk};
ghost use Rattle.std.specs.Option.{option_map};
ghost use Rattle.gate_text.specs.Reading as reading;

use crate::argument::{names_of, number_of};
use crate::command::{Command, Spoken};
use crate::names::Names;
use crate::spaces::{last_space, trim_end};
use std::alloc::{AllocError, Global};

fn is_either(body: &[u8], short: &[u8], long: &[u8]) -> bool
    ensures { result ≡ reading.is_either body.now short.now long.now }
{
    body == short || body == long
}

// A command that is a fixed word, the approvals apart.
fn word_of(body: &[u8]) -> Option<Command>
    ensures { result ≡ reading.word_of body.now }
{
    if body == b"ping".as_slice() {
        Some(Command::Ping)
    } else if is_either(body, b"r-", b"merge-") {
        Some(Command::Withdraw)
    } else if body == b"try".as_slice() {
        Some(Command::Try)
    } else if body == b"try-".as_slice() {
        Some(Command::TryCancel)
    } else if is_either(body, b"d+", b"delegate+") {
        Some(Command::DelegateAuthor)
    } else if is_either(body, b"d-", b"delegate-") {
        Some(Command::DelegateNone)
    } else if body == b"retry".as_slice() {
        Some(Command::Retry)
    } else {
        None
    }
}

// The names behind one of two prefixes.
fn names_after(
    alloc: Global,
    short: &[u8],
    long: &[u8],
    body: &[u8],
) -> Result<Option<Names>, AllocError>
    ensures { IfOk result (λ names. names ≡ reading.names_after short.now long.now body.now) }
{
    match body.strip_prefix(short).or(body.strip_prefix(long)) {
        Some(list) => names_of(alloc, list),
        None => Ok(None),
    }
}

// Any command but the approvals.
fn command_of(alloc: Global, body: &[u8]) -> Result<Option<Command>, AllocError>
    ensures { IfOk result (λ command. command ≡ reading.command_of body.now) }
{
    if let Some(command) = word_of(body) {
        return Ok(Some(command));
    }
    if body.starts_with(b"try ".as_slice()) {
        return Ok(Some(Command::Try));
    }
    if let Some(number) = body.strip_prefix(b"p=".as_slice()) {
        return Ok(number_of(number).map(Command::Priority));
    }
    Ok(names_after(alloc, b"d=", b"delegate=", body)?.map(Command::DelegateTo))
}

fn approval_of(alloc: Global, body: &[u8]) -> Result<Option<Command>, AllocError>
    ensures { IfOk result (λ approval. approval ≡ reading.approval_of body.now) }
{
    if is_either(body, b"r+", b"merge") {
        return Ok(Some(Command::Approve));
    }
    Ok(names_after(alloc, b"r=", b"merge=", body)?.map(Command::ApproveFor))
}

fn priority_of(text: &[u8]) -> Option<i32>
    ensures { result ≡ reading.priority_of text.now }
{
    number_of(text.strip_prefix(b"p=".as_slice())?)
}

// The text before the last space, and the priority behind it.
fn cut_priority(body: &[u8]) -> Option<(&[u8], i32)>
    ensures { option_map (λ cut. (cut.0.now, cut.1)) result ≡ reading.cut_priority body.now }
{
    let place = last_space(body)?;
    let priority = priority_of(&body[place + 1..])?;
    Some((&body[..place], priority))
}

// Adds a priority and an approval, or what isn't known in their place.
fn push_approvals(alloc: Global, spoken: &mut Vec<Spoken>, body: &[u8]) -> Result<(), AllocError>
    ensures { OnOk result (spoken.new.items
        ≡ spoken.old.items ++ reading.spoken_as (reading.approvals_of (reading.cut_priority body.now) body.now)) }
{
    let (front, priority) = match cut_priority(body) {
        Some((front, priority)) => (trim_end(front), Some(priority)),
        None => (body, None),
    };
    match approval_of(alloc, front)? {
        Some(approval) => {
            if let Some(priority) = priority {
                spoken.push(Spoken::Known(Command::Priority(priority)))?;
            }
            spoken.push(Spoken::Known(approval))?;
        }
        None => spoken.push(Spoken::Unknown)?,
    }
    Ok(())
}

// Adds what a body says.
pub(crate) fn push_body(
    alloc: Global,
    spoken: &mut Vec<Spoken>,
    body: &[u8],
) -> Result<(), AllocError>
    ensures { OnOk result (spoken.new.items ≡ spoken.old.items ++ reading.body_says body.now) }
{
    match command_of(alloc, body)? {
        Some(command) => {
            spoken.push(Spoken::Known(command))?;
            Ok(())
        }
        None => push_approvals(alloc, spoken, body),
    }
}
