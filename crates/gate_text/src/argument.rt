ghost use Rattle.std.specs.Prelude.{◌≡◌, IfOk, OnOk};
ghost use Rattle.std.specs.Char.{is_ascii_digit};
ghost use Rattle.std.specs.FinSet as set;
ghost use Rattle.std.specs.List.{list_all};
ghost use Rattle.gate_text.specs.Arguments as arguments;

use crate::fault::unless_bad;
use crate::name::Name;
use crate::names::{NameSet, Names};
use crate::spaces::trim;
use std::alloc::{AllocError, Global};

// How many digits a number has at most.
const MAX_DIGITS: usize = 4;

fn are_digits(text: &[u8]) -> bool
    ensures { result ≡ list_all is_ascii_digit text.now }
{
    text.iter().all(|byte| byte.is_ascii_digit())
}

fn is_magnitude(text: &[u8]) -> bool
    ensures { result ≡ arguments.is_magnitude text.now }
{
    (1..=MAX_DIGITS).contains(&text.len()) && are_digits(text)
}

// The number of one to four digits, and nothing for another text.
fn magnitude_of(text: &[u8]) -> Option<u16>
    ensures { result ≡ arguments.magnitude_of text.now }
{
    if !is_magnitude(text) {
        return None;
    }
    str::from_utf8(text).ok()?.parse::<u16>().ok()
}

// The number of an optional `-` and one to four digits, and nothing for another text.
pub(crate) fn number_of(text: &[u8]) -> Option<i32>
    ensures { result ≡ arguments.number_of text.now }
{
    match text.strip_prefix(b"-".as_slice()) {
        Some(digits) => magnitude_of(digits).map(|magnitude| -i32::from(magnitude)),
        None => magnitude_of(text).map(i32::from),
    }
}

// Adds a name, unless it is there. The set has the names of the list, so that to look for one doesn't take longer the
// more there are.
fn add_name(
    alloc: Global,
    names: &mut Vec<Name>,
    known: &mut NameSet,
    name: Name,
) -> Result<(), AllocError>
    requires { known.old ≡ set.from_list names.old.items }
    ensures names { OnOk result (names.new.items ≡ arguments.with_name names.old.items name) }
    ensures known { OnOk result (known.new ≡ set.from_list names.new.items) }
{
    if !known.contains(&name) {
        known.insert(name.copy(alloc)?)?;
        names.push(name)?;
    }
    Ok(())
}

// The name that an item of a list is, and nothing for another text.
fn name_in(alloc: Global, item: &[u8]) -> Result<Option<Name>, AllocError>
    ensures { IfOk result (λ name. name ≡ arguments.name_in item.now) }
{
    unless_bad(Name::from_bytes(alloc, trim(item)))
}

// The names of a list, and nothing for another text.
pub(crate) fn names_of(alloc: Global, list: &[u8]) -> Result<Option<Names>, AllocError>
    ensures { IfOk result (λ names. names ≡ arguments.names_of list.now) }
{
    let mut names = Vec::new(alloc);
    let mut known = NameSet::new(alloc);
    for item in list.split(|byte| *byte == b',') {
        match name_in(alloc, item)? {
            Some(name) => add_name(alloc, &mut names, &mut known, name)?,
            None => return Ok(None),
        }
    }
    Ok(Some(Names::from(names)))
}
