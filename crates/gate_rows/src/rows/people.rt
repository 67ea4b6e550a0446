ghost use Rattle.std.specs.Prelude.{◌≡◌, ◌++◌, IfOk, OnOk, [], map};
ghost use Rattle.std.specs.FinMap as finite;
ghost use Rattle.std.specs.Cmp.Lexicographic.{slice_cmp};
ghost use Rattle.std.specs.List.{cons_option};
ghost use Rattle.std.specs.List.Sorted.{IsStrictlySortedBy};
ghost use Rattle.std.specs.Map.{keys_of};
ghost use Rattle.std.specs.Ordering.{nat_cmp};
ghost use Rattle.gate_rows.specs.Encoding as encoding;
ghost use Rattle.gate_rows.specs.Parts.{are_there, named, were_there};

use crate::rows::numbers::role_number;
use gate_queue::Before;
use gate_rules::{Desk, Role};
use gate_tables::PersonRow;
use gate_text::{List, Name, Text};
use std::alloc::{AllocError, Global};
use std::collections::BTreeMap;

/// A row for each person who has a role.
pub(crate) fn person_rows(alloc: Global, desk: &Desk) -> Result<List<PersonRow>, AllocError>
    ensures { IfOk result (λ rows. rows ≡ map encoding.person_row (finite.entries desk.now.roles)) }
{
    people_in(alloc, desk.roles())
}

fn people_in(alloc: Global, roles: &BTreeMap<Name, Role>) -> Result<List<PersonRow>, AllocError>
    ensures value { IfOk result (λ rows. rows ≡ map encoding.person_row roles.now.entries) }
    ensures ordered { IsStrictlySortedBy (slice_cmp nat_cmp) (keys_of roles.now.entries) }
{
    let mut rows = Vec::new(alloc);
    for (name, role) in roles {
        rows.push(person_row(alloc, name, *role)?)?;
    }
    Ok(List::from(rows))
}

/// A row for each person who was noted with a role.
pub(crate) fn people_then(alloc: Global, before: &Before) -> Result<List<PersonRow>, AllocError>
    ensures { IfOk result (λ rows. rows ≡ map encoding.person_row (were_there (finite.entries before.now.people))) }
{
    noted_people(alloc, before.people())
}

/// A row for each person who was noted and has a role now.
pub(crate) fn people_now(
    alloc: Global,
    before: &Before,
    desk: &Desk,
) -> Result<List<PersonRow>, AllocError>
    ensures { IfOk result
        (λ rows. rows ≡ map encoding.person_row (are_there desk.now.roles (finite.entries before.now.people))) }
{
    present_people(alloc, before.people(), desk)
}

fn noted_people(
    alloc: Global,
    noted: &BTreeMap<Name, Option<Role>>,
) -> Result<List<PersonRow>, AllocError>
    ensures value { IfOk result (λ rows. rows ≡ map encoding.person_row (were_there noted.now.entries)) }
    ensures ordered { IsStrictlySortedBy (slice_cmp nat_cmp) (keys_of noted.now.entries) }
{
    let mut rows = Vec::new(alloc);
    for (name, role) in noted {
        push_person(alloc, &mut rows, name, *role)?;
    }
    Ok(List::from(rows))
}

fn present_people(
    alloc: Global,
    noted: &BTreeMap<Name, Option<Role>>,
    desk: &Desk,
) -> Result<List<PersonRow>, AllocError>
    ensures value { IfOk result (λ rows. rows ≡ map encoding.person_row (are_there desk.now.roles noted.now.entries)) }
    ensures ordered { IsStrictlySortedBy (slice_cmp nat_cmp) (keys_of noted.now.entries) }
{
    let mut rows = Vec::new(alloc);
    for (name, _) in noted {
        push_person(alloc, &mut rows, name, role_of(desk, name))?;
    }
    Ok(List::from(rows))
}

fn role_of(desk: &Desk, name: &Name) -> Option<Role>
    ensures { result ≡ finite.get desk.now.roles name.now }
{
    desk.roles().get(name).copied()
}

// Adds the row of a person who has a role.
fn push_person(
    alloc: Global,
    rows: &mut Vec<PersonRow>,
    name: &Name,
    role: Option<Role>,
) -> Result<(), AllocError>
    ensures { OnOk result
        (rows.new.items ≡ rows.old.items ++ map encoding.person_row (cons_option (named name.now role) [])) }
{
    if let Some(role) = role {
        rows.push(person_row(alloc, name, role)?)?;
    }
    Ok(())
}

fn person_row(alloc: Global, name: &Name, role: Role) -> Result<PersonRow, AllocError>
    ensures { IfOk result (λ row. row ≡ encoding.person_row (name.now, role)) }
{
    Ok(PersonRow {
        name: Text::from_str(alloc, name.text())?,
        role: role_number(role),
    })
}
