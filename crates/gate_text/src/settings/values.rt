ghost use Rattle.std.specs.Prelude.{◌≡◌, map, IfOk};
ghost use Rattle.std.specs.Option.{option_map};
ghost use Rattle.toml.specs.View.{view};
ghost use Rattle.gate_text.specs.Arguments.{all_of};
ghost use Rattle.gate_text.specs.Settings as settings;

use super::limits::{MAX_ITEMS, are_different};
use crate::context::Context;
use crate::fault::unless_bad;
use crate::label::Label;
use crate::names::{Contexts, Labels};
use std::alloc::{AllocError, Global};
use toml::Value;

// A whole number from the least to the most, and nothing for another value.
pub(crate) fn number_in(value: &Value, least: u32, most: u32) -> Option<u32>
    ensures { result ≡ settings.whole_in least most (view value.now) }
{
    let number = u32::try_from(value.as_integer()?).ok()?;
    if (least..=most).contains(&number) {
        Some(number)
    } else {
        None
    }
}

// The items of an array that has so many, and nothing for another value.
fn items_in(value: &Value, least: usize, most: usize) -> Option<&[Value]>
    ensures { option_map (λ items. map view items.now) result ≡ settings.items_in least most (view value.now) }
{
    let items = value.as_array()?.as_slice();
    if (least..=most).contains(&items.len()) {
        Some(items)
    } else {
        None
    }
}

// The name of a status that a value is, and nothing for another value.
fn context_in(alloc: Global, value: &Value) -> Result<Option<Context>, AllocError>
    ensures { IfOk result (λ context. context ≡ settings.plain_in (view value.now)) }
{
    let Some(text) = value.as_str() else {
        return Ok(None);
    };
    unless_bad(Context::read(alloc, text))
}

// The label that a value is, and nothing for another value.
fn label_in(alloc: Global, value: &Value) -> Result<Option<Label>, AllocError>
    ensures { IfOk result (λ label. label ≡ settings.plain_in (view value.now)) }
{
    let Some(text) = value.as_str() else {
        return Ok(None);
    };
    unless_bad(Label::read(alloc, text))
}

// The names of statuses that an array lists, and nothing for another value.
fn contexts_of(alloc: Global, items: &[Value]) -> Result<Option<Contexts>, AllocError>
    ensures { IfOk result (λ contexts. contexts ≡ all_of (map settings.plain_in (map view items.now))) }
{
    let mut contexts = Vec::new(alloc);
    for value in items {
        match context_in(alloc, value)? {
            Some(context) => contexts.push(context)?,
            None => return Ok(None),
        }
    }
    Ok(Some(Contexts::from(contexts)))
}

// The labels that an array lists, and nothing for another value.
fn labels_of(alloc: Global, items: &[Value]) -> Result<Option<Labels>, AllocError>
    ensures { IfOk result (λ labels. labels ≡ all_of (map settings.plain_in (map view items.now))) }
{
    let mut labels = Vec::new(alloc);
    for value in items {
        match label_in(alloc, value)? {
            Some(label) => labels.push(label)?,
            None => return Ok(None),
        }
    }
    Ok(Some(Labels::from(labels)))
}

// The required statuses that a value lists: 1 to 64, no two the same, and nothing for another value.
pub(crate) fn statuses_in(alloc: Global, value: &Value) -> Result<Option<Contexts>, AllocError>
    ensures { IfOk result (λ contexts. contexts ≡ settings.statuses_in (view value.now)) }
{
    let Some(items) = items_in(value, 1, MAX_ITEMS) else {
        return Ok(None);
    };
    match contexts_of(alloc, items)? {
        Some(contexts) if are_different(contexts.as_slice()) => Ok(Some(contexts)),
        _ => Ok(None),
    }
}

// The blocking labels that a value lists: at most 64, of which later repeats are dropped, and nothing for another value.
pub(crate) fn labels_in(alloc: Global, value: &Value) -> Result<Option<Labels>, AllocError>
    ensures { IfOk result (λ labels. labels ≡ settings.texts_in (view value.now)) }
{
    let Some(items) = items_in(value, 0, MAX_ITEMS) else {
        return Ok(None);
    };
    match labels_of(alloc, items)? {
        Some(labels) => Ok(Some(labels.without_repeats(alloc)?)),
        None => Ok(None),
    }
}

// The same of names of statuses.
pub(crate) fn contexts_in(alloc: Global, value: &Value) -> Result<Option<Contexts>, AllocError>
    ensures { IfOk result (λ contexts. contexts ≡ settings.texts_in (view value.now)) }
{
    let Some(items) = items_in(value, 0, MAX_ITEMS) else {
        return Ok(None);
    };
    match contexts_of(alloc, items)? {
        Some(contexts) => Ok(Some(contexts.without_repeats(alloc)?)),
        None => Ok(None),
    }
}
