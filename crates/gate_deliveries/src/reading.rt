ghost use Rattle.std.specs.Prelude.{◌≡◌, ◌≤◌, IfOk, Some, Ok};
ghost use Rattle.serde_json.specs.View.{view};
ghost use Rattle.gate_deliveries.specs.Deliveries as deliveries;
ghost use Rattle.gate_deliveries.specs.Deliveries.{Reads, delivery_of};

use crate::delivery::{Delivery, Event};
use crate::field::Field;
use gate_rules::Role;
use gate_state::{ChangeFact, Fact, Moment, StatusState};
use gate_text::{ChangeNo, Commit, Context, DeliveryId, Label, Name, Text, TextFault, unless_bad};
use serde_json::Value;
use std::alloc::{AllocError, Global};
use thiserror::Error;

// The greatest change number.
const MAX_CHANGE: u64 = 4_294_967_295;

// The greatest batch number, and the last moment.
const MAX_NUMBER: u64 = 9_000_000_000_000_000;

/// Why a text is no delivery. The first check that fails is answered: JSON, the identifier, the event, its fields.
#[derive(Clone, Copy, Debug, PartialEq, Eq, Error)]
pub enum DeliveryFault {
    /// The text isn't UTF-8, isn't JSON, or isn't an object.
    #[error("not a JSON object")]
    NotJson,
    /// A field is missing, or isn't of its kind.
    #[error("bad field \"{0}\"")]
    BadField(Field),
    /// No event has this name.
    #[error("unknown event")]
    UnknownEvent,
    /// The allocator had no memory.
    #[error("out of memory")]
    Memory,
}

impl From<AllocError> for DeliveryFault {
    ghost use Rattle.std.specs.Prelude.{◌≡◌};
    ghost use Rattle.gate_deliveries.specs.declared.reading.DeliveryFault.TheVariants.{Memory};

    ghost from_gives = { λ _ fault. fault ≡ Memory };

    fn from(_error: AllocError) -> DeliveryFault {
        DeliveryFault::Memory
    }
}

// What a small text that stands at a field gives.
fn at_field<T>(field: Field, read: Result<T, TextFault>) -> Result<T, DeliveryFault>
    ensures { result ≡ deliveries.at_field field read }
{
    unless_bad(read)?.ok_or(DeliveryFault::BadField(field))
}

fn text_at(field: Field, value: &Value) -> Result<&str, DeliveryFault>
    ensures { Reads (deliveries.now_of result) (deliveries.text_at field (view value.now)) }
{
    let text = value.get(field.name()).and_then(Value::as_str);
    text.ok_or(DeliveryFault::BadField(field))
}

fn id_at(alloc: Global, value: &Value) -> Result<DeliveryId, DeliveryFault>
    ensures { Reads result (deliveries.id_at (view value.now)) }
{
    let text = text_at(Field::Id, value)?;
    at_field(Field::Id, DeliveryId::read(alloc, text))
}

fn name_at(alloc: Global, field: Field, value: &Value) -> Result<Name, DeliveryFault>
    ensures { Reads result (deliveries.name_at field (view value.now)) }
{
    let text = text_at(field, value)?;
    at_field(field, Name::read(alloc, text))
}

fn commit_at(field: Field, value: &Value) -> Result<Commit, DeliveryFault>
    ensures { Reads result (deliveries.commit_at field (view value.now)) }
{
    let text = text_at(field, value)?;
    at_field(field, Commit::read(text))
}

fn label_at(alloc: Global, value: &Value) -> Result<Label, DeliveryFault>
    ensures { Reads result (deliveries.label_at (view value.now)) }
{
    let text = text_at(Field::Label, value)?;
    at_field(Field::Label, Label::read(alloc, text))
}

fn context_at(alloc: Global, value: &Value) -> Result<Context, DeliveryFault>
    ensures { Reads result (deliveries.context_at (view value.now)) }
{
    let text = text_at(Field::Name, value)?;
    at_field(Field::Name, Context::read(alloc, text))
}

fn approves_at(value: &Value) -> Result<bool, DeliveryFault>
    ensures { Reads result (deliveries.approves_at (view value.now)) }
{
    let approves = value.get(Field::Approves.name()).and_then(Value::as_bool);
    approves.ok_or(DeliveryFault::BadField(Field::Approves))
}

// A whole number from the least to the greatest, written in digits alone.
fn number_at(field: Field, least: u64, greatest: u64, value: &Value) -> Result<u64, DeliveryFault>
    ensures value { Reads result (deliveries.number_at field least greatest (view value.now)) }
    ensures least { IfOk result (λ n. least ≤ n) }
    ensures greatest { IfOk result (λ n. n ≤ greatest) }
{
    match value.get(field.name()).and_then(Value::as_u64) {
        Some(number) if least <= number && number <= greatest => Ok(number),
        _ => Err(DeliveryFault::BadField(field)),
    }
}

fn change_at(value: &Value) -> Result<ChangeNo, DeliveryFault>
    ensures { Reads result (deliveries.change_at (view value.now)) }
{
    let number = number_at(Field::Change, 1, MAX_CHANGE, value)?;
    ChangeNo::from_number(number).ok_or(DeliveryFault::BadField(Field::Change))
}

fn batch_at(value: &Value) -> Result<u64, DeliveryFault>
    ensures { Reads result (deliveries.batch_at (view value.now)) }
{
    number_at(Field::Batch, 1, MAX_NUMBER, value)
}

fn now_at(value: &Value) -> Result<Moment, DeliveryFault>
    ensures { Reads result (deliveries.now_at (view value.now)) }
{
    let seconds = number_at(Field::Now, 0, MAX_NUMBER, value)?;
    Ok(Moment::at(seconds))
}

fn role_at(value: &Value) -> Result<Role, DeliveryFault>
    ensures { Reads result (deliveries.role_at (view value.now)) }
{
    let word = text_at(Field::Role, value)?;
    Role::called(word).ok_or(DeliveryFault::BadField(Field::Role))
}

fn state_at(value: &Value) -> Result<StatusState, DeliveryFault>
    ensures { Reads result (deliveries.state_at (view value.now)) }
{
    let word = text_at(Field::State, value)?;
    StatusState::called(word).ok_or(DeliveryFault::BadField(Field::State))
}

fn comment_in(alloc: Global, value: &Value) -> Result<Event, DeliveryFault>
    ensures { Reads result (deliveries.comment_in (view value.now)) }
{
    let change = change_at(value)?;
    let person = name_at(alloc, Field::Person, value)?;
    let text = Text::from_str(alloc, text_at(Field::Text, value)?)?;
    Ok(Event::Comment {
        change,
        person,
        text,
    })
}

fn role_in(alloc: Global, value: &Value) -> Result<Event, DeliveryFault>
    ensures { Reads result (deliveries.role_in (view value.now)) }
{
    let person = name_at(alloc, Field::Person, value)?;
    let role = role_at(value)?;
    Ok(Event::Other(Fact::Role { person, role }))
}

fn settings_in(alloc: Global, value: &Value) -> Result<Event, DeliveryFault>
    ensures { Reads result (deliveries.settings_in (view value.now)) }
{
    let text = Text::from_str(alloc, text_at(Field::Text, value)?)?;
    Ok(Event::Other(Fact::Settings { text }))
}

fn opened_in(alloc: Global, value: &Value) -> Result<Event, DeliveryFault>
    ensures { Reads result (deliveries.opened_in (view value.now)) }
{
    let change = change_at(value)?;
    let author = name_at(alloc, Field::Author, value)?;
    let head = commit_at(Field::Head, value)?;
    let fact = ChangeFact::Opened { author, head };
    Ok(Event::On { change, fact })
}

fn base_in(value: &Value) -> Result<Event, DeliveryFault>
    ensures { Reads result (deliveries.base_in (view value.now)) }
{
    let commit = commit_at(Field::Commit, value)?;
    Ok(Event::Other(Fact::Base { commit }))
}

fn pushed_in(value: &Value) -> Result<Event, DeliveryFault>
    ensures { Reads result (deliveries.pushed_in (view value.now)) }
{
    let change = change_at(value)?;
    let head = commit_at(Field::Head, value)?;
    let fact = ChangeFact::Pushed { head };
    Ok(Event::On { change, fact })
}

fn closed_in(value: &Value) -> Result<Event, DeliveryFault>
    ensures { Reads result (deliveries.closed_in (view value.now)) }
{
    let change = change_at(value)?;
    let fact = ChangeFact::Closed;
    Ok(Event::On { change, fact })
}

fn labeled_in(alloc: Global, value: &Value) -> Result<Event, DeliveryFault>
    ensures { Reads result (deliveries.labeled_in (view value.now)) }
{
    let change = change_at(value)?;
    let label = label_at(alloc, value)?;
    let fact = ChangeFact::Labeled { label };
    Ok(Event::On { change, fact })
}

fn unlabeled_in(alloc: Global, value: &Value) -> Result<Event, DeliveryFault>
    ensures { Reads result (deliveries.unlabeled_in (view value.now)) }
{
    let change = change_at(value)?;
    let label = label_at(alloc, value)?;
    let fact = ChangeFact::Unlabeled { label };
    Ok(Event::On { change, fact })
}

fn review_in(alloc: Global, value: &Value) -> Result<Event, DeliveryFault>
    ensures { Reads result (deliveries.review_in (view value.now)) }
{
    let change = change_at(value)?;
    let person = name_at(alloc, Field::Person, value)?;
    let head = commit_at(Field::Head, value)?;
    let approves = approves_at(value)?;
    let fact = ChangeFact::Review {
        person,
        head,
        approves,
    };
    Ok(Event::On { change, fact })
}

fn staged_in(value: &Value) -> Result<Event, DeliveryFault>
    ensures { Reads result (deliveries.staged_in (view value.now)) }
{
    let batch = batch_at(value)?;
    let commit = commit_at(Field::Commit, value)?;
    Ok(Event::Other(Fact::Staged { batch, commit }))
}

fn conflict_in(value: &Value) -> Result<Event, DeliveryFault>
    ensures { Reads result (deliveries.conflict_in (view value.now)) }
{
    let batch = batch_at(value)?;
    Ok(Event::Other(Fact::Conflict { batch }))
}

fn status_in(alloc: Global, value: &Value) -> Result<Event, DeliveryFault>
    ensures { Reads result (deliveries.status_in (view value.now)) }
{
    let commit = commit_at(Field::Commit, value)?;
    let name = context_at(alloc, value)?;
    let state = state_at(value)?;
    Ok(Event::Other(Fact::Status {
        commit,
        name,
        state,
    }))
}

fn refused_in(value: &Value) -> Result<Event, DeliveryFault>
    ensures { Reads result (deliveries.refused_in (view value.now)) }
{
    let batch = batch_at(value)?;
    Ok(Event::Other(Fact::Refused { batch }))
}

fn tick_in(value: &Value) -> Result<Event, DeliveryFault>
    ensures { Reads result (deliveries.tick_in (view value.now)) }
{
    let now = now_at(value)?;
    Ok(Event::Other(Fact::Tick { now }))
}

fn event_called(alloc: Global, kind: &str, value: &Value) -> Result<Event, DeliveryFault>
    ensures { Reads result (deliveries.event_called kind.now (view value.now)) }
{
    match kind {
        "comment" => comment_in(alloc, value),
        "role" => role_in(alloc, value),
        "settings" => settings_in(alloc, value),
        "base" => base_in(value),
        "opened" => opened_in(alloc, value),
        "pushed" => pushed_in(value),
        "closed" => closed_in(value),
        "labeled" => labeled_in(alloc, value),
        "unlabeled" => unlabeled_in(alloc, value),
        "review" => review_in(alloc, value),
        "staged" => staged_in(value),
        "conflict" => conflict_in(value),
        "status" => status_in(alloc, value),
        "refused" => refused_in(value),
        "tick" => tick_in(value),
        _ => Err(DeliveryFault::UnknownEvent),
    }
}

fn delivery_in(alloc: Global, value: &Value) -> Result<Delivery, DeliveryFault>
    ensures { Reads result (deliveries.delivery_in (view value.now)) }
{
    let id = id_at(alloc, value)?;
    let kind = text_at(Field::Event, value)?;
    let event = event_called(alloc, kind, value)?;
    Ok(Delivery { id, event })
}

// The JSON object that the text is.
fn object_in(alloc: Global, text: &[u8]) -> Result<Value, DeliveryFault>
    ensures { Reads (deliveries.view_of result) (deliveries.object_of text.now) }
{
    match Value::from_slice(alloc, text) {
        Ok(value) => {
            if !value.is_object() {
                return Err(DeliveryFault::NotJson);
            }
            Ok(value)
        }
        Err(error) => {
            if error.is_memory() {
                return Err(DeliveryFault::Memory);
            }
            Err(DeliveryFault::NotJson)
        }
    }
}

/// Reads a delivery, as JSON (RFC 8259). Refusals, in their order: `NotJson`; `BadField` of the identifier, then of
/// the event's name; `UnknownEvent`; `BadField` of the event's fields. `Memory` may come at any point.
#[tactic(auto, unfolding(crate::specs::Deliveries::delivery_of))]
pub fn read_delivery(alloc: Global, text: &[u8]) -> Result<Delivery, DeliveryFault>
    ensures { Reads result (delivery_of text.now) }
{
    let value = object_in(alloc, text)?;
    delivery_in(alloc, &value)
}
