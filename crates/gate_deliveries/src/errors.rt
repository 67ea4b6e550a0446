ghost use Rattle.std.specs.Prelude.{◌≡◌, IfOk};
ghost use Rattle.std.specs.String.{string_bytes};
ghost use Rattle.serde_json.specs.View.{view};
ghost use Rattle.gate_deliveries.specs.Errors.{error_named, error_data, error_text_of};

use crate::reading::DeliveryFault;
use serde_json::{Value, json};
use std::alloc::{AllocError, Global};

// An error without a field as JSON.
fn named_error(alloc: Global, name: &str, number: u8) -> Result<Value, AllocError>
    ensures { IfOk result (λ value. view value ≡ error_named name.now number) }
{
    json!(in alloc; {"error": name, "number": number})
}

// A refusal as JSON.
fn error_value(alloc: Global, fault: &DeliveryFault) -> Result<Value, AllocError>
    ensures { IfOk result (λ value. view value ≡ error_data fault.now) }
{
    match fault {
        DeliveryFault::NotJson => named_error(alloc, "NotJson", 1),
        DeliveryFault::BadField(field) => {
            let name = field.name();
            json!(in alloc; {"error": "BadField", "field": name, "number": 2})
        }
        DeliveryFault::UnknownEvent => named_error(alloc, "UnknownEvent", 3),
        DeliveryFault::Memory => named_error(alloc, "Memory", 4),
    }
}

/// The text of an error: a JSON object with the name and the number of the refusal, and the field if one is bad.
/// `AllocError` if there is no memory for it.
pub fn error_text(alloc: Global, fault: &DeliveryFault) -> Result<String, AllocError>
    ensures { IfOk result (λ text. string_bytes text ≡ error_text_of fault.now) }
{
    error_value(alloc, fault)?.to_string(alloc)
}
