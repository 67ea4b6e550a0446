ghost use Rattle.std.specs.Prelude.{◌≡◌, IfOk};
ghost use Rattle.std.specs.String.{string_bytes};
ghost use Rattle.gate_report.specs.Columns as columns;

use std::alloc::{AllocError, Global};

// The spaces that a text leaves of its places.
fn spaces_beside(alloc: Global, places: usize, text: &str) -> Result<String, AllocError>
    ensures { IfOk result (λ spaces. string_bytes spaces ≡ columns.spaces_beside places text.now) }
{
    " ".repeat(alloc, places.saturating_sub(text.len()))
}

/// The text and the spaces behind it that fill so many places. `AllocError` if there is no memory for it.
pub fn left(alloc: Global, places: usize, text: &str) -> Result<String, AllocError>
    ensures { IfOk result (λ column. string_bytes column ≡ columns.left places text.now) }
{
    let spaces = spaces_beside(alloc, places, text)?;
    format!(in alloc; "{text}{spaces}")
}

/// The text behind the spaces that fill so many places with it. `AllocError` if there is no memory for it.
pub fn right(alloc: Global, places: usize, text: &str) -> Result<String, AllocError>
    ensures { IfOk result (λ column. string_bytes column ≡ columns.right places text.now) }
{
    let spaces = spaces_beside(alloc, places, text)?;
    format!(in alloc; "{spaces}{text}")
}

/// The line of a name and a value. `AllocError` if there is no memory for it.
pub fn field(alloc: Global, name: &str, value: &str) -> Result<String, AllocError>
    ensures { IfOk result (λ line. string_bytes line ≡ columns.field name.now value.now) }
{
    format!(in alloc; "{name} {value}\n")
}
