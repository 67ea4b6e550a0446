ghost use Rattle.std.specs.Prelude.{◌≡◌, IfOk};
ghost use Rattle.std.specs.String.{string_bytes};
ghost use Rattle.gate_guard_lines.specs.Text as texts;

use gate_guard::{Duties, Duty};
use std::alloc::{AllocError, Global};

// A duty, as JSON.
fn duty_text(alloc: Global, duty: &Duty) -> Result<String, AllocError>
    ensures { IfOk result (λ text. string_bytes text ≡ texts.duty_text_of duty.now) }
{
    match duty {
        Duty::Merge { batch } => format!(in alloc; "{{\"do\":\"merge\",\"batch\":{batch}}}"),
        Duty::Test { batch, commit } => {
            let commit = commit.text();
            format!(in alloc; "{{\"do\":\"test\",\"batch\":{batch},\"commit\":\"{commit}\"}}")
        }
        Duty::Land {
            batch,
            base,
            commit,
        } => {
            let (base, commit) = (base.text(), commit.text());
            format!(in alloc;
                "{{\"do\":\"land\",\"batch\":{batch},\"base\":\"{base}\",\"commit\":\"{commit}\"}}"
            )
        }
    }
}

// What is to be done on a branch, as JSON: `null` if nothing is.
fn branch_text(alloc: Global, duty: Option<Duty>) -> Result<String, AllocError>
    ensures { IfOk result (λ text. string_bytes text ≡ texts.branch_text_of duty) }
{
    match duty {
        Some(duty) => duty_text(alloc, &duty),
        None => String::from_str(alloc, "null"),
    }
}

/// The text of an answer and what is to be done on each branch, as one object of JSON (RFC 8259) without spaces. The answer is given by its
/// text. `AllocError` if there is no memory for it.
pub fn told_text(alloc: Global, answer: &str, duties: Duties) -> Result<String, AllocError>
    ensures value { IfOk result (λ text. string_bytes text ≡ texts.told_text answer.now duties) }
{
    let staging = branch_text(alloc, duties.staging)?;
    let trying = branch_text(alloc, duties.trying)?;
    format!(in alloc; "{{\"answer\":{answer},\"staging\":{staging},\"trying\":{trying}}}")
}
