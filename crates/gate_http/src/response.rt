ghost use Rattle.std.specs.Prelude.{◌≡◌, ◌++◌, ◌∷◌, [], Some, None, IfOk};
ghost use Rattle.std.specs.Option.{option_copied};
ghost use Rattle.std.specs.String.{string_bytes};
ghost use Rattle.gate_http.specs.Responses as responses;
ghost use Rattle.gate_http.specs.Responses.{IsResponse};

use crate::refusal::Refusal;
use gate_deliveries::error_text;
use http::StatusCode;
use std::alloc::{AllocError, Global};

// The kind of a body that is JSON, and of one that is a report.
const JSON: &str = "application/json";

const PLAIN: &str = "text/plain; charset=utf-8";

// The scheme by which a token is asked for.
const BEARER: &str = "Bearer realm=\"gate\"";

/// A response as it is sent: its status, and all its bytes.
#[derive(Drop)]
pub struct Response {
    /// The status.
    pub status: StatusCode,
    /// All bytes.
    pub text: String,
}

/// The text with a line feed behind it. `AllocError` if there is no memory for it.
pub fn with_line_feed(text: String) -> Result<String, AllocError>
    ensures { IfOk result (λ ended. string_bytes ended ≡ string_bytes text ++ 10 ∷ []) }
{
    let mut ended = text;
    ended.push('\n')?;
    Ok(ended)
}

// A field line.
fn field(alloc: Global, name: &str, value: &str) -> Result<String, AllocError>
    ensures { IfOk result (λ text. string_bytes text ≡ responses.field name.now value.now) }
{
    format!(in alloc; "{name}: {value}\r\n")
}

// The same, if there is a value.
fn field_if(alloc: Global, name: &str, value: Option<&str>) -> Result<String, AllocError>
    ensures { IfOk result (λ text. string_bytes text ≡ responses.field_if name.now (option_copied value.entry)) }
{
    match value {
        Some(value) => field(alloc, name, value),
        None => Ok(String::new(alloc)),
    }
}

// The message, of which three fields stand here only if they are needed.
fn message(
    alloc: Global,
    status: StatusCode,
    kind: &str,
    allow: &str,
    challenge: &str,
    body: &str,
) -> Result<String, AllocError>
    ensures { IfOk result (λ text. string_bytes text ≡ responses.message status kind.now allow.now challenge.now body.now) }
{
    let length = body.len();
    format!(in alloc;
        "HTTP/1.1 {status}\r\n{kind}Content-Length: {length}\r\n{allow}{challenge}Connection: close\r\n\r\n{body}"
    )
}

// The response of these parts.
#[tactic(auto, unfolding(crate::specs::Responses::response_text))]
fn response_of(
    alloc: Global,
    status: StatusCode,
    kind: Option<&str>,
    allow: Option<&str>,
    challenge: Option<&str>,
    body: &str,
) -> Result<Response, AllocError>
    ensures { IfOk result (λ response. IsResponse response
        (record {
          status = status;
          kind = option_copied kind.entry;
          allow = option_copied allow.entry;
          challenge = option_copied challenge.entry;
          body = body.now;
        })) }
{
    let kind = field_if(alloc, "Content-Type", kind)?;
    let allow = field_if(alloc, "Allow", allow)?;
    let challenge = field_if(alloc, "WWW-Authenticate", challenge)?;
    let text = message(
        alloc,
        status,
        kind.as_str(),
        allow.as_str(),
        challenge.as_str(),
        body,
    )?;
    Ok(Response { status, text })
}

/// The response whose body is a JSON text and a line feed, which the text here has already. `AllocError` if there is no memory for it.
pub fn json_response(alloc: Global, status: StatusCode, body: &str) -> Result<Response, AllocError>
    ensures { IfOk result (λ response. IsResponse response
        (record { status = status; kind = Some responses.json; allow = None; challenge = None; body = body.now })) }
{
    response_of(alloc, status, Some(JSON), None, None, body)
}

/// The response whose body is a report. `AllocError` if there is no memory for it.
pub fn report_response(alloc: Global, report: &str) -> Result<Response, AllocError>
    ensures { IfOk result (λ response. IsResponse response (responses.report_response report.now)) }
{
    response_of(alloc, StatusCode::OK, Some(PLAIN), None, None, report)
}

/// The response to a request that is refused. `AllocError` if there is no memory for it.
pub fn refusal_response(alloc: Global, refusal: Refusal) -> Result<Response, AllocError>
    ensures { IfOk result (λ response. IsResponse response (responses.refusal_response refusal)) }
{
    let status = refusal.status();
    match refusal {
        Refusal::NoDelivery(fault) => {
            let text = with_line_feed(error_text(alloc, &fault)?)?;
            json_response(alloc, status, text.as_str())
        }
        Refusal::MethodNotAllowed(target) => {
            let method = target.method();
            response_of(alloc, status, None, Some(method.as_str()), None, "")
        }
        Refusal::Unauthorized => response_of(alloc, status, None, None, Some(BEARER), ""),
        Refusal::BadRequest
        | Refusal::NotFound
        | Refusal::NotImplemented
        | Refusal::LengthRequired
        | Refusal::ContentTooLarge => response_of(alloc, status, None, None, None, ""),
    }
}
