ghost use Rattle.std.specs.Prelude.{◌≡◌};
ghost use Rattle.gate_http.specs.Responses as responses;

use crate::target::Target;
use gate_deliveries::DeliveryFault;
use http::StatusCode;

/// Why a request is refused: the first check that it fails.
#[derive(Clone, Copy, Debug, PartialEq, Eq)]
pub enum Refusal {
    /// There is no whole head within the limits, or not one `Host`, or no good length, or the body is cut short: 400.
    BadRequest,
    /// A token is needed, and the request bears another one or none: 401.
    Unauthorized,
    /// The target names nothing, or a change that was never opened: 404.
    NotFound,
    /// The target has another method than this: 405.
    MethodNotAllowed(Target),
    /// The body has a transfer encoding: 501.
    NotImplemented,
    /// The length of the body isn't given: 411.
    LengthRequired,
    /// The body is longer than 65,536 bytes: 413.
    ContentTooLarge,
    /// The body is no delivery: 400 if it is no JSON object, and else 422.
    NoDelivery(DeliveryFault),
}

// The status of a response to a body that is no delivery. Want of memory is no refusal: no refusal holds it.
fn fault_status(fault: DeliveryFault) -> StatusCode
    ensures { result ≡ responses.fault_status fault }
{
    match fault {
        DeliveryFault::NotJson | DeliveryFault::Memory => StatusCode::BAD_REQUEST,
        DeliveryFault::BadField(_) | DeliveryFault::UnknownEvent =>
            StatusCode::UNPROCESSABLE_ENTITY,
    }
}

impl Refusal {
    /// The status of the response.
    pub fn status(self) -> StatusCode
        ensures { result ≡ (responses.refusal_response self).status }
    {
        match self {
            Refusal::BadRequest => StatusCode::BAD_REQUEST,
            Refusal::Unauthorized => StatusCode::UNAUTHORIZED,
            Refusal::NotFound => StatusCode::NOT_FOUND,
            Refusal::MethodNotAllowed(_) => StatusCode::METHOD_NOT_ALLOWED,
            Refusal::NotImplemented => StatusCode::NOT_IMPLEMENTED,
            Refusal::LengthRequired => StatusCode::LENGTH_REQUIRED,
            Refusal::ContentTooLarge => StatusCode::PAYLOAD_TOO_LARGE,
            Refusal::NoDelivery(fault) => fault_status(fault),
        }
    }
}
