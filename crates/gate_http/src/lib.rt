//! Requests and responses over HTTP, as bytes: what the head of a request asks for, or why it is refused, by which token it is let in,
//! and how a response is written.
#![tactic(auto)]

mod front;
mod head;
mod refusal;
mod response;
mod routes;
mod target;
mod token;

pub use head::{Ask, Found, Head, MAX_HEAD, RequestLine, head_in};
pub use refusal::Refusal;
pub use response::{Response, json_response, refusal_response, report_response, with_line_feed};
pub use routes::Routes;
pub use target::{Report, Target};
pub use token::{MAX_TOKEN, Token};
