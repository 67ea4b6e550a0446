//! What comes in and goes out: lines of deliveries, and requests over HTTP, which a keeper answers.
#![tactic(auto)]

mod answering;
mod denials;
mod fault;
mod laws;
mod line;
mod lines;
mod memory;
mod receiving;
mod requests;
mod sending;

pub use denials::denial_in;
pub use fault::HookFault;
pub use gate_deliveries::{DeliveryFault, Field, error_text, read_delivery};
pub use gate_http::{RequestLine, Routes, Token};
pub use laws::{law_of_lines, law_of_requests};
pub use lines::serve_lines;
pub use memory::{book_in_memory, serve_book, serve_in_memory};
pub use receiving::{is_enough, read_token};
pub use requests::{Served, Transcript, serve_guarded, serve_one};
pub use sending::send;
