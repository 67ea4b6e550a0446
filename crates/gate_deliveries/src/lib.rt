//! What a host hands in: deliveries, the acts that each stands for, how one is read from JSON, and the text that tells why one isn't.
#![tactic(auto)]

mod delivery;
mod errors;
mod field;
mod reading;

pub use delivery::{Delivery, Event, acts_of};
pub use errors::error_text;
pub use field::Field;
pub use reading::{DeliveryFault, read_delivery};
