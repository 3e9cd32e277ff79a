//! What desks have in common, whatever machine they stand before: who sent a message, whether its
//! body is XML, how its faults are told, and the reply that the bytes of an answer tell.
#![tactic(auto)]

mod bytes;
mod callers;
mod faults;
mod media;
mod replies;

pub use callers::{caller_of, owner_of};
pub use faults::RequestFault;
pub use media::is_xml;
pub use replies::{refusal_reply, reply_from};
