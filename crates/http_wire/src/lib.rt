//! Messages of HTTP/1.1 (RFC 9112) read from a source or from bytes in memory, and replies written to
//! a sink.
#![tactic(auto)]

mod block;
mod body;
mod buffer;
mod close;
mod end;
mod fields;
mod head;
mod law;
mod length;
mod message;
mod messages;
mod reply;
mod search;
mod unfailing;
mod wire;

pub use close::trim_ows;
pub use end::WireEnd;
pub use law::{
    end_in_any_pieces, end_stays, message_in_any_pieces, message_stays, no_empty_message,
    no_end_at_a_message, no_read_at_a_message, one_end, one_message, one_reading, some_reading,
};
pub use message::Message;
pub use messages::whole_message;
pub use reply::{write_all, write_reply};
pub use wire::Wire;
