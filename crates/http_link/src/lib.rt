//! One link: each message gets its reply, in order.
//!
//! The order of reads, moments and writes is proved from the trace: a link is served in turns, and
//! each turn is some reads, one moment, and the writes of one reply. From this follow that a reply
//! is written whole before anything more is read, and that the clock is read between a message's
//! last byte and its reply.
//!
//! What is read and is no answered message is bounded: by a head's limit, and where a message was
//! cut off, or memory ran out while one was read, by that message's limits besides.
#![tactic(auto)]

mod desk;
mod end;
mod law;
mod link;
mod turn;

pub use desk::{AlwaysTells, Desk, Reply, Withheld};
pub use end::LinkEnd;
pub use law::{always_tells, bytes_tell_the_end, clock_is_read_between, replies_come_before_reads};
pub use link::serve_desk;
