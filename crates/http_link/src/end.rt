//! How a link ends.
use crate::desk::Withheld;
use http_wire::WireEnd;

/// How a link ended.
#[derive(Clone, Copy, PartialEq, Eq)]
pub enum LinkEnd {
    /// The input ended between messages.
    Ended,
    /// A request said close and was answered.
    Closed,
    /// As many requests were answered as may be, and the last didn't say close.
    Budget,
    /// What came in the place of a message was refused. It was answered, unless it was cut off by
    /// the end of the input.
    Refused(WireEnd),
    ReadFault,
    WriteFault,
    /// The desk withheld its last reply, and nothing of it was sent.
    Unkept(Withheld),
    /// There was no memory for the wire, or to read a message. The latter was answered.
    Memory,
}
