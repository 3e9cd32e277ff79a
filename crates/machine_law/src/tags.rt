//! Whose call an entry is, and what a command comes to.
use osm_base::Bytes;

/// Whose call it is: the session, and the number of the call in it, from 1.
#[derive(Clone, Copy, PartialEq, Eq)]
pub struct Tag {
    pub session: u32,
    pub call: u64,
}

/// What a command comes to: an answer, and an entry exactly where the command is accepted. An
/// answer's bytes are the two of the status, high byte first, and then the body.
#[derive(Drop)]
pub struct Settled<E> {
    pub answer: Bytes,
    pub entry: Option<E>,
}
