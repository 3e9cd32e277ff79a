//! What may come at the core, and what it then gives.
use crate::dones::Done;
use osm_base::Bytes;

/// What may come next at the core. Moments are seconds since 1970.
#[derive(Drop)]
pub enum Event<C, Q> {
    /// A session plans a command on what is published. It takes the place of the session's plan.
    Plan { session: u32, command: C },
    /// A session commits its plan at the end of the journal.
    Commit { session: u32, moment: u64 },
    /// The whole journal is published.
    Publish,
    /// A session asks about what is published.
    Ask { session: u32, query: Q, moment: u64 },
    /// The whole journal is published, and a session sees it.
    Freshen { session: u32 },
}

/// What an event gives.
#[derive(Drop)]
pub enum Seen<K> {
    /// A publication, and whatever a session can't do as things stand.
    Idle,
    Planned,
    Committed(Done<K>),
    Answered(Bytes),
}
