//! A request of a load.
use osm_base::Bytes;

/// A request, and the session that sends it.
#[derive(Drop)]
pub struct Sent {
    /// Counted from 0.
    pub session: u32,
    /// The whole message, head and body.
    pub bytes: Bytes,
}
