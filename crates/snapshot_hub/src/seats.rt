//! Seats, of which a hub is made.
//!
//! A hub's name says how many sessions it has (`HubName`, beside the list), a session's number is
//! below that, and the value under the lock has entries of no other session. So the closing
//! journal is known to be the calls of the hub's sessions and nothing else, though what lies under
//! a lock is known by its type alone.
ghost use Rattle.std.specs.Prelude.{◌≡◌, ◌<◌, ◌≤◌};
ghost use Rattle.osm_base.specs.declared.limits.TheConstants.{SESSION_LIMIT};

use shared_front::Opened;

/// The seats of a hub that is still to be made: so many sessions, and a list that has no name yet.
#[derive(Drop)]
pub struct Seats<E> {
    pub opened: Opened<E>,
    pub sessions: u32,
    ghost some: { 0 < sessions },
    ghost few: { sessions ≤ SESSION_LIMIT },
}

impl<E> Seats<E> {
    /// Seats for 1 to 64 sessions. It takes no memory.
    pub fn new(sessions: u32) -> Seats<E>
        requires { (0 < sessions) × (sessions ≤ SESSION_LIMIT) }
        ensures { result.sessions ≡ sessions }
    {
        Seats {
            opened: Opened::new(),
            sessions,
        }
    }
}
