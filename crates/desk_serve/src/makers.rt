//! What makes the desks of sessions.
ghost use Rattle.std.specs.Prelude.{◌≡◌, IfOk};

use osm_base::Memory;
use std::alloc::Global;

/// What makes a desk for each session of a hub, all for the same users, and takes the session back
/// when the desk is done.
///
/// The session is a type of its own here, since an impl for one machine can't meet a trait whose
/// methods name the sessions or the hub of any machine.
pub trait DeskMaker<E, D> {
    ghost use Rattle.user_table.specs.Users.{Users};
    ghost use Rattle.snapshot_hub.specs.Known.{Known};
    ghost use Rattle.session_desk.specs.Answered.{AtDesk};
    ghost use Rattle.desk_serve.specs.Desks.{at_desk};

    /// A session of the hub.
    type HubSession: Drop;

    // The users.
    ghost users: { Self → Users };

    // What a session knows.
    ghost knows: { Self.HubSession → Known E };

    // What a desk works with.
    ghost keeps: { D → AtDesk E };

    /// A desk of that session.
    fn desk_of(&self, alloc: Global, session: Self::HubSession) -> Result<D, Memory>
        ensures { IfOk result (λ desk. keeps desk ≡ at_desk (users self.now) (knows session)) };

    /// The session of a desk that is done. It takes no memory.
    fn session_of(&self, desk: D) -> Self::HubSession
        ensures { knows result ≡ (keeps desk).known };
}
