//! What makes the desks of sessions that keep before they tell.
ghost use Rattle.std.specs.Prelude.{◌≡◌, IfOk};

use durable_log::Receipt;
use osm_base::Memory;
use shared_front::{Front, HubName};
use std::alloc::Global;

/// What makes a desk for each session of a hub, all for the same users and with the same receipts in
/// hand at first, and takes a desk apart that is done. Its desks keep before they tell.
///
/// The desk and the session are types of their own here: a generic function sends to threads only
/// what is a parameter of it, and an impl for one machine can't meet a trait whose methods name the
/// sessions or the hub of any machine.
pub trait KeptMaker<E, K: HubName, Q> {
    ghost use Rattle.std.specs.Prelude.{List, false};
    ghost use Rattle.user_table.specs.Users.{Users};
    ghost use Rattle.snapshot_hub.specs.Known.{Known};
    ghost use Rattle.session_desk.specs.Answered.{RowOf};
    ghost use Rattle.durable_log.specs.Receipts.{Receipt};
    ghost use Rattle.kept_desk.specs.Kept.{AtKept, at_kept};
    ghost use Rattle.desk_serve.specs.Desks.{at_desk};

    /// A session of the hub.
    type HubSession: Drop;

    // The users.
    ghost users: { Self → Users };

    // The receipts that each desk has in hand at first.
    ghost had: { Self → List Receipt };

    // What a session knows.
    ghost knows: { Self.HubSession → Known E };

    // What a desk works with.
    ghost keeps: { Q → AtKept E };

    // What one message may be answered.
    ghost answers: { RowOf E };

    /// A desk of that session, which has answered nothing.
    fn desk_of(&self, alloc: Global, session: Self::HubSession) -> Result<Q, Memory>
        ensures { IfOk result (λ desk. keeps desk ≡ at_kept (at_desk (users self.now) (knows session)) 0 (had self.now) false) };

    /// Whether a desk withheld a reply because keeping failed.
    fn has_failed(&self, desk: &Q) -> bool
        ensures { result ≡ (keeps desk.now).failed };

    /// The session of a desk that is done, and the receipts that it has in hand. It takes no memory.
    fn parts_of(&self, desk: Q) -> (Self::HubSession, Front<K, Receipt>)
        ensures session { knows result.0 ≡ (keeps desk).desk.known }
        ensures receipts { result.1 ≡ (keeps desk).receipts };
}
