//! One link, served by the one session of a new hub.
ghost use Rattle.std.specs.Prelude.{[], ◌≡◌, ℕ, map, vec_len, IfOk, IfSome, OnErr, slice_get};
ghost use Rattle.snapshot_hub.specs.Known.{newcomer};
ghost use Rattle.snapshot_hub.specs.Closed.{HasClosed};
ghost use Rattle.desk_serve.specs.Link.{ServesPipe};

use crate::laws::points_are_consistent;
use crate::link::serve_link;
use crate::makers::DeskMaker;
use http_link::{AlwaysTells, LinkEnd};
use machine_law::Machine;
use osm_base::Memory;
use osm_outside::{Link, Outside};
use session_desk::{SessionDesk, served_stay};
use shared_front::HubName;
use snapshot_hub::Snapshot;
use std::alloc::Global;

/// Answers the requests of the link by the one session of a new hub, which comes back. Want of memory
/// leaves the link alone.
pub fn serve_by_one<
    N: HubName,
    M: Machine,
    S: Snapshot<N, M>,
    D: SessionDesk<N, M, S> + AlwaysTells + Drop,
    K: DeskMaker<M::Entry, D>,
    L: Link,
>(
    alloc: Global,
    maker: &K,
    mut sessions: Vec<K::HubSession>,
    link: &mut L,
) -> Result<(Vec<K::HubSession>, LinkEnd), Memory>
    requires same { (desk : D) → K.keeps desk ≡ D.keeps desk }
    requires one { vec_len sessions ≡ 1 }
    requires fresh { (number : ℕ) → IfSome (slice_get sessions.items number) (λ s. K.knows s ≡ newcomer number) }
    ensures served { IfOk result (λ r. HasClosed M.rules 1 (map K.knows r.0.items) [] → ServesPipe M.rules D.answers (K.users maker.now) (L.told link.old) (L.told link.new) r.1) }
    ensures count { IfOk result (λ r. vec_len r.0 ≡ 1) }
    ensures err { OnErr result (L.told link.new ≡ L.told link.old) }
{
    // What of a session stands on a longer front, and what the machine keeps.
    served_stay::<N, M, S, D>();
    points_are_consistent::<M>();
    let Some(session) = sessions.pop() else {
        unreachable!()
    };
    let mut desk = maker.desk_of(alloc, session)?;
    let end = serve_link::<N, M, S, D, L>(alloc, &mut desk, link);
    // It stood in that list, so there is room for it.
    sessions.push_reserved(maker.session_of(desk));
    Ok((sessions, end))
}
