//! Many workers over one new hub.
ghost use Rattle.std.specs.Prelude.{[], ◌≡◌, ◌+◌, ◌++◌, ◌≤◌, ℕ, map, vec_len, vec_capacity, IfOk, IfSome, OnErr, slice_get};
ghost use Rattle.snapshot_hub.specs.Known.{newcomer};
ghost use Rattle.snapshot_hub.specs.Closed.{HasClosed};
ghost use Rattle.osm_outside.specs.Told.{Told};
ghost use Rattle.http_link.specs.declared.end.LinkEnd.{LinkEnd};
ghost use Rattle.desk_serve.specs.Desks.{at_desk};
ghost use Rattle.desk_serve.specs.Link.{TellsLink};
ghost use Rattle.desk_serve.specs.Ports.{ServesAll};

use crate::laws::points_are_consistent;
use crate::makers::DeskMaker;
use http_link::AlwaysTells;
use link_workers::{Service, any_failed, seat_all, serve_all, unseat_all};
use machine_law::Machine;
use osm_base::Memory;
use osm_outside::{Port, PortOutside};
use session_desk::{SessionDesk, links_chain, served_stay};
use shared_front::HubName;
use snapshot_hub::Snapshot;
use std::alloc::Global;
use std::sync::Wait;
use std::thread::Threads;

/// A desk for each session, in their order.
fn desks_of<E, D: Drop, K: DeskMaker<E, D>>(
    alloc: Global,
    maker: &K,
    mut sessions: Vec<K::HubSession>,
) -> Result<Vec<D>, Memory>
    ensures { IfOk result (λ desks. map K.keeps desks.items ≡ map (λ s. at_desk (K.users maker.now) (K.knows s)) sessions.items) }
{
    let mut desks = Vec::with_capacity(alloc, sessions.len())?;
    sessions.reverse();
    'sessions: while let Some(session) = sessions.pop() {
        desks.push(maker.desk_of(alloc, session)?)?;
    }
    Ok(desks)
}

/// Puts the sessions of the desks into a list that has room for them, in their order.
fn leave_desks<E, D: Drop, K: DeskMaker<E, D>>(
    maker: &K,
    mut desks: Vec<D>,
    sessions: &mut Vec<K::HubSession>,
)
    requires { vec_len sessions.old + vec_len desks ≤ vec_capacity sessions.old }
    ensures sessions { map K.knows sessions.new.items ≡ map K.knows sessions.old.items ++ map (λ desk. (K.keeps desk).known) desks.items }
    ensures count { vec_len sessions.new ≡ vec_len sessions.old + vec_len desks }
{
    desks.reverse();
    'desks: while let Some(desk) = desks.pop() {
        sessions.push_reserved(maker.session_of(desk));
    }
}

/// Serves the links of each port by the session of its number, one worker a port, each in a thread of
/// its own, and says whether accepting failed at one. The sessions come back in their order. Want of
/// memory leaves the ports as they were.
pub fn serve_by<
    N: HubName,
    M: Machine,
    S: Snapshot<N, M>,
    D: SessionDesk<N, M, S> + AlwaysTells + Drop + Send,
    K: DeskMaker<M::Entry, D> + Service<Session = D> + Sync,
    R: Threads + Wait + Sync,
    P: Port + Drop + Send,
>(
    rt: &R,
    alloc: Global,
    maker: &K,
    sessions: Vec<K::HubSession>,
    ports: &mut Vec<P>,
) -> Result<(Vec<K::HubSession>, bool), Memory>
where
    K::HubSession: Send,
    requires serves { (old new : D) (before after : Told) (end : LinkEnd) → K.serves maker.now old new before after end
        → TellsLink M.rules D.answers (K.keeps old) (K.keeps new) before after end }
    requires count { vec_len sessions ≡ vec_len ports.old }
    requires fresh { (number : ℕ) → IfSome (slice_get sessions.items number) (λ s. K.knows s ≡ newcomer number) }
    ensures served { IfOk result (λ r. HasClosed M.rules (vec_len ports.old) (map K.knows r.0.items) []
        → ServesAll M.rules D.answers (K.users maker.now) (map P.told ports.old.items) (map P.told ports.new.items) r.1) }
    ensures left { IfOk result (λ r. vec_len r.0 ≡ vec_len sessions) }
    ensures count { IfOk result (λ r. vec_len ports.new ≡ vec_len ports.old) }
    ensures err { OnErr result (ports.new.items ≡ ports.old.items) }
{
    // How the links of a session join, what of it stands on a longer front, and what the machine keeps.
    links_chain::<N, M, S, D>();
    served_stay::<N, M, S, D>();
    points_are_consistent::<M>();
    let mut left = Vec::with_capacity(alloc, sessions.len())?;
    let mut desks = desks_of::<M::Entry, D, K>(alloc, maker, sessions)?;
    let mut workers = seat_all(alloc, &mut desks, ports)?;
    serve_all(rt, alloc, maker, workers.as_mut_slice());
    let failed = any_failed(workers.as_slice());
    unseat_all(workers, &mut desks, ports);
    leave_desks::<M::Entry, D, K>(maker, desks, &mut left);
    Ok((left, failed))
}
