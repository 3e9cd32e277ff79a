//! Many workers over a hub whose journal is kept in a file.
ghost use Rattle.std.specs.Prelude.{◌≡◌, false, ◌+◌, ◌++◌, ◌≤◌, ℕ, List, map, vec_len, vec_capacity, IfOk, OnErr};
ghost use Rattle.std.specs.List.{AllByRecursion};
ghost use mathlib.Core.List.{IsPrefix};
ghost use Rattle.osm_outside.specs.Told.{Told};
ghost use Rattle.http_link.specs.declared.end.LinkEnd.{LinkEnd};
ghost use Rattle.hub_core.specs.Journal.{calls_of};
ghost use Rattle.snapshot_hub.specs.Known.{returner};
ghost use Rattle.kept_desk.specs.Kept.{AtKept, at_kept};
ghost use Rattle.desk_serve.specs.Desks.{at_desk};
ghost use Rattle.desk_serve.specs.Kept.{KeepsLink};
ghost use Rattle.desk_serve.specs.KeptPorts.{HaveKept};

use crate::makers::KeptMaker;
use durable_log::Receipt;
use link_workers::{Service, any_failed, seat_all, serve_all, unseat_all};
use machine_law::Machine;
use osm_base::Memory;
use osm_outside::{Port, PortOutside};
use shared_front::{Front, HubName};
use std::alloc::Global;
use std::sync::Wait;
use std::thread::Threads;

/// What comes back from workers: their sessions and the receipts that they have in hand, in the order
/// of the workers, whether one withheld a reply because keeping failed, and whether accepting failed at
/// one.
#[derive(Drop)]
pub struct KeptBack<Y: Drop, K: HubName> {
    pub sessions: Vec<Y>,
    pub receipts: Vec<Front<K, Receipt>>,
    pub withheld: bool,
    pub failed: bool,
}

/// A desk for each session, in their order.
fn desks_of<E, K: HubName, Q: Drop, X: KeptMaker<E, K, Q>>(
    alloc: Global,
    maker: &X,
    mut sessions: Vec<X::HubSession>,
) -> Result<Vec<Q>, Memory>
    ensures { IfOk result (λ desks. map X.keeps desks.items ≡ map (λ s. at_kept (at_desk (X.users maker.now) (X.knows s)) 0 (X.had maker.now) false) sessions.items) }
{
    let mut desks = Vec::with_capacity(alloc, sessions.len())?;
    sessions.reverse();
    'sessions: while let Some(session) = sessions.pop() {
        desks.push(maker.desk_of(alloc, session)?)?;
    }
    Ok(desks)
}

/// Whether one of the desks withheld a reply because keeping failed.
fn any_withheld<E, K: HubName, Q: Drop, X: KeptMaker<E, K, Q>>(maker: &X, desks: &[Q]) -> bool
    ensures { result ≡ false → AllByRecursion (λ desk. (X.keeps desk).failed ≡ false) desks.now }
{
    for desk in desks {
        if maker.has_failed(desk) {
            return true;
        }
    }
    false
}

/// Takes the desks apart into lists that have room for them, in their order.
fn leave_desks<E, K: HubName, Q: Drop, X: KeptMaker<E, K, Q>>(
    maker: &X,
    mut desks: Vec<Q>,
    sessions: &mut Vec<X::HubSession>,
    receipts: &mut Vec<Front<K, Receipt>>,
)
    requires room { vec_len sessions.old + vec_len desks ≤ vec_capacity sessions.old }
    requires receipts { vec_len receipts.old + vec_len desks ≤ vec_capacity receipts.old }
    ensures sessions { map X.knows sessions.new.items ≡ map X.knows sessions.old.items ++ map (λ desk. (X.keeps desk).desk.known) desks.items }
    ensures in_hand { receipts.new.items ≡ receipts.old.items ++ map (λ desk. (X.keeps desk).receipts) desks.items }
    ensures count { vec_len sessions.new ≡ vec_len sessions.old + vec_len desks }
{
    desks.reverse();
    'desks: while let Some(desk) = desks.pop() {
        let (session, in_hand) = maker.parts_of(desk);
        sessions.push_reserved(session);
        receipts.push_reserved(in_hand);
    }
}

/// Serves the links of each port by the session of its number, one worker a port, each in a thread of
/// its own, and says whether accepting failed at one. A reply is sent only once the file holds what it
/// tells of. The sessions and receipts come back in their order. Want of memory leaves the ports as
/// they were.
pub fn serve_kept_by<
    M: Machine,
    K: HubName,
    Q: Drop + Send,
    X: KeptMaker<M::Entry, K, Q> + Service<Session = Q> + Sync,
    R: Threads + Wait + Sync,
    P: Port + Drop + Send,
>(
    rt: &R,
    alloc: Global,
    maker: &X,
    sessions: Vec<X::HubSession>,
    ports: &mut Vec<P>,
) -> Result<KeptBack<X::HubSession, K>, Memory>
    requires serves { (old new : Q) (before after : Told) (end : LinkEnd) → X.serves maker.now old new before after end
        → KeepsLink M.rules X.answers (X.keeps old) (X.keeps new) before after end }
    requires count { vec_len sessions ≡ vec_len ports.old }
    ensures served { IfOk result (λ r. (stopped : List (AtKept M.Entry))
        × (map (λ s. s.desk.known) stopped ≡ map X.knows r.sessions.items) × (map (λ s. s.receipts) stopped ≡ r.receipts.items)
        × (r.withheld ≡ false → AllByRecursion (λ s. s.failed ≡ false) stopped)
        × ((numbers : List ℕ) (J : List M.Entry) → map X.knows sessions.items ≡ map (λ n. returner n J (calls_of M.rules.tag_of n J)) numbers
        → HaveKept M.rules X.answers (X.users maker.now) J (X.had maker.now) numbers stopped (map P.told ports.old.items) (map P.told ports.new.items) r.failed)) }
    ensures had { IfOk result (λ r. AllByRecursion (λ receipts. IsPrefix (X.had maker.now) receipts) r.receipts.items) }
    ensures left { IfOk result (λ r. vec_len r.sessions ≡ vec_len sessions) }
    ensures count { IfOk result (λ r. vec_len ports.new ≡ vec_len ports.old) }
    ensures err { OnErr result (ports.new.items ≡ ports.old.items) }
{
    let mut left = Vec::with_capacity(alloc, sessions.len())?;
    let mut receipts = Vec::with_capacity(alloc, sessions.len())?;
    let mut desks = desks_of::<M::Entry, K, Q, X>(alloc, maker, sessions)?;
    let mut workers = seat_all(alloc, &mut desks, ports)?;
    serve_all(rt, alloc, maker, workers.as_mut_slice());
    let failed = any_failed(workers.as_slice());
    unseat_all(workers, &mut desks, ports);
    let withheld = any_withheld::<M::Entry, K, Q, X>(maker, desks.as_slice());
    leave_desks::<M::Entry, K, Q, X>(maker, desks, &mut left, &mut receipts);
    Ok(KeptBack {
        sessions: left,
        receipts,
        withheld,
        failed,
    })
}
