//! Many workers over one list.
//!
//! The one list is the longest front of the workers' desks. What the lock holds at the end needs
//! no looking at: all fronts begin one list, so the longest is begun by each. It is as long as the
//! desks' answers have made it.
ghost use Rattle.std.specs.Prelude.{◌≡◌, [], map, vec_len, replicate, IfOk, OnErr};
ghost use Rattle.osm_base.specs.declared.limits.TheConstants.{PIECE_LIMIT};
ghost use Rattle.http_link.specs.Link.{ServesTelling};
ghost use Rattle.link_workers.specs.Workers.{AllWork};
ghost use Rattle.step_hub.specs.Steps.{at_front};
ghost use Rattle.step_hub.specs.ServePorts.{ServesAll, ServesPorts, ServesPortsFrom};

use crate::desk::StepDesk;
use crate::fronts::{await_growth, longest};
use crate::hub::StepHub;
use crate::stepped::Stepped;
use http_link::AlwaysTells;
use link_workers::{Outcome, TellingService, Worker, any_failed, seat_all, serve_all, unseat_all};
use osm_base::{Memory, PIECE_LIMIT};
use osm_outside::{Port, PortOutside};
use shared_front::{Front, HubName, Opened};
use std::alloc::Global;
use std::sync::Wait;
use std::thread::Threads;

/// So many desks that have seen this of the hub's list.
fn desks_of<'a, N: HubName, S: Stepped + Drop, R: Wait>(
    alloc: Global,
    rt: &'a R,
    hub: &'a StepHub<N, S>,
    setting: &'a S::Setting,
    first: &Front<N, S::Entry>,
    count: usize,
) -> Result<Vec<StepDesk<'a, N, S, R>>, Memory>
    requires { S.legal first.now }
    ensures { IfOk result (λ desks. desks.items ≡ replicate count (at_front setting.now first.now 0)) }
{
    let mut desks = Vec::with_capacity(alloc, count)?;
    for _ in 0..count {
        desks.push(StepDesk::new(rt, hub, setting, first.again()))?;
    }
    Ok(desks)
}

/// Serves the links of each worker's port by its desk, in a thread of its own.
fn serve_desks<D: AlwaysTells + Send + Sync, R: Threads + Wait + Sync, P: Port + Send>(
    rt: &R,
    alloc: Global,
    workers: &mut [Worker<D, P>],
)
    ensures { AllWork (ServesTelling PIECE_LIMIT D.allows) P.told workers.old workers.new }
{
    serve_all(rt, alloc, &TellingService::<D>::new(PIECE_LIMIT), workers);
}

/// Serves the links of each port by a desk of the hub, and says whether accepting failed at one. The ports come back in their
/// order. Want of memory leaves them as they were.
fn serve_by<
    'a,
    N: HubName + Send + Sync,
    S: Stepped + Drop + Send,
    R: Threads + Wait + Sync,
    P: Port + Drop + Send,
>(
    rt: &'a R,
    alloc: Global,
    hub: &'a StepHub<N, S>,
    setting: &'a S::Setting,
    first: &Front<N, S::Entry>,
    ports: &mut Vec<P>,
) -> Result<bool, Memory>
where
    S::Entry: Send + Sync,
    S::Setting: Sync,
    requires { S.legal first.now }
    ensures served { IfOk result (λ failed. ServesAll S.steps S.legal setting.now first.now (map P.told ports.old.items) (map P.told ports.new.items) failed) }
    ensures count { IfOk result (λ failed. vec_len ports.new ≡ vec_len ports.old) }
    ensures err { OnErr result (ports.new.items ≡ ports.old.items) }
{
    let mut desks = desks_of(alloc, rt, hub, setting, first, ports.len())?;
    let mut workers = seat_all(alloc, &mut desks, ports)?;
    serve_desks(rt, alloc, workers.as_mut_slice());
    let failed = any_failed(workers.as_slice());
    unseat_all(workers, &mut desks, ports);
    // All desks have seen beginnings of one list.
    let list = longest::<N, S, StepDesk<'_, N, S, R>>(first, desks.as_slice());
    await_growth::<N, S, StepDesk<'_, N, S, R>, R>(rt, first, &list, desks.as_slice());
    Ok(failed)
}

/// Serves the links of the ports by a new hub of this value under that name, on from the list that it has, one worker a port, each in
/// a thread of its own, until no port has a link to come or accepting fails. The ports come back in their order.
pub fn serve_ports_from<
    N: HubName + Send + Sync,
    S: Stepped + Drop + Send,
    R: Threads + Wait + Sync,
    P: Port + Drop + Send,
>(
    rt: &R,
    alloc: Global,
    value: S,
    opened: Opened<S::Entry>,
    setting: &S::Setting,
    ports: &mut Vec<P>,
) -> Outcome
where
    S::Entry: Send + Sync,
    S::Setting: Sync,
    requires named { opened ≡ N.book }
    ensures serves { ServesPortsFrom S.steps S.legal setting.now (S.list value) (map P.told ports.old.items) (map P.told ports.new.items) result }
    ensures count { vec_len ports.new ≡ vec_len ports.old }
{
    let Ok((hub, first)) = StepHub::<N, S>::begin(alloc, value, opened) else {
        return Outcome::LacksMemory;
    };
    match serve_by(rt, alloc, &hub, setting, &first, ports) {
        Ok(true) => Outcome::Failed,
        Ok(false) => Outcome::Served,
        Err(Memory) => Outcome::LacksMemory,
    }
}

/// The same by a value whose list is empty.
pub fn serve_ports<
    N: HubName + Send + Sync,
    S: Stepped + Drop + Send,
    R: Threads + Wait + Sync,
    P: Port + Drop + Send,
>(
    rt: &R,
    alloc: Global,
    value: S,
    opened: Opened<S::Entry>,
    setting: &S::Setting,
    ports: &mut Vec<P>,
) -> Outcome
where
    S::Entry: Send + Sync,
    S::Setting: Sync,
    requires named { opened ≡ N.book }
    requires empty { S.list value ≡ [] }
    ensures serves { ServesPorts S.steps S.legal setting.now (map P.told ports.old.items) (map P.told ports.new.items) result }
    ensures count { vec_len ports.new ≡ vec_len ports.old }
{
    serve_ports_from::<N, S, R, P>(rt, alloc, value, opened, setting, ports)
}
