//! Many workers, each with a desk that keeps before it tells.
ghost use Rattle.std.specs.Prelude.{◌≡◌, ◌+◌, ◌++◌, ◌≤◌, false, List, length, map, vec_len, vec_capacity, replicate, IfOk, OnErr};
ghost use Rattle.std.specs.List.{AllByRecursion, sum_by};
ghost use mathlib.Core.List.{IsPrefix};
ghost use Rattle.osm_base.specs.declared.limits.TheConstants.{PIECE_LIMIT};
ghost use Rattle.http_link.specs.Link.{ServesTold};
ghost use Rattle.link_workers.specs.Workers.{AllWork};
ghost use Rattle.kept_steps.specs.Kept.{AtKeptFront, at_kept_front};
ghost use Rattle.kept_steps.specs.KeptPorts.{HaveKept};

use crate::desk::KeptStepDesk;
use durable_log::{Board, Lines, Receipt, Shelf};
use http_link::Desk;
use journal_file::Device;
use kept_desk::Keeper;
use link_workers::{DeskService, Worker, any_failed, seat_all, serve_all, unseat_all};
use osm_base::{Memory, PIECE_LIMIT};
use osm_outside::{Port, PortOutside};
use shared_front::{Front, HubName};
use std::alloc::Global;
use std::sync::{Mutex, Wait};
use std::thread::Threads;
use step_hub::{StepDesk, StepHub, Stepped, await_growth, longest};

/// What desks are made of: their hub and what it was begun with, and the file's shelf and the receipts
/// that it gave then.
#[derive(Drop)]
pub struct KeptDesks<
    'a,
    N: HubName,
    K: HubName,
    S: Stepped + Drop,
    T: Lines<S::Entry>,
    V: Device,
    R: Wait,
> {
    pub rt: &'a R,
    pub hub: &'a StepHub<N, S>,
    pub setting: &'a S::Setting,
    pub first: &'a Front<N, S::Entry>,
    pub shelf: &'a Mutex<Shelf<N, K, S::Entry, T, V>>,
    pub board: &'a Board<K>,
    pub had: &'a Front<K, Receipt>,
}

/// What comes back from workers: what they have seen of the list, the receipts that each has in hand, in
/// their order, whether one withheld a reply because keeping failed, and whether accepting failed at one.
#[derive(Drop)]
pub struct KeptBack<N: HubName, K: HubName, E> {
    pub list: Front<N, E>,
    pub receipts: Vec<Front<K, Receipt>>,
    pub withheld: bool,
    pub failed: bool,
}

impl<
    'a,
    N: HubName,
    K: HubName,
    S: Stepped + Drop,
    T: Lines<S::Entry>,
    V: Device,
    R: Wait,
> KeptDesks<'a, N, K, S, T, V, R> {
    /// A desk that has answered nothing. It takes no memory.
    fn desk(&self, alloc: Global) -> KeptStepDesk<'a, N, K, S, T, V, R>
        requires { S.legal self.now.first.now }
        ensures { result ≡ at_kept_front self.now.setting.now self.now.first.now self.now.had.now }
    {
        let desk = StepDesk::new(self.rt, self.hub, self.setting, self.first.again());
        let keeper = Keeper::new(self.rt, alloc, self.shelf, self.board, self.had.again());
        KeptStepDesk::new(alloc, desk, keeper)
    }
}

/// So many desks.
fn desks_of<'a, N: HubName, K: HubName, S: Stepped + Drop, T: Lines<S::Entry>, V: Device, R: Wait>(
    alloc: Global,
    maker: &KeptDesks<'a, N, K, S, T, V, R>,
    count: usize,
) -> Result<Vec<KeptStepDesk<'a, N, K, S, T, V, R>>, Memory>
    requires { S.legal maker.now.first.now }
    ensures { IfOk result (λ desks. desks.items ≡ replicate count (at_kept_front maker.now.setting.now maker.now.first.now maker.now.had.now)) }
{
    let mut desks = Vec::with_capacity(alloc, count)?;
    for _ in 0..count {
        desks.push(maker.desk(alloc))?;
    }
    Ok(desks)
}

/// Whether one of the desks withheld a reply because keeping failed.
fn any_withheld<N: HubName, K: HubName, S: Stepped + Drop, T: Lines<S::Entry>, V: Device, R: Wait>(
    desks: &[KeptStepDesk<'_, N, K, S, T, V, R>],
) -> bool
    ensures { result ≡ false → AllByRecursion (λ it. it.keeper.failed ≡ false) desks.now }
{
    for desk in desks {
        if desk.has_failed() {
            return true;
        }
    }
    false
}

/// Puts the receipts in hand of the desks into a list that has room for them, in their order.
fn leave_desks<N: HubName, K: HubName, S: Stepped + Drop, T: Lines<S::Entry>, V: Device, R: Wait>(
    desks: &[KeptStepDesk<'_, N, K, S, T, V, R>],
    receipts: &mut Vec<Front<K, Receipt>>,
)
    requires { vec_len receipts.old + length desks.now ≤ vec_capacity receipts.old }
    ensures { receipts.new.items ≡ receipts.old.items ++ map (λ it. it.keeper.receipts) desks.now }
{
    for desk in desks {
        receipts.push_reserved(desk.receipts());
    }
}

/// Serves the links of each worker's port by its desk, in a thread of its own.
fn serve_desks<D: Desk + Send + Sync, R: Threads + Wait + Sync, P: Port + Send>(
    rt: &R,
    alloc: Global,
    workers: &mut [Worker<D, P>],
)
    ensures { AllWork (ServesTold PIECE_LIMIT D.allows D.tells D.shows D.withholds) P.told workers.old workers.new }
{
    serve_all(rt, alloc, &DeskService::<D>::new(PIECE_LIMIT), workers);
}

/// Serves the links of each port by a desk of its own, one worker a port, each in a thread of its own.
/// Want of memory leaves the ports as they were.
pub fn serve_by<
    'a,
    N: HubName + Send + Sync,
    K: HubName + Send + Sync,
    S: Stepped + Drop + Send,
    T: Lines<S::Entry> + Send,
    V: Device + Send,
    R: Threads + Wait + Sync,
    P: Port + Drop + Send,
>(
    rt: &R,
    alloc: Global,
    maker: &KeptDesks<'a, N, K, S, T, V, R>,
    ports: &mut Vec<P>,
) -> Result<KeptBack<N, K, S::Entry>, Memory>
where
    S::Entry: Send + Sync,
    S::Setting: Sync,
    requires { S.legal maker.now.first.now }
    ensures served { IfOk result (λ r. (stopped : List (AtKeptFront S.Setting S.Entry))
        × (map (λ it. it.keeper.receipts) stopped ≡ r.receipts.items) × AllByRecursion (λ it. IsPrefix it.desk.front r.list) stopped
        × (r.withheld ≡ false → AllByRecursion (λ it. it.keeper.failed ≡ false) stopped)
        × (length r.list ≡ length maker.now.first.now + sum_by (λ it. it.desk.grown) stopped)
        × HaveKept S.steps maker.now.setting.now maker.now.first.now maker.now.had.now stopped (map P.told ports.old.items) (map P.told ports.new.items) r.failed) }
    ensures legal { IfOk result (λ r. S.legal r.list) }
    ensures goes_on { IfOk result (λ r. IsPrefix maker.now.first.now r.list) }
    ensures count { IfOk result (λ r. vec_len ports.new ≡ vec_len ports.old) }
    ensures err { OnErr result (ports.new.items ≡ ports.old.items) }
{
    let count = ports.len();
    let mut receipts = Vec::with_capacity(alloc, count)?;
    let mut desks = desks_of(alloc, maker, count)?;
    let mut workers = seat_all(alloc, &mut desks, ports)?;
    serve_desks(rt, alloc, workers.as_mut_slice());
    let failed = any_failed(workers.as_slice());
    unseat_all(workers, &mut desks, ports);
    let withheld = any_withheld(desks.as_slice());
    leave_desks(desks.as_slice(), &mut receipts);
    // All desks have seen beginnings of one list.
    let list = longest::<N, S, KeptStepDesk<'_, N, K, S, T, V, R>>(maker.first, desks.as_slice());
    await_growth::<N, S, KeptStepDesk<'_, N, K, S, T, V, R>, R>(
        rt,
        maker.first,
        &list,
        desks.as_slice(),
    );
    Ok(KeptBack {
        list,
        receipts,
        withheld,
        failed,
    })
}
