//! Serving ports over one list that is kept in a file.
ghost use Rattle.std.specs.Prelude.{◌≡◌, [], ◌∷◌, true, length, map, vec_len, IsTrue};
ghost use Rattle.kept_serve.specs.Ports.{EndsSo, EndsSealed};
ghost use Rattle.durable_log.specs.Held.{HoldsFrom};
ghost use Rattle.durable_log.specs.Receipts.{Receipt};
ghost use Rattle.kept_steps.specs.KeptPorts.{AreMatched, ServesKeptPorts};

use crate::ports::{KeptBack, KeptDesks, serve_by};
use durable_log::{Board, Lines, Receipt, Shelf, Told, receipts_stay};
use journal_file::{Device, JournalFile};
use kept_serve::{are_given, ended, leave_shelf, seal_shelf, shelve};
use link_workers::Outcome;
use osm_outside::{Port, PortOutside};
use shared_front::{Front, HubName, Opened};
use std::alloc::Global;
use std::sync::{Mutex, Wait};
use std::thread::Threads;
use step_hub::{StepHub, Stepped};

/// A value with a list, and the file that holds that list.
#[derive(Drop)]
pub struct KeptList<S: Stepped + Drop, V: Device> {
    pub value: S,
    pub file: JournalFile<V>,
}

/// Whether a reply was withheld because keeping failed only where a call of the device has failed.
fn has_cause(withheld: bool, broken: bool) -> bool
    ensures { IsTrue result → withheld ≡ true → broken ≡ true }
{
    !withheld || broken
}

/// Whether what the workers have in hand, and these receipts that they had at first, are the first
/// receipts that the shelf gave, they have seen what its file may hold, and none withheld a reply because
/// keeping failed where the shelf is whole. No run has shown otherwise.
fn is_matched<N: HubName, K: HubName, E, T: Lines<E>, V: Device>(
    had: &Front<K, Receipt>,
    back: &KeptBack<N, K, E>,
    shelf: &Shelf<N, K, E, T, V>,
) -> bool
    ensures { IsTrue result → AreMatched had.now back.now.receipts.items back.now.withheld back.now.list shelf.now.entries shelf.now.receipts shelf.now.broken }
{
    let given = shelf.receipts();
    if !had.begins(&given) {
        return false;
    }
    if !are_given(&back.receipts, &given) {
        return false;
    }
    if !has_cause(back.withheld, shelf.is_broken()) {
        return false;
    }
    shelf.front().begins(&back.list)
}

/// How serving ended, by what came back from the workers, once that is what the shelf gave: these receipts
/// first. It is so at once: no run has shown otherwise, and where it isn't this waits for ever.
fn outcome_of<N: HubName, K: HubName, E, T: Lines<E>, V: Device, W: Wait>(
    rt: &W,
    had: &Front<K, Receipt>,
    back: &KeptBack<N, K, E>,
    shelf: &Shelf<N, K, E, T, V>,
) -> Outcome
    ensures matched { AreMatched had.now back.now.receipts.items back.now.withheld back.now.list shelf.now.entries shelf.now.receipts shelf.now.broken }
    ensures ends { EndsSo back.now.failed shelf.now.broken result }
{
    for _ in rt.forever() {
        if is_matched(had, back, shelf) {
            return ended(shelf.is_broken(), back.failed);
        }
    }
    unreachable!()
}

/// Serves the links of the ports by a hub whose list, which this front has seen whole, the shelf has, with
/// its first receipt. Then it seals the shelf.
fn serve_shelved<
    N: HubName + Send + Sync,
    K: HubName + Send + Sync,
    S: Stepped + Drop + Send,
    T: Lines<S::Entry> + Send,
    V: Device + Drop + Send,
    R: Threads + Wait + Sync,
    P: Port + Drop + Send,
>(
    rt: &R,
    alloc: Global,
    begun: (StepHub<N, S>, Front<N, S::Entry>),
    shelved: (Shelf<N, K, S::Entry, T, V>, Front<K, Receipt>),
    setting: &S::Setting,
    ports: &mut Vec<P>,
) -> (Outcome, V)
where
    S::Entry: Send + Sync,
    S::Setting: Sync,
    requires legal { S.legal begun.1 }
    requires first { (receipt : Receipt) × (shelved.1 ≡ receipt ∷ []) × (receipt.count ≡ length begun.1) }
    ensures serves { ServesKeptPorts S.steps S.legal T.text V.moment V.left_since V.faults setting.now begun.1 result.1
        (map P.told ports.old.items) (map P.told ports.new.items) result.0 }
    ensures sealed { EndsSealed T.text V.seen result.1 result.0 }
    ensures count { vec_len ports.new ≡ vec_len ports.old }
{
    // What is kept of a list is kept of each longer one.
    receipts_stay::<S::Entry, T, V>();
    let (hub, first) = begun;
    let (shelf, had) = shelved;
    let board = Board::new(Told::of(had.again(), first.len()));
    let shelf = Mutex::new(shelf);
    let desks = KeptDesks {
        rt,
        hub: &hub,
        setting,
        first: &first,
        shelf: &shelf,
        board: &board,
        had: &had,
    };
    let served = serve_by(rt, alloc, &desks, ports);
    let shelf = shelf.into_inner();
    let Ok(back) = served else {
        return (Outcome::LacksMemory, leave_shelf(rt, &first, &had, shelf));
    };
    let shelf = seal_shelf(shelf);
    shelf.law();
    let outcome = outcome_of(rt, &had, &back, &shelf);
    (outcome, shelf.into_device())
}

/// Serves the links of the ports by a new hub of this value, on from the list that it has, under the
/// names of the list and of its receipts, one worker a port, each in a thread of its own, until no port
/// has a link to come or accepting fails. A reply is sent only once the file holds what it tells of. The
/// ports come back in their order, and the file's device does; want of memory leaves it with the whole list.
pub fn serve_kept_ports<
    N: HubName + Send + Sync,
    K: HubName + Send + Sync,
    S: Stepped + Drop + Send,
    T: Lines<S::Entry> + Send,
    V: Device + Drop + Send,
    R: Threads + Wait + Sync,
    P: Port + Drop + Send,
>(
    rt: &R,
    alloc: Global,
    kept: KeptList<S, V>,
    opened: Opened<S::Entry>,
    receipts: Opened<Receipt>,
    setting: &S::Setting,
    ports: &mut Vec<P>,
) -> (Outcome, V)
where
    S::Entry: Send + Sync,
    S::Setting: Sync,
    requires named { opened ≡ N.book }
    requires receipts { receipts ≡ K.book }
    requires text { kept.file.text ≡ T.text (S.list kept.value) }
    requires holds { HoldsFrom T.text V.left_since kept.file.device (V.moment kept.file.device) (length (S.list kept.value)) (S.list kept.value) }
    requires fine { V.faults kept.file.device ≡ 0 }
    ensures serves { ServesKeptPorts S.steps S.legal T.text V.moment V.left_since V.faults setting.now (S.list kept.value) result.1
        (map P.told ports.old.items) (map P.told ports.new.items) result.0 }
    ensures sealed { EndsSealed T.text V.seen result.1 result.0 }
    ensures count { vec_len ports.new ≡ vec_len ports.old }
{
    let KeptList { value, file } = kept;
    let Ok(begun) = StepHub::<N, S>::begin(alloc, value, opened) else {
        return (Outcome::LacksMemory, file.into_device());
    };
    let front = begun.1.again();
    match shelve::<N, K, S::Entry, T, V, R>(rt, alloc, file, front, receipts) {
        Ok(shelved) => serve_shelved(rt, alloc, begun, shelved, setting, ports),
        Err(device) => (Outcome::LacksMemory, device),
    }
}
