//! Many workers over a hub of the map whose journal is kept in a file.
//!
//! As in the file on many workers over a new hub, whoever makes the hub is generic in its name, and
//! so is whoever makes the list of receipts.
ghost use Rattle.std.specs.Prelude.{◌≡◌, false, ◌+◌, ◌++◌, ◌<◌, ◌≤◌, ℕ, List, [], ◌∷◌, length, map, vec_len, vec_capacity, IfOk, OnErr, Some};
ghost use Rattle.std.specs.List.{AllByRecursion};
ghost use mathlib.Core.List.{IsPrefix};
ghost use Rattle.hub_core.specs.Journal.{calls_of};
ghost use Rattle.journal_text.specs.Text.{text_of};
ghost use Rattle.osm_model.specs.declared.commands.Entry.{Entry};
ghost use Rattle.map_machine.specs.Machine.{map_rules};
ghost use Rattle.api_desk.specs.HubDesk.{map_row};
ghost use Rattle.snapshot_hub.specs.Known.{returner};
ghost use Rattle.snapshot_hub.specs.Ends.{Ends};
ghost use Rattle.snapshot_hub.specs.Closings.{AreSeated};
ghost use Rattle.link_workers.specs.Workers.{AllWork};
ghost use Rattle.durable_log.specs.Held.{HoldsFrom};
ghost use Rattle.kept_desk.specs.Kept.{AtKept, at_kept};
ghost use Rattle.desk_serve.specs.Desks.{at_desk};
ghost use Rattle.desk_serve.specs.Kept.{KeepsLink};
ghost use Rattle.desk_serve.specs.KeptPorts.{HaveKept};
ghost use Rattle.kept_serve.specs.Ports.{ServesKeptPorts, EndsSealed};
ghost use Rattle.kept_serve.specs.Seated.{IsSeated};

use crate::desk::MapKeptDesk;
use api_desk::{HubDesk, MapHub, MapSession};
use desk_serve::points_are_consistent;
use durable_log::{Board, Receipt, Shelf, Told, receipts_stay};
use entry_file::EntryLines;
use http_link::LinkEnd;
use journal_file::{Device, JournalFile};
use kept_desk::{Keeper, KeptSession};
use kept_serve::{
    HubSeating, KeptBack, Seating, begin_hub, leave_shelf, outcome_of, seal_shelf, shelve,
};
use link_workers::{Outcome, Service, Worker, any_failed, seat_all, serve_all, unseat_all};
use map_machine::MapMachine;
use osm_base::Memory;
use osm_model::Entry;
use osm_outside::{Link, NoGate, Outside, Port, PortOutside};
use route_table::Routes;
use server_frame::{answer_link, link_left_alone};
use session_desk::SessionDesk;
use shared_front::{Front, HubName, Opened};
use snapshot_hub::{Seats, Shown, Twins};
use std::alloc::Global;
use std::sync::{Mutex, Wait};
use std::thread::Threads;
use user_table::UserTable;

/// The service of all workers: each has a desk of its own, with its session of the hub, which keeps
/// before it tells.
#[derive(Drop)]
pub struct KeptService<'a, N: HubName, K: HubName, V: Device, R: Wait + Drop, W: Wait> {
    rt: &'a W,
    hub: &'a MapHub<N, NoGate, R>,
    shelf: &'a Mutex<Shelf<N, K, Entry, EntryLines, V>>,
}

impl<
    'a,
    N: HubName + Send + Sync,
    K: HubName + Send + Sync,
    V: Device + Send,
    R: Wait + Drop + Send + Sync,
    W: Wait + Sync,
> Service for KeptService<'a, N, K, V, R, W> {
    ghost use Rattle.map_machine.specs.Machine.{map_rules};
    ghost use Rattle.api_desk.specs.HubDesk.{map_row};
    ghost use Rattle.desk_serve.specs.Kept.{KeepsLink};

    type Session = MapKeptDesk<'a, N, K, V, R, W>;

    ghost serves = { λ _ old new before after end. KeepsLink map_rules map_row old new before after end };

    fn serve<Q: Wait, L: Link>(
        &self,
        _rt: &Q,
        alloc: Global,
        desk: &mut MapKeptDesk<'a, N, K, V, R, W>,
        link: &mut L,
    ) -> LinkEnd {
        serve_by_desk(alloc, desk, link)
    }
}

/// Answers the requests of the link by the desk's session, until the link ends, as `serve_kept_link` does
/// for any desk: at this one the toolchain would compare its type in more steps than it takes.
fn serve_by_desk<N: HubName, K: HubName, V: Device, R: Wait + Drop, W: Wait, L: Link>(
    alloc: Global,
    desk: &mut MapKeptDesk<'_, N, K, V, R, W>,
    link: &mut L,
) -> LinkEnd
    ensures { KeepsLink map_rules map_row desk.old desk.new (L.told link.old) (L.told link.new) result }
{
    // What the machine keeps, and what a link that is left alone is.
    points_are_consistent::<MapMachine>();
    link_left_alone();
    match desk.freshen_session() {
        Ok(found) => {
            link.learn(found);
            let end = answer_link(alloc, desk, link);
            desk.law();
            end
        }
        Err(_) => {
            desk.law();
            LinkEnd::Memory
        }
    }
}

/// What the desks of a hub's sessions are made of.
#[derive(Drop)]
pub struct KeptDesks<'a, N: HubName, K: HubName, V: Device, R: Wait + Drop, W: Wait> {
    rt: &'a W,
    hub: &'a MapHub<N, NoGate, R>,
    users: &'a UserTable,
    routes: &'a Routes,
    shelf: &'a Mutex<Shelf<N, K, Entry, EntryLines, V>>,
    board: &'a Board<K>,
    had: &'a Front<K, Receipt>,
}

impl<'a, N: HubName, K: HubName, V: Device, R: Wait + Drop, W: Wait> KeptDesks<'a, N, K, V, R, W> {
    /// A desk of that session, which has answered nothing. It takes no memory.
    fn desk_of(&self, alloc: Global, session: MapSession<N>) -> MapKeptDesk<'a, N, K, V, R, W>
        ensures { result ≡ at_kept (at_desk self.now.users.now session) 0 self.now.had.now false }
    {
        let desk = HubDesk::new(self.rt, self.hub, session, self.users, self.routes);
        let had = self.had.again();
        let keeper = Keeper::new(self.rt, alloc, self.shelf, self.board, had);
        MapKeptDesk::new(desk, keeper)
    }
}

/// A desk for each session, in their order.
fn desks_of<'a, N: HubName, K: HubName, V: Device, R: Wait + Drop, W: Wait>(
    alloc: Global,
    maker: &KeptDesks<'a, N, K, V, R, W>,
    mut sessions: Vec<MapSession<N>>,
) -> Result<Vec<MapKeptDesk<'a, N, K, V, R, W>>, Memory>
    ensures { IfOk result (λ desks. desks.items ≡ map (λ s. at_kept (at_desk maker.now.users.now s) 0 maker.now.had.now false) sessions.items) }
{
    let mut desks = Vec::with_capacity(alloc, sessions.len())?;
    sessions.reverse();
    'sessions: while let Some(session) = sessions.pop() {
        desks.push(maker.desk_of(alloc, session))?;
    }
    Ok(desks)
}

/// Whether one of the desks withheld a reply because keeping failed.
fn any_withheld<N: HubName, K: HubName, V: Device, R: Wait + Drop, W: Wait>(
    desks: &[MapKeptDesk<'_, N, K, V, R, W>],
) -> bool
    ensures { result ≡ false → AllByRecursion (λ desk. desk.failed ≡ false) desks.now }
{
    for desk in desks {
        if desk.has_failed() {
            return true;
        }
    }
    false
}

/// Takes the desks apart into lists that have room for them, in their order.
fn leave_desks<N: HubName, K: HubName, V: Device, R: Wait + Drop, W: Wait>(
    mut desks: Vec<MapKeptDesk<'_, N, K, V, R, W>>,
    sessions: &mut Vec<MapSession<N>>,
    receipts: &mut Vec<Front<K, Receipt>>,
)
    requires room { vec_len sessions.old + vec_len desks ≤ vec_capacity sessions.old }
    requires receipts { vec_len receipts.old + vec_len desks ≤ vec_capacity receipts.old }
    ensures sessions { sessions.new.items ≡ sessions.old.items ++ map (λ desk. desk.desk.known) desks.entry.items }
    ensures in_hand { receipts.new.items ≡ receipts.old.items ++ map (λ desk. desk.receipts) desks.entry.items }
    ensures count { vec_len sessions.new ≡ vec_len sessions.old + vec_len desks.entry }
{
    desks.reverse();
    'desks: while let Some(desk) = desks.pop() {
        let (session, in_hand) = desk.into_parts();
        sessions.push_reserved(session);
        receipts.push_reserved(in_hand);
    }
}

/// Serves the links of each worker's port, in a thread of its own.
fn serve_desks<
    'a,
    N: HubName + Send + Sync,
    K: HubName + Send + Sync,
    V: Device + Send,
    Q: Wait + Drop + Send + Sync,
    R: Threads + Wait + Sync,
    P: Port + Send,
>(
    rt: &R,
    alloc: Global,
    service: &KeptService<'a, N, K, V, Q, R>,
    workers: &mut [Worker<MapKeptDesk<'a, N, K, V, Q, R>, P>],
)
    ensures { AllWork (KeepsLink map_rules map_row) P.told workers.old workers.new }
{
    serve_all(rt, alloc, service, workers);
}

/// Serves the links of each port by the session of its number, one worker a port, each in a thread of
/// its own. The sessions and receipts come back in their order. Want of memory leaves the ports as
/// they were.
fn serve_by_sessions<
    'a,
    N: HubName + Send + Sync,
    K: HubName + Send + Sync,
    V: Device + Send,
    Q: Wait + Drop + Send + Sync,
    R: Threads + Wait + Sync,
    P: Port + Drop + Send,
>(
    rt: &R,
    alloc: Global,
    maker: &KeptDesks<'a, N, K, V, Q, R>,
    sessions: Vec<MapSession<N>>,
    ports: &mut Vec<P>,
) -> Result<KeptBack<MapSession<N>, K>, Memory>
    requires { vec_len sessions ≡ vec_len ports.old }
    ensures served { IfOk result (λ r. (stopped : List (AtKept Entry))
        × (map (λ s. s.desk.known) stopped ≡ r.sessions.items) × (map (λ s. s.receipts) stopped ≡ r.receipts.items)
        × (r.withheld ≡ false → AllByRecursion (λ s. s.failed ≡ false) stopped)
        × ((numbers : List ℕ) (J : List Entry) → sessions.items ≡ map (λ n. returner n J (calls_of map_rules.tag_of n J)) numbers
        → HaveKept map_rules map_row maker.now.users.now J maker.now.had.now numbers stopped (map P.told ports.old.items) (map P.told ports.new.items) r.failed)) }
    ensures had { IfOk result (λ r. AllByRecursion (λ receipts. IsPrefix maker.now.had.now receipts) r.receipts.items) }
    ensures left { IfOk result (λ r. vec_len r.sessions ≡ vec_len sessions) }
    ensures count { IfOk result (λ r. vec_len ports.new ≡ vec_len ports.old) }
    ensures err { OnErr result (ports.new.items ≡ ports.old.items) }
{
    let mut left = Vec::with_capacity(alloc, sessions.len())?;
    let mut receipts = Vec::with_capacity(alloc, sessions.len())?;
    let mut desks = desks_of(alloc, maker, sessions)?;
    let mut workers = seat_all(alloc, &mut desks, ports)?;
    let service = KeptService {
        rt: maker.rt,
        hub: maker.hub,
        shelf: maker.shelf,
    };
    serve_desks(rt, alloc, &service, workers.as_mut_slice());
    let failed = any_failed(workers.as_slice());
    unseat_all(workers, &mut desks, ports);
    let withheld = any_withheld(desks.as_slice());
    leave_desks(desks, &mut left, &mut receipts);
    Ok(KeptBack {
        sessions: left,
        receipts,
        withheld,
        failed,
    })
}

/// A hub of the map that has begun so.
type MapSeating<'a, N, R> = HubSeating<N, MapMachine, Shown<N, MapMachine>, &'a R>;

/// Serves the links of the ports by such a hub, whose journal the shelf has, with its first receipt. Then
/// it seals the shelf and closes the hub.
fn serve_shelved<
    N: HubName + Send + Sync,
    K: HubName + Send + Sync,
    V: Device + Drop + Send,
    R: Threads + Wait + Sync,
    P: Port + Drop + Send,
>(
    rt: &R,
    alloc: Global,
    begun: MapSeating<'_, N, R>,
    shelved: (Shelf<N, K, Entry, EntryLines, V>, Front<K, Receipt>),
    users: &UserTable,
    routes: &Routes,
    ports: &mut Vec<P>,
) -> (Outcome, V)
    requires open { (ends : Ends) × (begun.hub ≡ Some ends) }
    requires some { 0 < vec_len ports.old }
    requires count { vec_len ports.old ≤ N.sessions }
    requires seats { IsSeated map_rules.tag_of N.sessions begun.front (vec_len ports.old) begun.sessions.items begun.spare.items }
    requires first { (receipt : Receipt) × (shelved.1 ≡ receipt ∷ []) × (receipt.count ≡ length begun.front) }
    ensures serves { ServesKeptPorts map_rules map_row text_of V.moment V.left_since V.faults users.now begun.entry.front result.1
        (map P.told ports.old.items) (map P.told ports.new.items) result.0 }
    ensures sealed { EndsSealed text_of V.seen result.1 result.0 }
    ensures count { vec_len ports.new ≡ vec_len ports.old }
{
    // What the machine keeps, and what is kept of its journal.
    points_are_consistent::<MapMachine>();
    receipts_stay::<Entry, EntryLines, V>();
    let Seating {
        mut hub,
        sessions,
        spare,
        front,
    } = begun;
    let (shelf, had) = shelved;
    let board = Board::new(Told::of(had.again(), front.len()));
    let shelf = Mutex::new(shelf);
    let desks = KeptDesks {
        rt,
        hub: &hub,
        users,
        routes,
        shelf: &shelf,
        board: &board,
        had: &had,
    };
    let served = serve_by_sessions(rt, alloc, &desks, sessions, ports);
    let shelf = shelf.into_inner();
    let Ok(back) = served else {
        return (Outcome::LacksMemory, leave_shelf(rt, &front, &had, shelf));
    };
    let shelf = seal_shelf(shelf);
    shelf.law();
    let outcome = outcome_of(rt, &back, &shelf);
    hub.close_with_spare(rt, &back.sessions, &spare);
    (outcome, shelf.into_device())
}

/// Serves the links of the ports by such a hub, whose journal the file has.
fn serve_begun<
    N: HubName + Send + Sync,
    K: HubName + Send + Sync,
    V: Device + Drop + Send,
    R: Threads + Wait + Sync,
    P: Port + Drop + Send,
>(
    rt: &R,
    alloc: Global,
    begun: MapSeating<'_, N, R>,
    file: (JournalFile<V>, Opened<Receipt>),
    users: &UserTable,
    routes: &Routes,
    ports: &mut Vec<P>,
) -> (Outcome, V)
    requires open { (ends : Ends) × (begun.hub ≡ Some ends) }
    requires some { 0 < vec_len ports.old }
    requires count { vec_len ports.old ≤ N.sessions }
    requires seats { IsSeated map_rules.tag_of N.sessions begun.front (vec_len ports.old) begun.sessions.items begun.spare.items }
    requires receipts { file.1 ≡ K.book }
    requires text { file.0.text ≡ text_of begun.front }
    requires holds { HoldsFrom text_of V.left_since file.0.device (V.moment file.0.device) (length begun.front) begun.front }
    ensures serves { ServesKeptPorts map_rules map_row text_of V.moment V.left_since V.faults users.now begun.entry.front result.1
        (map P.told ports.old.items) (map P.told ports.new.items) result.0 }
    ensures sealed { EndsSealed text_of V.seen result.1 result.0 }
    ensures count { vec_len ports.new ≡ vec_len ports.old }
{
    let (file, receipts) = file;
    let front = begun.front.again();
    match shelve::<N, K, Entry, EntryLines, V, R>(rt, alloc, file, front, receipts) {
        Ok(shelved) => serve_shelved(rt, alloc, begun, shelved, users, routes, ports),
        Err(device) => (Outcome::LacksMemory, device),
    }
}

/// Serves the links of the ports by the first sessions of a hub that goes on from the journal of these
/// twins, under the names of these seats and receipts, one worker a port, each in a thread of its own, until no port
/// has a link to come or accepting fails. Then it closes the hub. A reply is sent only once the file
/// holds what it tells of. The ports come back in their order, and the file's device does; want of memory
/// leaves it with the whole journal.
pub fn serve_kept_ports<
    N: HubName + Send + Sync,
    K: HubName + Send + Sync,
    V: Device + Drop + Send,
    R: Threads + Wait + Sync,
    P: Port + Drop + Send,
>(
    rt: &R,
    alloc: Global,
    seats: Seats<Entry>,
    receipts: Opened<Receipt>,
    twins: Twins<MapMachine>,
    file: JournalFile<V>,
    users: &UserTable,
    ports: &mut Vec<P>,
) -> (Outcome, V)
    requires named { seats.opened ≡ N.book }
    requires seated { seats.sessions ≡ N.sessions }
    requires receipts { receipts ≡ K.book }
    requires some { 0 < vec_len ports.old }
    requires count { vec_len ports.old ≤ seats.sessions }
    requires own { AreSeated map_rules.tag_of N.sessions twins }
    requires text { file.text ≡ text_of twins }
    requires holds { HoldsFrom text_of V.left_since file.device (V.moment file.device) (length twins) twins }
    requires fine { V.faults file.device ≡ 0 }
    ensures serves { ServesKeptPorts map_rules map_row text_of V.moment V.left_since V.faults users.now twins result.1
        (map P.told ports.old.items) (map P.told ports.new.items) result.0 }
    ensures sealed { EndsSealed text_of V.seen result.1 result.0 }
    ensures count { vec_len ports.new ≡ vec_len ports.old }
{
    let Ok(routes) = Routes::new(alloc) else {
        return (Outcome::LacksMemory, file.into_device());
    };
    let count = ports.len();
    let begun = begin_hub::<N, MapMachine, Shown<N, MapMachine>, &R>(
        rt, alloc, seats, twins, count,
    );
    let Ok(begun) = begun else {
        return (Outcome::LacksMemory, file.into_device());
    };
    let kept = (file, receipts);
    serve_begun::<N, K, V, R, P>(rt, alloc, begun, kept, users, &routes, ports)
}
