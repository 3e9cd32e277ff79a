//! Many workers over a hub of notes whose journal is kept in a file.
ghost use Rattle.std.specs.Prelude.{◌≡◌, false, ◌<◌, ◌≤◌, ℕ, List, [], ◌∷◌, length, map, vec_len, IfOk, OnErr, Some};
ghost use Rattle.std.specs.List.{AllByRecursion};
ghost use mathlib.Core.List.{IsPrefix};
ghost use Rattle.hub_core.specs.Journal.{calls_of};
ghost use Rattle.notes_core.specs.Machine.{note_rules};
ghost use Rattle.notes_core.specs.declared.commands.NoteEntry.{NoteEntry};
ghost use Rattle.notes_desk.specs.Desk.{note_row};
ghost use Rattle.snapshot_hub.specs.Known.{returner};
ghost use Rattle.snapshot_hub.specs.Closings.{AreSeated};
ghost use Rattle.snapshot_hub.specs.Ends.{Ends};
ghost use Rattle.durable_log.specs.Held.{HoldsFrom};
ghost use Rattle.kept_desk.specs.Kept.{AtKept};
ghost use Rattle.desk_serve.specs.KeptPorts.{HaveKept};
ghost use Rattle.kept_serve.specs.Ports.{ServesKeptPorts, EndsSealed};
ghost use Rattle.kept_serve.specs.Seated.{IsSeated};

use crate::desk::NotesKeptDesk;
use crate::makers::NotesKeptDesks;
use desk_serve::points_are_consistent;
use durable_log::{Board, Lines, Receipt, Shelf, Told, receipts_stay};
use journal_file::{Device, JournalFile};
use kept_serve::{
    HubSeating, KeptBack, Seating, begin_hub, leave_shelf, outcome_of, seal_shelf, serve_kept_by,
    shelve,
};
use link_workers::Outcome;
use notes_core::{NoteEntry, NotesMachine};
use notes_desk::NotesSession;
use osm_base::Memory;
use osm_outside::{Port, PortOutside};
use shared_front::{Front, HubName, Opened};
use snapshot_hub::{Seats, Shown, Twins};
use std::alloc::Global;
use std::sync::{Mutex, Wait};
use std::thread::Threads;
use user_table::UserTable;

/// Serves the links of each port by the session of its number, one worker a port, each in a thread of
/// its own. The sessions and receipts come back in their order. Want of memory leaves the ports as
/// they were.
fn serve_by_sessions<
    'a,
    N: HubName + Send + Sync,
    K: HubName + Send + Sync,
    T: Lines<NoteEntry> + Send,
    V: Device + Send,
    Q: Wait + Drop + Send + Sync,
    R: Threads + Wait + Sync,
    P: Port + Drop + Send,
>(
    rt: &R,
    alloc: Global,
    maker: &NotesKeptDesks<'a, N, K, T, V, Q, R>,
    sessions: Vec<NotesSession<N>>,
    ports: &mut Vec<P>,
) -> Result<KeptBack<NotesSession<N>, K>, Memory>
    requires { vec_len sessions ≡ vec_len ports.old }
    ensures served { IfOk result (λ r. (stopped : List (AtKept NoteEntry))
        × (map (λ s. s.desk.known) stopped ≡ r.sessions.items) × (map (λ s. s.receipts) stopped ≡ r.receipts.items)
        × (r.withheld ≡ false → AllByRecursion (λ s. s.failed ≡ false) stopped)
        × ((numbers : List ℕ) (J : List NoteEntry) → sessions.items ≡ map (λ n. returner n J (calls_of note_rules.tag_of n J)) numbers
        → HaveKept note_rules note_row maker.now.users.now J maker.now.had.now numbers stopped (map P.told ports.old.items) (map P.told ports.new.items) r.failed)) }
    ensures had { IfOk result (λ r. AllByRecursion (λ receipts. IsPrefix maker.now.had.now receipts) r.receipts.items) }
    ensures left { IfOk result (λ r. vec_len r.sessions ≡ vec_len sessions) }
    ensures count { IfOk result (λ r. vec_len ports.new ≡ vec_len ports.old) }
    ensures err { OnErr result (ports.new.items ≡ ports.old.items) }
{
    serve_kept_by::<
        NotesMachine,
        K,
        NotesKeptDesk<'a, N, K, T, V, Q, R>,
        NotesKeptDesks<'a, N, K, T, V, Q, R>,
        R,
        P,
    >(rt, alloc, maker, sessions, ports)
}

/// A hub of notes that has begun so.
type NotesSeating<'a, N, R> = HubSeating<N, NotesMachine, Shown<N, NotesMachine>, &'a R>;

/// Serves the links of the ports by such a hub, whose journal the shelf has, with its first receipt. Then
/// it seals the shelf and closes the hub.
fn serve_shelved<
    N: HubName + Send + Sync,
    K: HubName + Send + Sync,
    T: Lines<NoteEntry> + Send,
    V: Device + Drop + Send,
    R: Threads + Wait + Sync,
    P: Port + Drop + Send,
>(
    rt: &R,
    alloc: Global,
    begun: NotesSeating<'_, N, R>,
    shelved: (Shelf<N, K, NoteEntry, T, V>, Front<K, Receipt>),
    users: &UserTable,
    ports: &mut Vec<P>,
) -> (Outcome, V)
    requires open { (ends : Ends) × (begun.hub ≡ Some ends) }
    requires some { 0 < vec_len ports.old }
    requires count { vec_len ports.old ≤ N.sessions }
    requires seats { IsSeated note_rules.tag_of N.sessions begun.front (vec_len ports.old) begun.sessions.items begun.spare.items }
    requires first { (receipt : Receipt) × (shelved.1 ≡ receipt ∷ []) × (receipt.count ≡ length begun.front) }
    ensures serves { ServesKeptPorts note_rules note_row T.text V.moment V.left_since V.faults users.now begun.entry.front result.1
        (map P.told ports.old.items) (map P.told ports.new.items) result.0 }
    ensures sealed { EndsSealed T.text V.seen result.1 result.0 }
    ensures count { vec_len ports.new ≡ vec_len ports.old }
{
    // What the machine keeps, and what is kept of its journal.
    points_are_consistent::<NotesMachine>();
    receipts_stay::<NoteEntry, T, V>();
    let Seating {
        mut hub,
        sessions,
        spare,
        front,
    } = begun;
    let (shelf, had) = shelved;
    let board = Board::new(Told::of(had.again(), front.len()));
    let shelf = Mutex::new(shelf);
    let maker = NotesKeptDesks {
        rt,
        hub: &hub,
        users,
        shelf: &shelf,
        board: &board,
        had: &had,
    };
    let served = serve_by_sessions(rt, alloc, &maker, sessions, ports);
    let shelf = shelf.into_inner();
    let Ok(back) = served else {
        return (Outcome::LacksMemory, leave_shelf(rt, &front, &had, shelf));
    };
    let shelf = seal_shelf(shelf);
    shelf.law();
    let outcome = outcome_of(rt, &back, &shelf);
    hub.close_with_spare(rt, &back.sessions, &spare);
    (outcome, shelf.into_device())
}

/// Serves the links of the ports by such a hub, whose journal the file has.
fn serve_begun<
    N: HubName + Send + Sync,
    K: HubName + Send + Sync,
    T: Lines<NoteEntry> + Send,
    V: Device + Drop + Send,
    R: Threads + Wait + Sync,
    P: Port + Drop + Send,
>(
    rt: &R,
    alloc: Global,
    begun: NotesSeating<'_, N, R>,
    file: (JournalFile<V>, Opened<Receipt>),
    users: &UserTable,
    ports: &mut Vec<P>,
) -> (Outcome, V)
    requires open { (ends : Ends) × (begun.hub ≡ Some ends) }
    requires some { 0 < vec_len ports.old }
    requires count { vec_len ports.old ≤ N.sessions }
    requires seats { IsSeated note_rules.tag_of N.sessions begun.front (vec_len ports.old) begun.sessions.items begun.spare.items }
    requires receipts { file.1 ≡ K.book }
    requires text { file.0.text ≡ T.text begun.front }
    requires holds { HoldsFrom T.text V.left_since file.0.device (V.moment file.0.device) (length begun.front) begun.front }
    ensures serves { ServesKeptPorts note_rules note_row T.text V.moment V.left_since V.faults users.now begun.entry.front result.1
        (map P.told ports.old.items) (map P.told ports.new.items) result.0 }
    ensures sealed { EndsSealed T.text V.seen result.1 result.0 }
    ensures count { vec_len ports.new ≡ vec_len ports.old }
{
    let (file, receipts) = file;
    let front = begun.front.again();
    match shelve::<N, K, NoteEntry, T, V, R>(rt, alloc, file, front, receipts) {
        Ok(shelved) => serve_shelved(rt, alloc, begun, shelved, users, ports),
        Err(device) => (Outcome::LacksMemory, device),
    }
}

/// Serves the links of the ports by the first sessions of a hub that goes on from the journal of these
/// twins, under the names of these seats and receipts, one worker a port, each in a thread of its own, until no port
/// has a link to come or accepting fails. Then it closes the hub. A reply is sent only once the file
/// holds what it tells of. The ports come back in their order, and the file's device does; want of memory
/// leaves it with the whole journal.
pub fn serve_kept_ports<
    N: HubName + Send + Sync,
    K: HubName + Send + Sync,
    T: Lines<NoteEntry> + Send,
    V: Device + Drop + Send,
    R: Threads + Wait + Sync,
    P: Port + Drop + Send,
>(
    rt: &R,
    alloc: Global,
    seats: Seats<NoteEntry>,
    receipts: Opened<Receipt>,
    twins: Twins<NotesMachine>,
    file: JournalFile<V>,
    users: &UserTable,
    ports: &mut Vec<P>,
) -> (Outcome, V)
    requires named { seats.opened ≡ N.book }
    requires seated { seats.sessions ≡ N.sessions }
    requires receipts { receipts ≡ K.book }
    requires some { 0 < vec_len ports.old }
    requires count { vec_len ports.old ≤ seats.sessions }
    requires own { AreSeated note_rules.tag_of N.sessions twins }
    requires text { file.text ≡ T.text twins }
    requires holds { HoldsFrom T.text V.left_since file.device (V.moment file.device) (length twins) twins }
    requires fine { V.faults file.device ≡ 0 }
    ensures serves { ServesKeptPorts note_rules note_row T.text V.moment V.left_since V.faults users.now twins result.1
        (map P.told ports.old.items) (map P.told ports.new.items) result.0 }
    ensures sealed { EndsSealed T.text V.seen result.1 result.0 }
    ensures count { vec_len ports.new ≡ vec_len ports.old }
{
    let count = ports.len();
    let begun = begin_hub::<N, NotesMachine, Shown<N, NotesMachine>, &R>(
        rt, alloc, seats, twins, count,
    );
    let Ok(begun) = begun else {
        return (Outcome::LacksMemory, file.into_device());
    };
    serve_begun::<N, K, T, V, R, P>(rt, alloc, begun, (file, receipts), users, ports)
}
