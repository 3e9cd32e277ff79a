//! The desks of notes that keep before they tell.
ghost use Rattle.std.specs.Prelude.{◌≡◌, false, IfOk};
ghost use Rattle.desk_serve.specs.Desks.{at_desk};
ghost use Rattle.kept_desk.specs.Kept.{at_kept};

use crate::desk::NotesKeptDesk;
use desk_serve::serve_kept_link;
use durable_log::{Board, Lines, Receipt, Shelf};
use http_link::LinkEnd;
use journal_file::Device;
use kept_desk::Keeper;
use kept_serve::KeptMaker;
use link_workers::Service;
use notes_core::{NoteEntry, NotesMachine};
use notes_desk::{NotesDesk, NotesHub, NotesSession};
use osm_base::Memory;
use osm_outside::{Link, NoGate, Outside};
use shared_front::{Front, HubName};
use snapshot_hub::Shown;
use std::alloc::Global;
use std::sync::{Mutex, Wait};
use user_table::UserTable;

/// Makes the desks of a hub's sessions, which have these receipts in hand at first.
#[derive(Drop)]
pub struct NotesKeptDesks<
    'a,
    N: HubName,
    K: HubName,
    T: Lines<NoteEntry>,
    V: Device,
    R: Wait + Drop,
    W: Wait,
> {
    pub rt: &'a W,
    pub hub: &'a NotesHub<N, NoGate, R>,
    pub users: &'a UserTable,
    pub shelf: &'a Mutex<Shelf<N, K, NoteEntry, T, V>>,
    pub board: &'a Board<K>,
    pub had: &'a Front<K, Receipt>,
}

impl<'a, N: HubName, K: HubName, T: Lines<NoteEntry>, V: Device, R: Wait + Drop, W: Wait> KeptMaker<
    NoteEntry,
    K,
    NotesKeptDesk<'a, N, K, T, V, R, W>,
> for NotesKeptDesks<'a, N, K, T, V, R, W> {
    ghost use Rattle.notes_desk.specs.Desk.{note_row};

    type HubSession = NotesSession<N>;

    ghost users = { λ m. m.users.now };

    ghost had = { λ m. m.had.now };

    ghost knows = { λ s. s };

    ghost keeps = { λ d. d };

    ghost answers = { note_row };

    fn desk_of(
        &self,
        alloc: Global,
        session: NotesSession<N>,
    ) -> Result<NotesKeptDesk<'a, N, K, T, V, R, W>, Memory>
        ensures { IfOk result (λ desk. desk ≡ at_kept (at_desk self.now.users.now session) 0 self.now.had.now false) }
    {
        let desk = NotesDesk::new(self.rt, self.hub, session, self.users);
        let keeper = Keeper::new(self.rt, alloc, self.shelf, self.board, self.had.again());
        Ok(NotesKeptDesk::new(desk, keeper))
    }

    fn has_failed(&self, desk: &NotesKeptDesk<'a, N, K, T, V, R, W>) -> bool {
        desk.has_failed()
    }

    fn parts_of(
        &self,
        desk: NotesKeptDesk<'a, N, K, T, V, R, W>,
    ) -> (NotesSession<N>, Front<K, Receipt>) {
        desk.into_parts()
    }
}

/// Each worker has a desk of its own, with its session of the hub.
impl<
    'a,
    N: HubName + Send + Sync,
    K: HubName + Send + Sync,
    T: Lines<NoteEntry> + Send,
    V: Device + Send,
    R: Wait + Drop + Send + Sync,
    W: Wait + Sync,
> Service for NotesKeptDesks<'a, N, K, T, V, R, W> {
    ghost use Rattle.notes_core.specs.Machine.{note_rules};
    ghost use Rattle.notes_desk.specs.Desk.{note_row};
    ghost use Rattle.desk_serve.specs.Kept.{KeepsLink};

    type Session = NotesKeptDesk<'a, N, K, T, V, R, W>;

    ghost serves = { λ _ old new before after end. KeepsLink note_rules note_row old new before after end };

    fn serve<Q: Wait, L: Link>(
        &self,
        _rt: &Q,
        alloc: Global,
        desk: &mut NotesKeptDesk<'a, N, K, T, V, R, W>,
        link: &mut L,
    ) -> LinkEnd {
        serve_kept_link::<
            N,
            NotesMachine,
            Shown<N, NotesMachine>,
            NotesKeptDesk<'a, N, K, T, V, R, W>,
            L,
        >(alloc, desk, link)
    }
}
