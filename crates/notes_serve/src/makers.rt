//! The desks of notes.
ghost use Rattle.std.specs.Prelude.{◌≡◌, IfOk};
ghost use Rattle.desk_serve.specs.Desks.{at_desk};

use desk_serve::{DeskMaker, serve_link};
use http_link::LinkEnd;
use link_workers::Service;
use notes_core::{NoteEntry, NotesMachine};
use notes_desk::{NotesDesk, NotesHub, NotesSession};
use osm_base::Memory;
use osm_outside::{Link, NoGate, Outside};
use session_desk::HasSession;
use shared_front::HubName;
use snapshot_hub::Shown;
use std::alloc::Global;
use std::sync::Wait;
use user_table::UserTable;

/// Makes the desks of a hub's sessions.
#[derive(Drop)]
pub struct NotesDesks<'a, N: HubName, R: Wait + Drop, W: Wait> {
    pub rt: &'a W,
    pub hub: &'a NotesHub<N, NoGate, R>,
    pub users: &'a UserTable,
}

impl<'a, N: HubName, R: Wait + Drop, W: Wait> DeskMaker<NoteEntry, NotesDesk<'a, N, NoGate, R, W>>
    for NotesDesks<'a, N, R, W> {
    type HubSession = NotesSession<N>;

    ghost users = { λ m. m.users.now };

    ghost knows = { λ s. s };

    ghost keeps = { λ d. d };

    fn desk_of(
        &self,
        _alloc: Global,
        session: NotesSession<N>,
    ) -> Result<NotesDesk<'a, N, NoGate, R, W>, Memory>
        ensures { IfOk result (λ desk. desk ≡ at_desk self.now.users.now session) }
    {
        Ok(NotesDesk::new(self.rt, self.hub, session, self.users))
    }

    fn session_of(&self, desk: NotesDesk<'a, N, NoGate, R, W>) -> NotesSession<N> {
        desk.into_session()
    }
}

/// Each worker has a desk of its own, with its session of the hub.
impl<'a, N: HubName + Send + Sync, R: Wait + Drop + Send + Sync, W: Wait + Sync> Service
    for NotesDesks<'a, N, R, W> {
    ghost use Rattle.notes_core.specs.Machine.{note_rules};
    ghost use Rattle.notes_desk.specs.Desk.{note_row};
    ghost use Rattle.desk_serve.specs.Link.{TellsLink};

    type Session = NotesDesk<'a, N, NoGate, R, W>;

    ghost serves = { λ _ old new before after end. TellsLink note_rules note_row old new before after end };

    fn serve<V: Wait, L: Link>(
        &self,
        _rt: &V,
        alloc: Global,
        desk: &mut NotesDesk<'a, N, NoGate, R, W>,
        link: &mut L,
    ) -> LinkEnd {
        serve_link::<N, NotesMachine, Shown<N, NotesMachine>, NotesDesk<'a, N, NoGate, R, W>, L>(
            alloc, desk, link,
        )
    }
}
