//! The standard link, served by the one session of a new hub of notes.
ghost use Rattle.std.specs.Prelude.{◌≡◌, [], ℕ, vec_len, IfOk, IfSome, OnErr, slice_get};
ghost use Rattle.notes_core.specs.Machine.{note_rules};
ghost use Rattle.notes_desk.specs.Desk.{note_row};
ghost use Rattle.snapshot_hub.specs.Known.{newcomer};
ghost use Rattle.snapshot_hub.specs.Closed.{HasClosed};
ghost use Rattle.desk_serve.specs.Link.{ServesPipe};

use crate::makers::NotesDesks;
use desk_serve::{pipe_left_alone, serve_by_one};
use http_link::LinkEnd;
use notes_core::{NoteEntry, NotesMachine};
use notes_desk::{NotesDesk, NotesHub, NotesSession};
use osm_base::Memory;
use osm_outside::{Link, NoGate, Outside};
use shared_front::HubName;
use snapshot_hub::{Seats, Shown};
use std::alloc::Global;
use std::sync::Wait;
use user_table::UserTable;

/// Answers the requests of the link by the one session of the hub, which comes back. Want of memory
/// leaves the link alone.
fn serve_by_session<N: HubName, R: Wait, L: Link>(
    alloc: Global,
    rt: &R,
    hub: &NotesHub<N, NoGate, &R>,
    users: &UserTable,
    sessions: Vec<NotesSession<N>>,
    link: &mut L,
) -> Result<(Vec<NotesSession<N>>, LinkEnd), Memory>
    requires one { vec_len sessions ≡ 1 }
    requires fresh { (number : ℕ) → IfSome (slice_get sessions.items number) (λ s. s ≡ newcomer number) }
    ensures served { IfOk result (λ r. HasClosed note_rules 1 r.0.items [] → ServesPipe note_rules note_row users.now (L.told link.old) (L.told link.new) r.1) }
    ensures count { IfOk result (λ r. vec_len r.0 ≡ 1) }
    ensures err { OnErr result (L.told link.new ≡ L.told link.old) }
{
    let maker = NotesDesks { rt, hub, users };
    serve_by_one::<
        N,
        NotesMachine,
        Shown<N, NotesMachine>,
        NotesDesk<'_, N, NoGate, &R, R>,
        NotesDesks<'_, N, &R, R>,
        L,
    >(alloc, &maker, sessions, link)
}

/// Answers the requests of the link by the one session of a new hub of notes under the name of these
/// seats, until the link ends. Then it closes the hub.
pub fn serve_notes<N: HubName, R: Wait, L: Link>(
    alloc: Global,
    rt: &R,
    seats: Seats<NoteEntry>,
    users: &UserTable,
    link: &mut L,
) -> LinkEnd
    requires named { seats.opened ≡ N.book }
    requires seated { seats.sessions ≡ N.sessions }
    requires one { seats.sessions ≡ 1 }
    ensures { ServesPipe note_rules note_row users.now (L.told link.old) (L.told link.new) result }
{
    // What a link that is left alone comes to.
    pipe_left_alone::<N, NotesMachine, Shown<N, NotesMachine>, NotesDesk<'_, N, NoGate, &R, R>>();
    let Ok((mut hub, sessions)) = NotesHub::<N, NoGate, &R>::new(alloc, rt, seats, NoGate) else {
        return LinkEnd::Memory;
    };
    match serve_by_session(alloc, rt, &hub, users, sessions, link) {
        Ok((sessions, end)) => {
            hub.close_with(rt, &sessions);
            end
        }
        Err(Memory) => LinkEnd::Memory,
    }
}
