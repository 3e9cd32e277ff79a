//! Many workers over one new hub of notes.
ghost use Rattle.std.specs.Prelude.{◌≡◌, [], ℕ, map, vec_len, IfOk, IfSome, OnErr, slice_get};
ghost use Rattle.notes_core.specs.Machine.{note_rules};
ghost use Rattle.notes_desk.specs.Desk.{note_row};
ghost use Rattle.snapshot_hub.specs.Known.{newcomer};
ghost use Rattle.snapshot_hub.specs.Closed.{HasClosed};
ghost use Rattle.desk_serve.specs.Ports.{ServesAll, ServesPorts};

use crate::makers::NotesDesks;
use desk_serve::serve_by;
use notes_core::{NoteEntry, NotesMachine};
use notes_desk::{NotesDesk, NotesHub, NotesSession};
use osm_base::Memory;
use osm_outside::{NoGate, Port, PortOutside};
use server_frame::Outcome;
use shared_front::HubName;
use snapshot_hub::{Seats, Shown};
use std::alloc::Global;
use std::sync::Wait;
use std::thread::Threads;
use user_table::UserTable;

/// Serves the links of each port by the session of its number of the hub, and says whether accepting
/// failed at one. The sessions come back in their order. Want of memory leaves the ports as they were.
fn serve_by_sessions<N: HubName + Send + Sync, R: Threads + Wait + Sync, P: Port + Drop + Send>(
    rt: &R,
    alloc: Global,
    hub: &NotesHub<N, NoGate, &R>,
    users: &UserTable,
    sessions: Vec<NotesSession<N>>,
    ports: &mut Vec<P>,
) -> Result<(Vec<NotesSession<N>>, bool), Memory>
    requires count { vec_len sessions ≡ vec_len ports.old }
    requires fresh { (number : ℕ) → IfSome (slice_get sessions.items number) (λ s. s ≡ newcomer number) }
    ensures served { IfOk result (λ r. HasClosed note_rules (vec_len ports.old) r.0.items []
        → ServesAll note_rules note_row users.now (map P.told ports.old.items) (map P.told ports.new.items) r.1) }
    ensures left { IfOk result (λ r. vec_len r.0 ≡ vec_len sessions) }
    ensures count { IfOk result (λ r. vec_len ports.new ≡ vec_len ports.old) }
    ensures err { OnErr result (ports.new.items ≡ ports.old.items) }
{
    let maker = NotesDesks { rt, hub, users };
    serve_by::<
        N,
        NotesMachine,
        Shown<N, NotesMachine>,
        NotesDesk<'_, N, NoGate, &R, R>,
        NotesDesks<'_, N, &R, R>,
        R,
        P,
    >(rt, alloc, &maker, sessions, ports)
}

/// Serves the links of the ports by the sessions of a new hub of notes under the name of these seats,
/// one worker a port, each in a thread of its own, until no port has a link to come or accepting
/// fails. Then it closes the hub. The ports come back in their order.
pub fn notes_all<N: HubName + Send + Sync, R: Threads + Wait + Sync, P: Port + Drop + Send>(
    rt: &R,
    alloc: Global,
    seats: Seats<NoteEntry>,
    users: &UserTable,
    ports: &mut Vec<P>,
) -> Outcome
    requires named { seats.opened ≡ N.book }
    requires seated { seats.sessions ≡ N.sessions }
    requires count { seats.sessions ≡ vec_len ports.old }
    ensures serves { ServesPorts note_rules note_row users.now (map P.told ports.old.items) (map P.told ports.new.items) result }
    ensures count { vec_len ports.new ≡ vec_len ports.old }
{
    let Ok((mut hub, sessions)) = NotesHub::<N, NoGate, &R>::new(alloc, rt, seats, NoGate) else {
        return Outcome::LacksMemory;
    };
    match serve_by_sessions(rt, alloc, &hub, users, sessions, ports) {
        Ok((sessions, failed)) => {
            hub.close_with(rt, &sessions);
            if failed {
                Outcome::Failed
            } else {
                Outcome::Served
            }
        }
        Err(Memory) => Outcome::LacksMemory,
    }
}
