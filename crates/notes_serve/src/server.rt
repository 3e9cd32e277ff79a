//! The server of notes as what a program runs: new hubs of notes serve its standard link and the
//! links of its ports.
ghost use Rattle.std.specs.Prelude.{◌≡◌, ◌<◌, ◌≤◌, map, vec_len};
ghost use Rattle.osm_base.specs.declared.limits.TheConstants.{SESSION_LIMIT};
ghost use Rattle.notes_core.specs.Machine.{note_rules};
ghost use Rattle.notes_desk.specs.Desk.{note_row};
ghost use Rattle.desk_serve.specs.Ports.{ServesPorts};
ghost use Rattle.notes_serve.specs.Run.{RunsServeNotes};

use crate::pipe::serve_notes;
use crate::workers::notes_all;
use http_link::LinkEnd;
use osm_outside::{Host, Link, Outside, Port, PortOutside};
use server_frame::{Exit, LinkServer, Listening, Outcome, close_ports, open_ports};
use snapshot_hub::Seats;
use std::alloc::Global;
use std::marker::Brand;
use std::sync::Wait;
use std::thread::Threads;
use user_table::UserTable;

/// What serves the standard link by notes.
pub struct NotesServer;

impl LinkServer for NotesServer {
    ghost use Rattle.notes_core.specs.Machine.{note_rules};
    ghost use Rattle.notes_desk.specs.Desk.{note_row};
    ghost use Rattle.desk_serve.specs.Link.{ServesPipe};

    ghost serves = { ServesPipe note_rules note_row };

    fn serve<R: Wait, L: Link>(rt: &R, alloc: Global, users: &UserTable, link: &mut L) -> LinkEnd {
        serve_notes::<Brand, R, L>(alloc, rt, Seats::new(1), users, link)
    }
}

/// Serves the links of each port by a session of a new hub of notes.
fn serve_handed<R: Threads + Wait + Sync, P: Port + Drop + Send>(
    rt: &R,
    alloc: Global,
    users: &UserTable,
    ports: &mut Vec<P>,
) -> Outcome
    requires some { 0 < vec_len ports.old }
    requires few { vec_len ports.old ≤ SESSION_LIMIT }
    ensures serves { ServesPorts note_rules note_row users.now (map P.told ports.old.items) (map P.told ports.new.items) result }
    ensures count { vec_len ports.new ≡ vec_len ports.old }
{
    let seats = Seats::new(ports.len() as u32);
    notes_all::<Brand, R, P>(rt, alloc, seats, users, ports)
}

/// Reads the users of the text at that path, and serves the links of ports at that address by notes.
pub fn run_serve_notes<H: Host, R: Threads + Wait + Sync, L: Link>(
    rt: &R,
    alloc: Global,
    users: &str,
    listening: Listening<'_>,
    host: &mut H,
    standard: &L,
) -> Exit
    requires some { 0 < listening.workers }
    requires few { listening.workers ≤ SESSION_LIMIT }
    ensures { RunsServeNotes users.now listening.entry.address.now listening.entry.workers (H.told host.old) (H.told host.new)
        (L.told standard.now) (L.told standard.now) result }
{
    match open_ports(alloc, users, listening, host) {
        Ok((users, mut ports)) => {
            let outcome = serve_handed(rt, alloc, &users, &mut ports);
            close_ports(host, ports, outcome)
        }
        Err(exit) => exit,
    }
}
