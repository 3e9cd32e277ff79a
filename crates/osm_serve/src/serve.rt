//! The map server as what a program runs: new hubs serve its standard link and the links of its
//! ports.
ghost use Rattle.std.specs.Prelude.{◌≡◌, ◌<◌, ◌≤◌, map, vec_len};
ghost use Rattle.osm_base.specs.declared.limits.TheConstants.{SESSION_LIMIT};
ghost use Rattle.map_machine.specs.Machine.{map_rules};
ghost use Rattle.api_desk.specs.HubDesk.{map_row};
ghost use Rattle.desk_serve.specs.Ports.{ServesPorts};
ghost use Rattle.osm_serve.specs.Run.{RunsServe};

use crate::pipe::serve_pipe;
use crate::workers::serve_ports;
use http_link::LinkEnd;
use osm_outside::{Host, Link, Outside, Port, PortOutside};
use server_frame::{Exit, LinkServer, Listening, Outcome, close_ports, open_ports};
use snapshot_hub::Seats;
use std::alloc::Global;
use std::marker::Brand;
use std::sync::Wait;
use std::thread::Threads;
use user_table::UserTable;

/// What serves the standard link.
pub struct MapServer;

impl LinkServer for MapServer {
    ghost use Rattle.map_machine.specs.Machine.{map_rules};
    ghost use Rattle.api_desk.specs.HubDesk.{map_row};
    ghost use Rattle.desk_serve.specs.Link.{ServesPipe};

    ghost serves = { ServesPipe map_rules map_row };

    fn serve<R: Wait, L: Link>(rt: &R, alloc: Global, users: &UserTable, link: &mut L) -> LinkEnd {
        serve_pipe::<Brand, R, L>(alloc, rt, Seats::new(1), users, link)
    }
}

/// Serves the links of each port by a session of a new hub.
fn serve_handed<R: Threads + Wait + Sync, P: Port + Drop + Send>(
    rt: &R,
    alloc: Global,
    users: &UserTable,
    ports: &mut Vec<P>,
) -> Outcome
    requires some { 0 < vec_len ports.old }
    requires few { vec_len ports.old ≤ SESSION_LIMIT }
    ensures serves { ServesPorts map_rules map_row users.now (map P.told ports.old.items) (map P.told ports.new.items) result }
    ensures count { vec_len ports.new ≡ vec_len ports.old }
{
    let seats = Seats::new(ports.len() as u32);
    serve_ports::<Brand, R, P>(rt, alloc, seats, users, ports)
}

/// Reads the users of the text at that path, and serves the links of ports at that address.
pub fn run_serve<H: Host, R: Threads + Wait + Sync, L: Link>(
    rt: &R,
    alloc: Global,
    users: &str,
    listening: Listening<'_>,
    host: &mut H,
    standard: &L,
) -> Exit
    requires some { 0 < listening.workers }
    requires few { listening.workers ≤ SESSION_LIMIT }
    ensures { RunsServe users.now listening.entry.address.now listening.entry.workers (H.told host.old) (H.told host.new)
        (L.told standard.now) (L.told standard.now) result }
{
    match open_ports(alloc, users, listening, host) {
        Ok((users, mut ports)) => {
            let outcome = serve_handed(rt, alloc, &users, &mut ports);
            close_ports(host, ports, outcome)
        }
        Err(exit) => exit,
    }
}
