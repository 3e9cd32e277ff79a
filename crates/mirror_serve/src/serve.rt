//! A mirror as what a program runs.
ghost use Rattle.std.specs.Prelude.{◌≡◌, map, vec_len};
ghost use Rattle.mirror_desk.specs.Setting.{setting_of};
ghost use Rattle.mirror_serve.specs.Run.{RunsListen};
ghost use Rattle.mirror_serve.specs.Mirrors.{MirrorsPorts};

use crate::ports::mirror_ports;
use link_workers::Outcome;
use mirror_desk::MirrorSetting;
use osm_outside::{Host, Link, Outside, Port, PortOutside};
use server_frame::{Exit, Listening, close_ports, open_ports};
use shared_front::Opened;
use std::alloc::Global;
use std::marker::Brand;
use std::sync::Wait;
use std::thread::Threads;
use user_table::UserTable;

/// Serves the links of each port by a new mirror.
fn serve_handed<R: Threads + Wait + Sync, P: Port + Drop + Send>(
    rt: &R,
    alloc: Global,
    users: UserTable,
    until_level: Option<u32>,
    ports: &mut Vec<P>,
) -> Outcome
    ensures serves { MirrorsPorts (setting_of until_level users) (map P.told ports.old.items) (map P.told ports.new.items) result }
    ensures count { vec_len ports.new ≡ vec_len ports.old }
{
    let setting = MirrorSetting::of(users, until_level);
    mirror_ports::<Brand, R, P>(rt, alloc, Opened::new(), &setting, until_level, ports)
}

/// Reads the users of the text at that path, and serves the links of ports at that address, with a limit
/// to how long the mirror counts as level, in seconds, or none.
pub fn run_listen<H: Host, R: Threads + Wait + Sync, L: Link>(
    rt: &R,
    alloc: Global,
    users: &str,
    listening: Listening<'_>,
    until_level: Option<u32>,
    host: &mut H,
    standard: &L,
) -> Exit
    ensures { RunsListen until_level users.now listening.entry.address.now listening.entry.workers (H.told host.old) (H.told host.new)
        (L.told standard.now) (L.told standard.now) result }
{
    match open_ports(alloc, users, listening, host) {
        Ok((users, mut ports)) => {
            let outcome = serve_handed(rt, alloc, users, until_level, &mut ports);
            close_ports(host, ports, outcome)
        }
        Err(exit) => exit,
    }
}
