//! Listening at an address, with a worker for each port.
ghost use Rattle.std.specs.Prelude.{◌≡◌, ◌<◌, ◌≤◌, ◌⊎◌, map, vec_len, IfOk, MatchResult};
ghost use Rattle.osm_outside.specs.Told.{Told};
ghost use Rattle.osm_outside.specs.Host.{OnlyPorts};
ghost use Rattle.osm_outside.specs.Lent.{hand_out};
ghost use Rattle.link_workers.specs.Back.{take_all};
ghost use Rattle.server_frame.specs.Listening.{LacksPorts, LacksRoomToListen, OpensNone, OpensPorts, exit_of_outcome};

use crate::exit::Exit;
use crate::users::accept_users;
use link_workers::{Outcome, give_back};
use osm_outside::{Host, HostFault, PortOutside};
use std::alloc::Global;
use user_table::UserTable;

/// Where to listen, and by how many workers.
#[derive(Clone, Copy)]
pub struct Listening<'a> {
    pub address: &'a str,
    pub workers: u32,
}

/// How a program ends by an outcome.
fn exit_of(outcome: Outcome) -> Exit
    ensures { result ≡ exit_of_outcome outcome }
{
    match outcome {
        Outcome::Served => Exit::Done,
        Outcome::Failed => Exit::NoLinks,
        Outcome::LacksMemory => Exit::NoMemory,
        Outcome::Unkept => Exit::NotKept,
    }
}

/// Has the host listen for so many workers. Where there are no ports the error is how the program ends.
pub fn listen<H: Host>(
    alloc: Global,
    listening: Listening<'_>,
    host: &mut H,
) -> Result<Vec<H::Port>, Exit>
    ensures listens { OnlyPorts listening.entry.address.now (H.told host.old) (H.told host.new) }
    ensures ports { MatchResult result
        (λ ports. (H.told host.new).lent ≡ hand_out (H.told host.old).lent (map H.Port.told ports.items))
        (λ exit. LacksPorts (H.told host.old) (H.told host.new) exit ⊎ LacksRoomToListen (H.told host.old) (H.told host.new) exit) }
    ensures count { IfOk result (λ ports. vec_len ports ≡ listening.entry.workers) }
    ensures out { IfOk result (λ ports. vec_len ports ≤ (H.told host.new).lent.out) }
{
    match host.listen(alloc, listening.address, listening.workers) {
        Ok(ports) => Ok(ports),
        Err(HostFault::Failed) => Err(Exit::NoLinks),
        Err(HostFault::Memory) => Err(Exit::NoMemory),
    }
}

/// Reads the users of the text at that path, and then has the host listen for so many workers. Where
/// there are no ports the error is how the program ends.
pub fn open_ports<H: Host>(
    alloc: Global,
    users: &str,
    listening: Listening<'_>,
    host: &mut H,
) -> Result<(UserTable, Vec<H::Port>), Exit>
    ensures opens { MatchResult result
        (λ r. OpensPorts users.now listening.entry.address.now listening.entry.workers (H.told host.old) (H.told host.new) r.0 (map H.Port.told r.1.items))
        (λ exit. (link : Told) → OpensNone users.now listening.entry.address.now (H.told host.old) (H.told host.new) link link exit) }
    ensures count { IfOk result (λ r. vec_len r.1 ≡ listening.entry.workers) }
    ensures out { IfOk result (λ r. vec_len r.1 ≤ (H.told host.new).lent.out) }
{
    let users = match accept_users(alloc, users, host) {
        Ok(users) => users,
        Err(exit) => return Err(exit),
    };
    match listen(alloc, listening, host) {
        Ok(ports) => Ok((users, ports)),
        Err(exit) => Err(exit),
    }
}

/// Gives the ports back to the host, in their order, and answers how the program ends by how serving
/// them did.
pub fn close_ports<H: Host>(host: &mut H, ports: Vec<H::Port>, outcome: Outcome) -> Exit
    requires { vec_len ports ≤ (H.told host.old).lent.out }
    ensures back { H.told host.new ≡ record (H.told host.old) { lent = take_all (H.told host.old).lent (map H.Port.told ports.items) } }
    ensures exit { result ≡ exit_of_outcome outcome }
{
    give_back(host, ports);
    exit_of(outcome)
}
