//! Many workers over one mirror.
ghost use Rattle.std.specs.Prelude.{◌≡◌, map, vec_len};
ghost use Rattle.mirror_serve.specs.Mirrors.{MirrorsPorts};

use crate::one_mirror::Mirror;
use link_workers::Outcome;
use mirror_desk::MirrorSetting;
use osm_model::Entry;
use osm_outside::{Port, PortOutside};
use shared_front::{HubName, Opened};
use std::alloc::Global;
use std::sync::Wait;
use std::thread::Threads;
use step_hub::serve_ports;

/// Serves the links of the ports by a new mirror under that name, with a limit to how long it counts as level, in seconds, or none,
/// one worker a port, each in a thread of its own, until no port has a link to come or accepting fails. The ports come back in their
/// order.
pub fn mirror_ports<N: HubName + Send + Sync, R: Threads + Wait + Sync, P: Port + Drop + Send>(
    rt: &R,
    alloc: Global,
    opened: Opened<Entry>,
    setting: &MirrorSetting,
    until_level: Option<u32>,
    ports: &mut Vec<P>,
) -> Outcome
    requires named { opened ≡ N.book }
    ensures serves { MirrorsPorts setting.now (map P.told ports.old.items) (map P.told ports.new.items) result }
    ensures count { vec_len ports.new ≡ vec_len ports.old }
{
    let Ok(mirror) = Mirror::new(alloc, until_level) else {
        return Outcome::LacksMemory;
    };
    serve_ports::<N, Mirror, R, P>(rt, alloc, mirror, opened, setting, ports)
}
