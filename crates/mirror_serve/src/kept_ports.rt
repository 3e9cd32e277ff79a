//! Many workers over one mirror whose entries are kept in a file.
ghost use Rattle.std.specs.Prelude.{◌≡◌, length, map, vec_len};
ghost use Rattle.journal_text.specs.Text.{text_of};
ghost use Rattle.durable_log.specs.Held.{HoldsFrom};
ghost use Rattle.mirror_serve.specs.Mirrors.{MirrorsKeptPorts};

use crate::one_mirror::Mirror;
use durable_log::Receipt;
use entry_file::EntryLines;
use journal_file::{Device, JournalFile};
use journal_follower::Follower;
use kept_steps::{KeptList, serve_kept_ports};
use link_workers::Outcome;
use mirror_desk::MirrorSetting;
use osm_model::Entry;
use osm_outside::{Port, PortOutside};
use shared_front::{HubName, Opened};
use std::alloc::Global;
use std::sync::Wait;
use std::thread::Threads;

/// A follower of the journal, and the file that its entries are kept in.
#[derive(Drop)]
pub struct Taken<V: Device> {
    pub follower: Follower,
    pub file: JournalFile<V>,
}

/// Serves the links of the ports by a mirror that goes on from the entries of this file, under the names
/// of its list and of its receipts, with a limit to how long it counts as level, in seconds, or none, one
/// worker a port, each in a thread of its own, until no port has a link to come or accepting fails. A
/// reply is sent only once the file holds what it tells of. The ports come back in their order, and the
/// file's device does.
pub fn mirror_kept_ports<
    N: HubName + Send + Sync,
    K: HubName + Send + Sync,
    V: Device + Drop + Send,
    R: Threads + Wait + Sync,
    P: Port + Drop + Send,
>(
    rt: &R,
    alloc: Global,
    taken: Taken<V>,
    opened: Opened<Entry>,
    receipts: Opened<Receipt>,
    setting: &MirrorSetting,
    until_level: Option<u32>,
    ports: &mut Vec<P>,
) -> (Outcome, V)
    requires named { opened ≡ N.book }
    requires receipts { receipts ≡ K.book }
    requires text { taken.file.text ≡ text_of taken.follower }
    requires holds { HoldsFrom text_of V.left_since taken.file.device (V.moment taken.file.device) (length taken.follower) taken.follower }
    requires fine { V.faults taken.file.device ≡ 0 }
    ensures serves { MirrorsKeptPorts V.seen V.moment V.left_since V.faults taken.follower result.1 setting.now
        (map P.told ports.old.items) (map P.told ports.new.items) result.0 }
    ensures count { vec_len ports.new ≡ vec_len ports.old }
{
    let Taken { follower, file } = taken;
    let Ok(mirror) = Mirror::of(alloc, follower, until_level) else {
        return (Outcome::LacksMemory, file.into_device());
    };
    let kept = KeptList {
        value: mirror,
        file,
    };
    serve_kept_ports::<N, K, Mirror, EntryLines, V, R, P>(
        rt, alloc, kept, opened, receipts, setting, ports,
    )
}
