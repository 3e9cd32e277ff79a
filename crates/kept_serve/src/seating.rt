//! A hub that goes on from a journal, as the serving of ports begins.
ghost use Rattle.std.specs.Prelude.{◌≡◌, ◌<◌, ◌≤◌, IfOk, Some};
ghost use Rattle.snapshot_hub.specs.Closings.{AreSeated};
ghost use Rattle.snapshot_hub.specs.Ends.{Ends};
ghost use Rattle.kept_serve.specs.Seated.{IsSeated};

use machine_law::Machine;
use osm_base::Memory;
use osm_outside::NoGate;
use shared_front::{Front, HubName};
use snapshot_hub::{Hub, Seats, Session, Snapshot, Twins};
use std::alloc::Global;
use std::sync::Wait;

/// A hub that goes on from a journal, a session of it for each port, the other ones, and what they all
/// began with.
#[derive(Drop)]
pub struct Seating<H: Drop, Y: Drop, F: Drop> {
    pub hub: H,
    pub sessions: Vec<Y>,
    pub spare: Vec<Y>,
    pub front: F,
}

/// What a hub and its sessions have begun with.
pub type HubSeating<N, M, S, R> = Seating<
    Hub<N, M, S, NoGate, R>,
    Session<N, M, S>,
    Front<N, <M as Machine>::Entry>,
>;

/// A hub that goes on from the journal of these twins, with a session for each of so many ports.
pub fn begin_hub<N: HubName, M: Machine, S: Snapshot<N, M>, R: Wait + Drop>(
    rt: R,
    alloc: Global,
    seats: Seats<M::Entry>,
    twins: Twins<M>,
    ports: usize,
) -> Result<HubSeating<N, M, S, R>, Memory>
    requires named { seats.opened ≡ N.book }
    requires seated { seats.sessions ≡ N.sessions }
    requires some { 0 < ports }
    requires count { ports ≤ seats.sessions }
    requires own { AreSeated M.rules.tag_of N.sessions twins }
    ensures open { IfOk result (λ r. (ends : Ends) × (r.hub ≡ Some ends)) }
    ensures front { IfOk result (λ r. r.front ≡ twins) }
    ensures seats { IfOk result (λ r. IsSeated M.rules.tag_of N.sessions twins ports r.sessions.items r.spare.items) }
{
    let (hub, mut sessions) = Hub::<N, M, S, NoGate, R>::begin(alloc, rt, seats, NoGate, twins)?;
    let front = sessions[0].front().again();
    let spare = sessions.split_off(ports)?;
    Ok(Seating {
        hub,
        sessions,
        spare,
        front,
    })
}
