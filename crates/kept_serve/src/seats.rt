//! The seats of a hub that goes on from a journal.
ghost use Rattle.std.specs.Prelude.{◌<◌, ◌≤◌, ◌↔◌, IsTrue};
ghost use Rattle.osm_base.specs.declared.limits.TheConstants.{SESSION_LIMIT};
ghost use Rattle.snapshot_hub.specs.Closings.{AreSeated};

use hub_core::CountedJournal;
use machine_law::Machine;
use osm_base::SESSION_LIMIT;
use snapshot_hub::Seats;

/// Whether a journal has entries of no more sessions than a hub has.
pub fn has_seats<M: Machine>(journal: &CountedJournal<M>) -> bool
    ensures { IsTrue result ↔ AreSeated M.rules.tag_of SESSION_LIMIT journal.now }
{
    journal.sessions() <= SESSION_LIMIT as u64
}

/// One more than the greatest session of a journal that has entries of so many alone.
fn sessions_of<M: Machine>(journal: &CountedJournal<M>) -> u64
    requires { AreSeated M.rules.tag_of SESSION_LIMIT journal.now }
    ensures few { result ≤ SESSION_LIMIT }
    ensures seated { AreSeated M.rules.tag_of result journal.now }
{
    journal.sessions()
}

/// The seats of a hub that goes on from this journal, and serves so many ports: one for
/// each session of the journal, and one for each port, at least.
pub fn seats_for<M: Machine>(journal: &CountedJournal<M>, ports: usize) -> Seats<M::Entry>
    requires some { 0 < ports }
    requires few { ports ≤ SESSION_LIMIT }
    requires seated { AreSeated M.rules.tag_of SESSION_LIMIT journal.now }
    ensures ports { ports ≤ result.sessions }
    ensures seated { AreSeated M.rules.tag_of result.sessions journal.now }
{
    let known = sessions_of(journal);
    let ports = ports as u64;
    if known < ports {
        Seats::new(ports as u32)
    } else {
        Seats::new(known as u32)
    }
}
