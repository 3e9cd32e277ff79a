//! Serving one link by one session of a hub of the map.
ghost use Rattle.map_machine.specs.Machine.{map_rules};
ghost use Rattle.api_desk.specs.HubDesk.{map_row};
ghost use Rattle.desk_serve.specs.Link.{TellsLink};

use api_desk::HubDesk;
use http_link::LinkEnd;
use map_machine::MapMachine;
use osm_outside::{Gate, Link, Outside};
use shared_front::HubName;
use snapshot_hub::Shown;
use std::alloc::Global;
use std::sync::Wait;

/// Answers the requests of the link by the desk's session, until the link ends. Before the first one
/// the session sees the journal that is found under the lock; want of memory there leaves the link
/// alone.
pub fn serve_link<N: HubName, G: Gate + Drop, R: Wait + Drop, W: Wait, L: Link>(
    alloc: Global,
    desk: &mut HubDesk<'_, N, G, R, W>,
    link: &mut L,
) -> LinkEnd
    ensures { TellsLink map_rules map_row desk.old desk.new (L.told link.old) (L.told link.new) result }
{
    desk_serve::serve_link::<N, MapMachine, Shown<N, MapMachine>, HubDesk<'_, N, G, R, W>, L>(
        alloc, desk, link,
    )
}
