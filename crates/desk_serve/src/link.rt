//! Serving one link by one session of a hub.
//!
//! What a link's clause says of replies, it says from each point of the front that the session
//! began with, and not from its end alone. So the links of a worker join: the points never go back
//! from one connection to the next.
ghost use Rattle.desk_serve.specs.Link.{TellsLink};

use crate::laws::points_are_consistent;
use http_link::{AlwaysTells, LinkEnd, always_tells};
use machine_law::Machine;
use osm_outside::{Link, Outside};
use server_frame::{answer_link, link_left_alone};
use session_desk::{SessionDesk, exchanges_chain};
use shared_front::HubName;
use snapshot_hub::Snapshot;
use std::alloc::Global;

/// Answers the requests of the link by the desk's session, until the link ends, and withholds no reply.
/// Before the first one the session sees the journal that is found under the lock, and the link is told
/// of it; want of memory there leaves the link alone.
pub fn serve_link<
    N: HubName,
    M: Machine,
    S: Snapshot<N, M>,
    D: SessionDesk<N, M, S> + AlwaysTells,
    L: Link,
>(alloc: Global, desk: &mut D, link: &mut L) -> LinkEnd
    ensures { TellsLink M.rules D.answers (D.keeps desk.old) (D.keeps desk.new) (L.told link.old) (L.told link.new) result }
{
    // What the desk's relation over a whole link comes to, what the machine keeps, and what a link that is left alone is.
    exchanges_chain::<N, M, S, D>();
    always_tells::<D>();
    points_are_consistent::<M>();
    link_left_alone();
    match desk.freshen() {
        Ok(found) => {
            link.learn(found);
            let end = answer_link(alloc, desk, link);
            desk.law();
            end
        }
        Err(_) => {
            desk.law();
            LinkEnd::Memory
        }
    }
}
