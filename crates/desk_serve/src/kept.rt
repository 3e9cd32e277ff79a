//! Serving one link by one session of a hub, whose replies are sent only once what they tell of is
//! kept.
ghost use Rattle.desk_serve.specs.Kept.{KeepsLink};

use crate::laws::points_are_consistent;
use http_link::LinkEnd;
use kept_desk::{KeptSession, kept_is_served, told_chain};
use machine_law::Machine;
use osm_outside::{Link, Outside};
use server_frame::{answer_link, link_left_alone};
use shared_front::HubName;
use snapshot_hub::Snapshot;
use std::alloc::Global;

/// Serves a link as `serve_link` does, by a desk that keeps before it tells: before anything of a reply
/// is sent, the link is shown a receipt for what it tells of. Where one can't be kept, it isn't sent,
/// and the link ends.
pub fn serve_kept_link<N: HubName, M: Machine, S: Snapshot<N, M>, Q: KeptSession<N, M, S>, L: Link>(
    alloc: Global,
    desk: &mut Q,
    link: &mut L,
) -> LinkEnd
    ensures { KeepsLink M.rules Q.answers (Q.kept desk.old) (Q.kept desk.new) (L.told link.old) (L.told link.new) result }
{
    // What replies come to that are sent so, what the machine keeps, and what a link that is left alone is.
    told_chain::<N, M, S, Q>();
    kept_is_served::<N, M, S, Q>();
    points_are_consistent::<M>();
    link_left_alone();
    match desk.freshen_session() {
        Ok(found) => {
            link.learn(found);
            let end = answer_link(alloc, desk, link);
            desk.law();
            end
        }
        Err(_) => {
            desk.law();
            LinkEnd::Memory
        }
    }
}
