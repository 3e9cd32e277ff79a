//! Serving one link by a new mirror.
ghost use Rattle.mirror_serve.specs.Serve.{ServesMirror};

use http_link::{LinkEnd, always_tells};
use journal_follower::Follower;
use mirror_desk::{Level, MirrorDesk, MirrorSetting, mirror_serves};
use osm_base::PIECE_LIMIT;
use osm_outside::{Link, Outside};
use server_frame::{answer_link_within, link_left_alone_within};
use std::alloc::Global;

/// Answers the requests of the link by a follower that has no entries at first, with a limit to how long
/// it counts as level, in seconds, or none, until the link ends, and withholds no reply. Want of memory
/// for its desk leaves the link alone.
pub fn serve_mirror<L: Link>(
    alloc: Global,
    setting: &MirrorSetting,
    until_level: Option<u32>,
    link: &mut L,
) -> LinkEnd
    ensures { ServesMirror setting.now (L.told link.old) (L.told link.new) result }
{
    // What the desk's relation over a whole link comes to, that it always tells, and what a link that is left alone is.
    mirror_serves();
    always_tells::<MirrorDesk<'_>>();
    link_left_alone_within();
    let mut follower = Follower::new(alloc);
    let Ok(mut desk) = MirrorDesk::new(alloc, &mut follower, Level::new(until_level), setting)
    else {
        return LinkEnd::Memory;
    };
    answer_link_within(alloc, &mut desk, link, PIECE_LIMIT)
}
