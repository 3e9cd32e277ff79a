//! A desk for one thread, over a follower.
//!
//! The table of routes of a mirror lies under the lock, beside the follower: one for all workers,
//! and a table of routes may go to another thread but isn't shown to be looked at by two at once.
ghost use Rattle.std.specs.Prelude.{◌≡◌, IfOk};

use crate::answers::answer_mirrored;
use crate::level::Level;
use crate::setting::MirrorSetting;
use http_link::{AlwaysTells, Desk, Reply, Withheld};
use http_wire::Message;
use journal_follower::Follower;
use osm_base::Memory;
use osm_outside::Witness;
use route_table::Routes;
use std::alloc::Global;
use std::marker::Model;

/// Answers messages over a follower that nobody else works on. Contracts see it as its setting and the
/// follower's entries.
#[derive(Drop)]
pub struct MirrorDesk<'a> {
    follower: &'a mut Follower,
    level: Level,
    routes: Routes,
    setting: &'a MirrorSetting,
}

impl<'a> Model for MirrorDesk<'a> {
    ghost use Rattle.mirror_desk.specs.Desk.{AtMirror};

    ghost Value = { AtMirror };

    ghost view = { λ d. record { setting = d.setting.now; entries = d.follower.now } };
}

impl<'a> MirrorDesk<'a> {
    /// A desk over that follower, with a table of the routes.
    pub fn new(
        alloc: Global,
        follower: &'a mut Follower,
        level: Level,
        setting: &'a MirrorSetting,
    ) -> Result<MirrorDesk<'a>, Memory>
        ensures { IfOk result (λ desk. desk ≡ record { setting = setting.now; entries = follower.old }) }
    {
        let routes = Routes::new(alloc)?;
        Ok(MirrorDesk {
            follower,
            level,
            routes,
            setting,
        })
    }
}

impl<'a> Desk for MirrorDesk<'a> {
    ghost use Rattle.std.specs.Prelude.{⊤, []};
    ghost use Rattle.mirror_desk.specs.Desk.{Allows};

    ghost allows = { λ old message moment reply new. Allows old message moment reply new };

    ghost tells = { λ _. ⊤ };

    ghost shows = { λ _. [] };

    ghost withholds = { λ _ _. ⊥ };

    fn answer(&mut self, alloc: Global, message: Message, moment: u64) -> Result<Reply, Memory> {
        answer_mirrored(
            alloc,
            &self.routes,
            self.setting,
            self.follower,
            &mut self.level,
            &message,
            moment,
        )
    }

    fn may_tell<L: Witness>(&mut self, _link: &mut L) -> Result<(), Withheld> {
        Ok(())
    }
}

impl<'a> AlwaysTells for MirrorDesk<'a> {
    ghost never = { λ _ _ h. h };
}
