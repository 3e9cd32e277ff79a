//! What answers for a mirror, one message after another.
ghost use Rattle.std.specs.Prelude.{◌≡◌, [], IfOk};

use http_link::Reply;
use http_wire::Message;
use journal_follower::Follower;
use mirror_desk::{Level, MirrorSetting, answer_mirrored};
use osm_base::Memory;
use osm_model::Entry;
use route_table::Routes;
use std::alloc::Global;
use step_hub::Stepped;

/// A follower of the journal, whether it is known to be level, and the table of the routes.
#[derive(Drop)]
pub struct Mirror {
    follower: Follower,
    level: Level,
    routes: Routes,
}

impl Mirror {
    /// A mirror that has no entry yet, with a limit to how long it counts as level, in seconds, or none.
    pub fn new(alloc: Global, until_level: Option<u32>) -> Result<Mirror, Memory>
        ensures { IfOk result (λ mirror. mirror.follower ≡ []) }
    {
        Mirror::of(alloc, Follower::new(alloc), until_level)
    }

    /// A mirror that goes on from the entries of this follower.
    pub fn of(alloc: Global, follower: Follower, until_level: Option<u32>) -> Result<Mirror, Memory>
        ensures { IfOk result (λ mirror. mirror.follower ≡ follower) }
    {
        let level = Level::new(until_level);
        let routes = Routes::new(alloc)?;
        Ok(Mirror {
            follower,
            level,
            routes,
        })
    }
}

impl Stepped for Mirror {
    ghost use Rattle.std.specs.Prelude.{None, refl};
    ghost use Rattle.std.proofs.Common.{inl};
    ghost use Rattle.osm_model.specs.Journal.{IsLegal};
    ghost use Rattle.mirror_desk.specs.Answers.{MirrorAnswers};

    type Entry = Entry;

    type Setting = MirrorSetting;

    ghost list = { λ mirror. mirror.follower };

    ghost legal = { λ entries. IsLegal entries };

    ghost steps = { λ setting old message moment reply new. MirrorAnswers setting old message moment reply new };

    fn len(&self) -> usize {
        self.follower.book().journal().len()
    }

    fn entry(&self, alloc: Global, place: usize) -> Result<Entry, Memory> {
        self.follower.book().journal().entry(alloc, place)
    }

    fn part(&self, alloc: Global, from: u64, count: u64) -> Result<Vec<Entry>, Memory> {
        self.follower.book().journal().part(alloc, from, count)
    }

    fn last(&self) -> Option<&Entry> {
        self.follower.last()
    }

    fn answer(
        &mut self,
        alloc: Global,
        setting: &MirrorSetting,
        message: &Message,
        moment: u64,
    ) -> Result<Reply, Memory> {
        answer_mirrored(
            alloc,
            &self.routes,
            setting,
            &mut self.follower,
            &mut self.level,
            message,
            moment,
        )
    }

    ghost memory_leaves = { λ setting entries message moment legal. record { told = None; row = refl; text = refl; grown = inl refl; legal = λ still. still } };
}
