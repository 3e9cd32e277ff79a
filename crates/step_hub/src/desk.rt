//! A desk of one worker.
ghost use Rattle.std.specs.Prelude.{◌≡◌, ◌++◌, IfOk, IfSome};
ghost use Rattle.step_hub.specs.Steps.{at_front};

use crate::fronts::FrontDesk;
use crate::hub::StepHub;
use crate::stepped::Stepped;
use http_link::{AlwaysTells, Desk, Reply, Withheld};
use http_wire::Message;
use osm_base::Memory;
use osm_outside::Witness;
use shared_front::{Front, HubName};
use std::alloc::Global;
use std::marker::Model;
use std::sync::Wait;

/// Answers the messages of one worker's links, each in one step under the hub's lock. Contracts see it as the setting, what it has
/// seen of the list, and how many entries its answers added to the list.
#[derive(Drop)]
pub struct StepDesk<'a, N: HubName, S: Stepped + Drop, R: Wait> {
    rt: &'a R,
    hub: &'a StepHub<N, S>,
    setting: &'a S::Setting,
    front: Front<N, S::Entry>,
    grown: u64,
}

impl<'a, N: HubName, S: Stepped + Drop, R: Wait> Model for StepDesk<'a, N, S, R> {
    ghost use Rattle.step_hub.specs.Steps.{AtFront, at_front};

    ghost Value = { AtFront S.Setting S.Entry };

    ghost view = { λ d. at_front d.setting.now d.front d.grown };

    ghost invariant = { λ d. S.legal d.front };
}

impl<'a, N: HubName, S: Stepped + Drop, R: Wait> StepDesk<'a, N, S, R> {
    /// A desk that has seen this of the hub's list, and has answered nothing. It takes no memory.
    pub fn new(
        rt: &'a R,
        hub: &'a StepHub<N, S>,
        setting: &'a S::Setting,
        front: Front<N, S::Entry>,
    ) -> StepDesk<'a, N, S, R>
        requires { S.legal front }
        ensures { result ≡ at_front setting.now front 0 }
    {
        StepDesk {
            rt,
            hub,
            setting,
            front,
            grown: 0,
        }
    }

    /// The entries that are found under the lock behind this beginning of the list, and the longer one that they make of it.
    /// `None` where the hub has no list that begins so, which no run has shown.
    pub fn behind(
        &self,
        alloc: Global,
        front: &Front<N, S::Entry>,
    ) -> Result<Option<(Vec<S::Entry>, Front<N, S::Entry>)>, Memory>
        ensures { IfOk result (λ copied. IfSome copied (λ part. part.1 ≡ front.now ++ part.0.items)) }
    {
        self.hub.behind(self.rt, alloc, front)
    }
}

impl<'a, N: HubName, S: Stepped + Drop, R: Wait> FrontDesk<N, S> for StepDesk<'a, N, S, R> {
    ghost at = { λ desk. desk };

    fn front(&self) -> &Front<N, S::Entry> {
        &self.front
    }

    fn grown(&self) -> u64 {
        self.grown
    }
}

impl<'a, N: HubName, S: Stepped + Drop, R: Wait> Desk for StepDesk<'a, N, S, R> {
    ghost use Rattle.std.specs.Prelude.{⊤, []};
    ghost use Rattle.step_hub.specs.Steps.{Allows};

    ghost allows = { λ old message moment reply new. Allows S.steps old message moment reply new };

    ghost tells = { λ _. ⊤ };

    ghost shows = { λ _. [] };

    ghost withholds = { λ _ _. ⊥ };

    fn answer(&mut self, alloc: Global, message: Message, moment: u64) -> Result<Reply, Memory> {
        let mut held = self.hub.held.lock(self.rt);
        held.answer(
            alloc,
            self.setting,
            &mut self.front,
            &mut self.grown,
            &message,
            moment,
        )
    }

    fn may_tell<L: Witness>(&mut self, _link: &mut L) -> Result<(), Withheld> {
        Ok(())
    }
}

impl<'a, N: HubName, S: Stepped + Drop, R: Wait> AlwaysTells for StepDesk<'a, N, S, R> {
    ghost never = { λ _ _ h. h };
}
