//! A desk of one worker that keeps before it tells.
ghost use Rattle.std.specs.Prelude.{◌≡◌, ◌≤◌, ◌∷◌, [], true, OnOk, OnErr, IsErrOf};
ghost use Rattle.http_link.specs.declared.desk.Withheld.{Withheld};
ghost use Rattle.http_link.specs.Desk.{showing};
ghost use mathlib.Core.List.{IsPrefix};
ghost use Rattle.durable_log.specs.Receipts.{last_count};
ghost use Rattle.kept_steps.specs.Kept.{kept_front};

use crate::source::Source;
use durable_log::{Lines, Receipt};
use http_link::{Desk, Reply, Withheld};
use http_wire::Message;
use journal_file::Device;
use kept_desk::{Keeper, keep_from};
use osm_base::Memory;
use osm_outside::{Outside, Witness};
use shared_front::{Front, HubName};
use std::alloc::Global;
use std::marker::Model;
use std::sync::Wait;
use step_hub::{FrontDesk, StepDesk, Stepped};

/// A desk over a list, whose replies are sent only once the file holds what they tell of.
#[derive(Drop)]
pub struct KeptStepDesk<
    'a,
    N: HubName,
    K: HubName,
    S: Stepped + Drop,
    T: Lines<S::Entry>,
    V: Device,
    R: Wait,
> {
    alloc: Global,
    desk: StepDesk<'a, N, S, R>,
    keeper: Keeper<'a, N, K, S::Entry, T, V, R>,
}

impl<'a, N: HubName, K: HubName, S: Stepped + Drop, T: Lines<S::Entry>, V: Device, R: Wait> Model
    for KeptStepDesk<'a, N, K, S, T, V, R> {
    ghost use Rattle.kept_steps.specs.Kept.{AtKeptFront, kept_front};

    ghost Value = { AtKeptFront S.Setting S.Entry };

    ghost view = { λ d. kept_front d.desk d.keeper };
}

impl<
    'a,
    N: HubName,
    K: HubName,
    S: Stepped + Drop,
    T: Lines<S::Entry>,
    V: Device,
    R: Wait,
> KeptStepDesk<'a, N, K, S, T, V, R> {
    /// That desk, with a keeper.
    pub fn new(
        alloc: Global,
        desk: StepDesk<'a, N, S, R>,
        keeper: Keeper<'a, N, K, S::Entry, T, V, R>,
    ) -> KeptStepDesk<'a, N, K, S, T, V, R>
        ensures { result ≡ kept_front desk.entry keeper.entry }
    {
        KeptStepDesk {
            alloc,
            desk,
            keeper,
        }
    }

    /// The receipts in hand.
    pub fn receipts(&self) -> Front<K, Receipt>
        ensures { result ≡ self.now.keeper.receipts }
    {
        self.keeper.receipts()
    }

    /// Whether it withheld a reply because keeping failed.
    pub fn has_failed(&self) -> bool
        ensures { result ≡ self.now.keeper.failed }
    {
        self.keeper.has_failed()
    }
}

impl<
    'a,
    N: HubName,
    K: HubName,
    S: Stepped + Drop,
    T: Lines<S::Entry>,
    V: Device,
    R: Wait,
> FrontDesk<N, S> for KeptStepDesk<'a, N, K, S, T, V, R> {
    ghost at = { λ it. it.desk };

    fn front(&self) -> &Front<N, S::Entry> {
        self.desk.front()
    }

    fn grown(&self) -> u64 {
        self.desk.grown()
    }
}

/// Has the file hold what the desk's last reply may tell of, by the entries of its list, and shows the
/// link the receipts that are in hand then.
fn keep_list<
    N: HubName,
    K: HubName,
    S: Stepped + Drop,
    T: Lines<S::Entry>,
    V: Device,
    R: Wait,
    L: Witness,
>(
    alloc: Global,
    keeper: &mut Keeper<'_, N, K, S::Entry, T, V, R>,
    desk: &StepDesk<'_, N, S, R>,
    link: &mut L,
) -> Result<(), Withheld>
    ensures stays { keeper.new.tells_of ≡ keeper.old.tells_of }
    ensures receipts { IsPrefix keeper.old.receipts keeper.new.receipts }
    ensures tells { OnOk result (keeper.new.tells_of ≤ last_count keeper.new.receipts) }
    ensures shown { OnOk result (L.told link.new ≡ showing (keeper.new.receipts ∷ []) (L.told link.old)) }
    ensures unshown { OnErr result (L.told link.new ≡ L.told link.old) }
    ensures noted { IsErrOf result Withheld.Failed → keeper.new.failed ≡ true }
    ensures failed { keeper.old.failed ≡ true → keeper.new.failed ≡ true }
{
    let mut source = Source { alloc, desk };
    keep_from(keeper, &mut source, link)
}

impl<'a, N: HubName, K: HubName, S: Stepped + Drop, T: Lines<S::Entry>, V: Device, R: Wait> Desk
    for KeptStepDesk<'a, N, K, S, T, V, R> {
    ghost use Rattle.kept_steps.specs.Kept.{AllowsKept, Tells, shows_kept, Withholds};

    ghost allows = { λ old message moment reply new. AllowsKept S.steps old message moment reply new };

    ghost tells = { λ desk. Tells desk };

    ghost shows = { λ desk. shows_kept desk };

    ghost withholds = { λ desk why. Withholds desk why };

    fn answer(&mut self, alloc: Global, message: Message, moment: u64) -> Result<Reply, Memory> {
        let reply = self.desk.answer(alloc, message, moment);
        let seen = self.desk.front().len();
        self.keeper.note(seen);
        reply
    }

    fn may_tell<L: Witness>(&mut self, link: &mut L) -> Result<(), Withheld> {
        keep_list(self.alloc, &mut self.keeper, &self.desk, link)
    }
}
