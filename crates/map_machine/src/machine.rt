//! The map as a machine: a world that changes by entries.
//!
//! The machine's world keeps the allocator beside the map, since a machine applies entries without
//! one.
ghost use Rattle.std.specs.Prelude.{◌≡◌, None, Some, IfOk};
ghost use Rattle.osm_base.specs.Stamp.{stamp_after};
ghost use Rattle.osm_change.specs.Moments.{HasShownMoments, RefusalHasShownEnd};
ghost use Rattle.osm_change.specs.declared.answers.Answer.TheVariants as answers;
ghost use Rattle.osm_model.specs.Act.{judge};
ghost use Rattle.osm_world.specs.World.{state_of};
ghost use Rattle.osm_later.specs.Plan.{StandsOn};
ghost use Rattle.osm_model.specs.Journal.{Later};
ghost use Rattle.osm_model.specs.declared.states.State.{State};
ghost use Rattle.upload_check.specs.Commands.{IsUploadPlan, IsForeseen, IsOther, command_of};
ghost use Rattle.upload_check.specs.Planned.{plan_of};
ghost use Rattle.map_machine.specs.Machine.{act_as, bytes_of, IsPlannedAs, IsForeseenAs, StandsAs};
ghost use Rattle.map_machine.specs.Found.{told};
ghost use Rattle.map_machine.specs.declared.plans.Asked.{Asked};

use crate::acceptance::takes;
use crate::answers::bytes_of;
use crate::found::{Found, found_of, tell};
use crate::judging::judge_on;
use crate::planning::{accepted_answer, command_still, plan_command, upload_entry};
use crate::plans::{Asked, MapPlan};
use crate::world_asks::world_ask;
use machine_law::{Machine, Settled, Tag};
use osm_base::{Bytes, Memory, Stamp, Steps, TryCopy};
use osm_change::{Answer, Refusal};
use osm_later::maps_follow_themselves;
use osm_model::{Entry, Fault, Query, State};
use osm_world::World;
use packed_entry::PackedEntry;
use std::alloc::Global;
use std::sync::ledger::Ledger;
use upload_check::{Look, Outcome, Plan, SettledUpload, UploadCmd, plan_again, settle};

/// The map with its indexes, and the allocator, since entries are applied without one.
#[derive(Drop)]
pub struct MapWorld {
    alloc: Global,
    world: World,
}

impl MapWorld {
    ghost use Rattle.map_machine.specs.Machine.{world_of};

    /// The map with its indexes.
    pub fn world(&self) -> &World
        ensures { result.now ≡ world_of self.now }
    {
        &self.world
    }
}

/// The map: uploads are judged when they are planned, and settled by their plans where these stand;
/// other commands are planned as they are, and judged when they are settled.
pub struct MapMachine;

impl Machine for MapMachine {
    ghost use Rattle.osm_world.specs.World.{state_of, HasRoom};
    ghost use Rattle.map_machine.specs.Machine.{map_rules};
    ghost use Rattle.map_machine.specs.Laws.{accepted_taken, empty_kept, taken_kept};

    type World = MapWorld;

    type Command = Asked;

    type Query = Query;

    type Found = Found;

    type Plan = MapPlan;

    type Entry = Entry;

    type Kept = PackedEntry;

    type Look = Look;

    type State = State;

    ghost state = { λ w. state_of w.world };

    ghost rules = { map_rules };

    ghost told = { told };

    ghost entry_of = { λ kept. kept };

    ghost has_room = { λ w entry. HasRoom w.world entry.command };

    fn empty(alloc: Global) -> MapWorld {
        MapWorld {
            alloc,
            world: World::empty(alloc),
        }
    }

    fn plan<L: Ledger>(
        alloc: Global,
        world: &MapWorld,
        command: Asked,
        steps: &mut Steps<L>,
    ) -> Result<MapPlan, Memory> {
        plan_command(alloc, &world.world, command, steps)
    }

    fn still(world: &MapWorld, plan: &MapPlan) -> Result<(), Look> {
        command_still(&world.world, plan)
    }

    fn settle<L: Ledger>(
        alloc: Global,
        world: &MapWorld,
        plan: MapPlan,
        tag: Tag,
        moment: u64,
        _steps: &mut Steps<L>,
    ) -> Result<Settled<Entry>, Memory> {
        settle_plan(alloc, &world.world, plan, tag, moment)
    }

    fn again<L: Ledger>(
        alloc: Global,
        world: &MapWorld,
        plan: MapPlan,
        tag: Tag,
        moment: u64,
        steps: &mut Steps<L>,
    ) -> Result<Settled<Entry>, Memory> {
        settle_again(alloc, &world.world, plan, tag, moment, steps)
    }

    fn tag(entry: &Entry) -> Tag {
        Tag {
            session: entry.session,
            call: entry.call,
        }
    }

    fn copy(alloc: Global, entry: &Entry) -> Result<Entry, Memory> {
        entry.copy(alloc)
    }

    fn keep(alloc: Global, entry: &Entry) -> Result<PackedEntry, Memory> {
        PackedEntry::of(alloc, entry)
    }

    fn entry(alloc: Global, kept: &PackedEntry) -> Result<Entry, Memory> {
        kept.entry(alloc)
    }

    fn accepts(alloc: Global, world: &MapWorld, entry: &Entry) -> Result<bool, Memory> {
        takes(alloc, &world.world, entry)
    }

    fn make_room(alloc: Global, world: &mut MapWorld, entry: &Entry) -> Result<(), Memory> {
        world.world.make_room(alloc, entry)
    }

    fn apply(world: &mut MapWorld, entry: Entry) {
        world.world.apply(world.alloc, entry);
    }

    fn find<L: Ledger>(
        alloc: Global,
        world: &MapWorld,
        query: &Query,
        moment: u64,
        steps: &mut Steps<L>,
    ) -> Result<Found, Memory> {
        let answer = world_ask(alloc, &world.world, moment, query, steps)?;
        found_from(alloc, answer)
    }

    fn tell(alloc: Global, found: Found) -> Result<Bytes, Memory> {
        tell(alloc, found)
    }

    ghost entry_taken = { accepted_taken };

    ghost start_consistent = { empty_kept };

    ghost after_consistent = { taken_kept };
}

/// What an answer was found to be, which is given up here.
fn found_from(alloc: Global, answer: Answer<'_>) -> Result<Found, Memory>
    requires { HasShownMoments answer }
    ensures { IfOk result (λ found. told found ≡ bytes_of answer.entry) }
{
    found_of(alloc, &answer)
}

/// The bytes of an answer, which is given up here, once.
fn bytes_from(alloc: Global, answer: Answer<'_>) -> Result<Bytes, Memory>
    requires { HasShownMoments answer }
    ensures { IfOk result (λ bytes. bytes ≡ bytes_of answer.entry) }
{
    bytes_of(alloc, &answer)
}

/// The entry of a user's command, as that call, at a stamp. It has the command itself.
fn entry_by(asked: Asked, tag: Tag, at: Stamp) -> Entry
    ensures { result
        ≡ record { session = tag.session; call = tag.call; user = asked.user; stamp = at; command = asked.command } }
{
    let Asked { user, command } = asked;
    Entry {
        session: tag.session,
        call: tag.call,
        user,
        stamp: at,
        command,
    }
}

/// What a user's command comes to that is answered so, as that call, at a stamp.
fn accepted(
    alloc: Global,
    asked: Asked,
    tag: Tag,
    at: Stamp,
    answer: Answer<'_>,
) -> Result<Settled<Entry>, Memory>
    requires { HasShownMoments answer }
    ensures { IfOk result (λ s. s
        ≡ record { answer = bytes_of answer.entry; entry = Some (record { session = tag.session; call = tag.call; user = asked.user; stamp = at; command = asked.command }) }) }
{
    let answer = bytes_from(alloc, answer)?;
    Ok(Settled {
        answer,
        entry: Some(entry_by(asked, tag, at)),
    })
}

/// What an upload comes to that is answered so, as that call, at a stamp.
fn accepted_upload(
    alloc: Global,
    cmd: UploadCmd,
    tag: Tag,
    at: Stamp,
    answer: Answer<'_>,
) -> Result<Settled<Entry>, Memory>
    requires { HasShownMoments answer }
    ensures { IfOk result (λ s. s
        ≡ record { answer = bytes_of answer.entry; entry = Some (record { session = tag.session; call = tag.call; user = cmd.user; stamp = at; command = command_of cmd }) }) }
{
    let answer = bytes_from(alloc, answer)?;
    Ok(Settled {
        answer,
        entry: Some(upload_entry(cmd, tag, at)),
    })
}

/// What a command comes to that is refused: no entry.
fn refused(alloc: Global, refusal: Refusal) -> Result<Settled<Entry>, Memory>
    requires { RefusalHasShownEnd refusal }
    ensures { IfOk result (λ s. s ≡ record { answer = bytes_of (answers.Refused refusal); entry = None }) }
{
    let answer = bytes_from(alloc, Answer::Refused(refusal))?;
    Ok(Settled {
        answer,
        entry: None,
    })
}

/// What a user's command that is no upload comes to on a world, as that call, at a moment.
fn settle_on(
    alloc: Global,
    world: &World,
    asked: Asked,
    tag: Tag,
    moment: u64,
) -> Result<Settled<Entry>, Memory>
    requires { IsOther asked.command }
    ensures { IfOk result (λ s. s ≡ act_as (state_of world.now) tag moment asked) }
{
    let at = Stamp::after(world.last_stamp(), moment);
    match judge_on(alloc, world, &asked.user, at, &asked.command) {
        Ok(answer) => accepted(alloc, asked, tag, at, answer),
        Err(Fault::Refused(refusal)) => refused(alloc, refusal),
        Err(Fault::Memory) => Err(Memory),
    }
}

/// What the command of a plan that stands comes to on a world, as that call, at a moment.
fn settle_plan(
    alloc: Global,
    world: &World,
    plan: MapPlan,
    tag: Tag,
    moment: u64,
) -> Result<Settled<Entry>, Memory>
    requires stands { StandsAs plan (state_of world.now) }
    requires foreseen { IsForeseenAs plan (state_of world.now) }
    ensures { (begun : State) (asked : Asked) → IsPlannedAs begun asked plan → Later begun (state_of world.now)
        → IfOk result (λ s. s ≡ act_as (state_of world.now) tag moment asked) }
{
    match plan {
        MapPlan::Upload(plan) => settle_upload(alloc, world, plan, tag, moment),
        MapPlan::Other(asked) => settle_on(alloc, world, asked, tag, moment),
    }
}

/// What the upload of a plan that stands comes to on a world, as that call, at a moment.
fn settle_upload(
    alloc: Global,
    world: &World,
    plan: Plan,
    tag: Tag,
    moment: u64,
) -> Result<Settled<Entry>, Memory>
    requires stands { StandsOn (plan_of plan) (state_of world.now).elements }
    requires foreseen { IsForeseen plan (state_of world.now) }
    ensures { (begun : State) (asked : Asked) → IsUploadPlan begun asked.user asked.command plan → Later begun (state_of world.now)
        → IfOk result (λ s. s ≡ act_as (state_of world.now) tag moment asked) }
{
    let at = Stamp::after(world.last_stamp(), moment);
    let SettledUpload { cmd, outcome } = settle(world, plan, moment);
    match outcome {
        Outcome::Accepted { first, rows } => {
            let answer = accepted_answer(alloc, &cmd, first, &rows)?;
            accepted_upload(alloc, cmd, tag, at, answer)
        }
        Outcome::Refused(refusal) => refused(alloc, refusal),
    }
}

/// What a plan's command comes to on a world, whether it stands or not: it is planned once more.
fn settle_again<L: Ledger>(
    alloc: Global,
    world: &World,
    plan: MapPlan,
    tag: Tag,
    moment: u64,
    steps: &mut Steps<L>,
) -> Result<Settled<Entry>, Memory>
    requires { IsForeseenAs plan (state_of world.now) }
    ensures { (begun : State) (asked : Asked) → IsPlannedAs begun asked plan → IfOk result
        (λ s. s ≡ act_as (state_of world.now) tag moment asked) }
{
    match plan {
        MapPlan::Upload(plan) => upload_again(alloc, world, plan, tag, moment, steps),
        MapPlan::Other(asked) => settle_on(alloc, world, asked, tag, moment),
    }
}

fn upload_again<L: Ledger>(
    alloc: Global,
    world: &World,
    plan: Plan,
    tag: Tag,
    moment: u64,
    steps: &mut Steps<L>,
) -> Result<Settled<Entry>, Memory>
    ensures { (begun : State) (asked : Asked) → IsUploadPlan begun asked.user asked.command plan → IfOk result
        (λ s. s ≡ act_as (state_of world.now) tag moment asked) }
{
    maps_follow_themselves();
    let plan = plan_again(alloc, world, plan, steps)?;
    settle_upload(alloc, world, plan, tag, moment)
}
