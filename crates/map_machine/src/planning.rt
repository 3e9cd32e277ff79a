//! What is planned of a user's command, where the plan stands, and what it comes to.
ghost use Rattle.std.specs.Prelude.{◌≡◌, ◌<◌, ◌+◌, [], true, length, IfOk, MatchResult};
ghost use Rattle.osm_change.specs.Keys.{key_of, keys_of};
ghost use Rattle.diff_result.specs.Counted.{HasNumbers};
ghost use Rattle.osm_model.specs.Act.{number_of, single_number};
ghost use Rattle.osm_world.specs.World.{state_of};
ghost use Rattle.upload_check.specs.Commands.{command_of, told_upload};
ghost use Rattle.upload_check.specs.Asked.{IsAsked};
ghost use Rattle.upload_check.specs.Planned.{IsPlanOf};
ghost use Rattle.map_machine.specs.Machine.{IsPlannedAs, StandsAs, DiffersAs};

use crate::plans::{Asked, MapPlan};
use machine_law::Tag;
use osm_base::{Memory, Stamp, Steps};
use osm_change::{Answer, Change, FirstIds, OneOp, Op, OpDone, OpDones, kind_of};
use osm_model::{Command, Entry};
use osm_world::World;
use std::alloc::Global;
use std::sync::ledger::Ledger;
use upload_check::{Look, UploadCmd, plan_upload, still};

fn upload_plan<L: Ledger>(
    alloc: Global,
    world: &World,
    cmd: UploadCmd,
    steps: &mut Steps<L>,
) -> Result<MapPlan, Memory>
    ensures planned { IfOk result (IsPlannedAs (state_of world.now) (record { user = cmd.user; command = command_of cmd })) }
    ensures stands { IfOk result (λ plan. StandsAs plan (state_of world.now)) }
{
    let plan = plan_upload(alloc, world, cmd, steps)?;
    Ok(MapPlan::Upload(plan))
}

/// A plan of a user's command on a world.
pub fn plan_command<L: Ledger>(
    alloc: Global,
    world: &World,
    asked: Asked,
    steps: &mut Steps<L>,
) -> Result<MapPlan, Memory>
    ensures planned { IfOk result (IsPlannedAs (state_of world.now) asked) }
    ensures stands { IfOk result (λ plan. StandsAs plan (state_of world.now)) }
{
    let Asked { user, command } = asked;
    match command {
        Command::Upload { changeset, change } => {
            let cmd = UploadCmd {
                user,
                changeset,
                change,
                single: false,
            };
            upload_plan(alloc, world, cmd, steps)
        }
        Command::Single { changeset, change } => {
            let cmd = UploadCmd {
                user,
                changeset,
                change: change.into_change(),
                single: true,
            };
            upload_plan(alloc, world, cmd, steps)
        }
        command => Ok(MapPlan::Other(Asked { user, command })),
    }
}

/// Whether a plan stands on a world, or else where they differ.
pub fn command_still(world: &World, plan: &MapPlan) -> Result<(), Look>
    ensures { MatchResult result (λ _. StandsAs plan.now (state_of world.now))
        (λ look. ¬ StandsAs plan.now (state_of world.now) × DiffersAs look plan.now (state_of world.now)) }
{
    match plan {
        MapPlan::Upload(plan) => still(world, plan),
        MapPlan::Other(_) => Ok(()),
    }
}

/// The new id of a create, else the version.
fn number_of(operation: &Op, first: FirstIds, done: OpDone) -> u64
    ensures { result ≡ number_of operation.now (key_of [] first operation.now) done }
{
    match operation {
        Op::Create { content, .. } => first.next(kind_of(content)),
        Op::Modify { .. } | Op::Delete { .. } => done.version(),
    }
}

/// The number that a change with one operation answers.
fn single_number(change: &Change, first: FirstIds, done: &[OpDone]) -> u64
    requires one { length change.now ≡ 1 }
    requires done { length done.now ≡ length change.now }
    ensures { result ≡ single_number change.now (keys_of first change.now) done.now }
{
    match (change.operations(), done) {
        ([operation], [done]) => number_of(operation, first, *done),
        _ => unreachable!(),
    }
}

/// The answer to an upload or a single change that is accepted.
pub fn accepted_answer(
    alloc: Global,
    cmd: &UploadCmd,
    first: FirstIds,
    rows: &OpDones,
) -> Result<Answer<'static>, Memory>
    requires one { IsAsked cmd.now }
    requires done { length rows.now ≡ length cmd.now.change }
    requires numbers { HasNumbers first (length cmd.now.change) }
    ensures { IfOk result (λ answer. answer ≡ told_upload first cmd.now rows.now) }
{
    if cmd.single {
        return Ok(Answer::Number(single_number(&cmd.change, first, rows.items())));
    }
    let rows = diff_result::rows(alloc, &cmd.change, rows, first)?;
    Ok(Answer::Diff(rows))
}

/// The entry of an upload, as that call, at a stamp. It has the upload itself.
pub fn upload_entry(cmd: UploadCmd, tag: Tag, at: Stamp) -> Entry
    ensures { result
        ≡ record { session = tag.session; call = tag.call; user = cmd.user; stamp = at; command = command_of cmd } }
{
    let UploadCmd {
        user,
        changeset,
        change,
        single,
    } = cmd;
    Entry {
        session: tag.session,
        call: tag.call,
        user,
        stamp: at,
        command: command_from(changeset, change, single),
    }
}

ghost use Rattle.std.specs.Prelude.{if◌then◌else◌};
ghost use Rattle.osm_model.specs.declared.commands.Command.TheVariants.{Single, Upload};

fn command_from(changeset: u64, change: Change, single: bool) -> Command
    requires { single ≡ true → length change ≡ 1 }
    ensures { result ≡ if single then Single changeset change else Upload changeset change }
{
    if !single {
        return Command::Upload { changeset, change };
    }
    match OneOp::of(change) {
        Ok(change) => Command::Single { changeset, change },
        Err(change) => Command::Upload { changeset, change },
    }
}
