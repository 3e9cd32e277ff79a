//! What an upload comes to: a plan that stands is settled without judging an operation.
ghost use Rattle.std.specs.Prelude.{◌≡◌, ◌+◌, nat_lt, count_by, IfErr};
ghost use Rattle.osm_base.specs.Stamp.{stamp_after};
ghost use Rattle.osm_change.specs.Done.{is_applied};
ghost use Rattle.osm_change.specs.Moments.{RefusalHasShownEnd};
ghost use Rattle.changeset_core.specs.Changeset.{join_areas};
ghost use Rattle.osm_later.specs.Settle.{settle_done};
ghost use Rattle.osm_later.specs.Plan.{StandsOn, IsPlannedOn};
ghost use Rattle.osm_model.specs.Fold.{box_allowed};
ghost use Rattle.osm_model.specs.Journal.{Later};
ghost use Rattle.osm_model.specs.declared.states.State.{State};
ghost use Rattle.osm_world.specs.World.{state_of};
ghost use Rattle.upload_check.specs.Asked.{IsAsked, IsOutcome};
ghost use Rattle.upload_check.specs.Planned.{plan_of, outcome_of, room_for, taken_by, IsShown};

use crate::overlays::first_ids;
use crate::plans::{Found, Plan, UploadCmd};
use changeset_core::{Changeset, join_boxes};
use osm_base::{Box7, Stamp, User};
use osm_change::{FirstIds, OpDone, OpDones, Refusal};
use osm_later::plans_settle;
use osm_model::box_allowed;
use osm_world::World;

/// What an upload comes to. The creates of each kind are numbered from `first` on.
#[derive(Drop)]
pub enum Outcome {
    Accepted { first: FirstIds, rows: OpDones },
    Refused(Refusal),
}

/// An upload with what it comes to.
#[derive(Drop)]
pub struct SettledUpload {
    pub cmd: UploadCmd,
    pub outcome: Outcome,
}

/// What the upload of a plan that stands comes to on a world at a moment, in seconds since 1970. The
/// changeset is tested on this world, and new ids are those that come next here; no operation is
/// judged. The plan is given up: its upload and the rows of what was done are handed on as they are,
/// so it takes no memory.
pub fn settle(world: &World, plan: Plan, moment: u64) -> SettledUpload
    requires stands { StandsOn (plan_of plan) (state_of world.now).elements }
    ensures cmd { result.cmd ≡ plan.asked }
    ensures one { IsAsked plan.asked }
    ensures comes { (begun : State) → IsPlannedOn begun.elements (plan_of plan) → Later begun (state_of world.now)
        → IsOutcome (state_of world.now) plan.asked (stamp_after (state_of world.now).last moment) result.outcome }
{
    plans_settle();
    let at = Stamp::after(world.last_stamp(), moment);
    let first = first_ids(world);
    let Plan {
        cmd,
        counts: _,
        users: _,
        found,
    } = plan;
    let outcome = match settled(world, &cmd, found, at) {
        Ok(rows) => Outcome::Accepted { first, rows },
        Err(refusal) => Outcome::Refused(refusal),
    };
    SettledUpload { cmd, outcome }
}

/// What the operations of an upload did, if the changeset takes it.
fn settled(world: &World, cmd: &UploadCmd, found: Found, at: Stamp) -> Result<OpDones, Refusal>
    requires { IsShown (outcome_of found) }
    ensures value { result ≡ settle_done (state_of world.now) cmd.now.user at cmd.now.changeset (outcome_of found) }
    ensures shown { IfErr result RefusalHasShownEnd }
{
    let kept = world.own_changeset(&cmd.user, at, cmd.changeset)?;
    taken(kept, &cmd.user, cmd.changeset, found)
}

/// What was found out, if the changeset takes it.
fn taken(kept: &Changeset, user: &User, id: u64, found: Found) -> Result<OpDones, Refusal>
    requires { IsShown (outcome_of found) }
    ensures value { result ≡ taken_by user.now id kept.now.kept (outcome_of found) }
    ensures shown { IfErr result RefusalHasShownEnd }
{
    match found {
        Found::Done { rows, touched } => {
            has_room(kept, id, applied_among(rows.items()) as u64)?;
            has_box(kept, user, id, touched)?;
            Ok(rows)
        }
        Found::Refused(refusal) => Err(refusal),
    }
}

/// Whether a number and so many more are over a limit.
fn is_over(number: u64, more: u64, limit: u64) -> bool
    ensures { result ≡ nat_lt limit (number + more) }
{
    match number.checked_add(more) {
        Some(sum) => sum > limit,
        None => true,
    }
}

/// The changeset takes so many versions more.
pub fn has_room(kept: &Changeset, id: u64, applied: u64) -> Result<(), Refusal>
    ensures value { result ≡ room_for id kept.now.kept applied }
    ensures shown { IfErr result RefusalHasShownEnd }
{
    let count = kept.count();
    let limit = kept.limit();
    if is_over(count, applied, limit) {
        Err(Refusal::Full {
            applied,
            changeset: id,
            count,
            limit,
        })
    } else {
        Ok(())
    }
}

/// The changeset may have its box with what was touched, by the limit of its user.
pub fn has_box(kept: &Changeset, user: &User, id: u64, touched: Option<Box7>) -> Result<(), Refusal>
    ensures value { result ≡ box_allowed user.now.limit id kept.now.kept.touched (join_areas kept.now.kept.touched touched) }
    ensures shown { IfErr result RefusalHasShownEnd }
{
    let after = join_boxes(kept.touched(), touched);
    box_allowed(user.limit, id, kept.touched(), after)
}

fn applied_among(rows: &[OpDone]) -> usize
    ensures { result ≡ count_by is_applied rows.now }
{
    rows.iter()
        .copied()
        .filter(|done| done.is_applied())
        .count()
}
