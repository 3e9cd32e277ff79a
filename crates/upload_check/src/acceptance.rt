//! Whether an upload is accepted, for whoever only follows a journal.
ghost use Rattle.std.specs.Prelude.{◌≡◌, ◌+◌, ◌≤◌, List, length, count_by, is_ok, IfOk, OnOk};
ghost use Rattle.osm_base.specs.Stamp.{stamp_after};
ghost use Rattle.osm_change.specs.Done.{is_applied};
ghost use Rattle.osm_change.specs.declared.operations.OpDone.{OpDone};
ghost use Rattle.osm_later.specs.Settle.{settle_done};
ghost use Rattle.osm_model.specs.Fold.{upload};
ghost use Rattle.osm_world.specs.World.{state_of};
ghost use Rattle.upload_check.specs.Asked.{judged_count};
ghost use Rattle.upload_check.specs.Planned.{taken_by};
ghost use Rattle.upload_check.specs.Seen.{outcome_with};

use crate::planning::{Verdict, judge_change};
use crate::settles::{has_box, has_room};
use crate::witnesses::Tally;
use changeset_core::Changeset;
use osm_base::{Memory, Stamp, Steps, User};
use osm_change::Change;
use osm_later::{changes_can_be_planned, maps_follow_themselves, plans_settle};
use osm_world::World;
use std::alloc::Global;
use std::sync::ledger::Ledger;

/// A user's upload to a changeset at a moment, in seconds since 1970, as it is lent to be tested.
#[derive(Clone, Copy)]
pub struct UploadAt<'a> {
    pub user: &'a User,
    pub changeset: u64,
    pub change: &'a Change,
    pub moment: u64,
}

/// Whether an upload is accepted on a world. It is judged and settled at once: no plan is kept, and
/// of what its operations do and look at only a number is. It counts one step for each operation
/// that is judged.
pub fn accepts_upload<L: Ledger>(
    alloc: Global,
    world: &World,
    asked: &UploadAt<'_>,
    steps: &mut Steps<L>,
) -> Result<bool, Memory>
    ensures accepted { IfOk result
        (λ b. b ≡ is_ok (upload (state_of world.now) asked.now.user.now (stamp_after (state_of world.now).last asked.now.moment) asked.now.changeset asked.now.change.now)) }
    ensures steps { OnOk result (steps.new ≡ steps.old + judged_count (state_of world.now).elements asked.now.change.now) }
    ensures bound { steps.new ≤ steps.old + length asked.now.change.now }
{
    changes_can_be_planned();
    maps_follow_themselves();
    plans_settle();
    world.laws();
    let at = Stamp::after(world.last_stamp(), asked.moment);
    let mut tally = Tally { applied: 0 };
    let verdict = judge_change(alloc, world, asked.change, &mut tally, steps)?;
    Ok(is_taken(world, asked, at, &verdict, tally.applied))
}

/// Whether the upload of a verdict, which made so many versions, is accepted at a stamp.
fn is_taken(world: &World, asked: &UploadAt<'_>, at: Stamp, verdict: &Verdict, applied: u64) -> bool
    ensures { (rows : List OpDone) → applied ≡ count_by is_applied rows
        → result ≡ is_ok (settle_done (state_of world.now) asked.now.user.now at asked.now.changeset (outcome_with rows verdict.now)) }
{
    match world.own_changeset(asked.user, at, asked.changeset) {
        Ok(kept) => takes(kept, asked.user, asked.changeset, verdict, applied),
        Err(_) => false,
    }
}

/// Whether the changeset takes what came of its operations.
fn takes(kept: &Changeset, user: &User, id: u64, verdict: &Verdict, applied: u64) -> bool
    ensures { (rows : List OpDone) → applied ≡ count_by is_applied rows
        → result ≡ is_ok (taken_by user.now id kept.now.kept (outcome_with rows verdict.now)) }
{
    match verdict {
        Ok(touched) => {
            has_room(kept, id, applied).is_ok() && has_box(kept, user, id, *touched).is_ok()
        }
        Err(_) => false,
    }
}
