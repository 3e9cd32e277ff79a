//! Planning an upload: its operations are judged, and what they look at is kept.
//!
//! A plan is judged before its changeset is tested, so an upload to a closed changeset costs its
//! steps. The changeset's tests belong to the map of the commit.
ghost use Rattle.std.specs.Prelude.{◌≡◌, ◌+◌, ◌≤◌, List, [], length, IfOk, IfErr, OnOk};
ghost use Rattle.osm_change.specs.Change.{IsWellFormed};
ghost use Rattle.osm_change.specs.Moments.{RefusalHasShownEnd};
ghost use Rattle.osm_change.specs.declared.operations.Op.{Op};
ghost use Rattle.osm_model.specs.Fold.{start};
ghost use Rattle.osm_world.specs.World.{state_of};
ghost use Rattle.upload_check.specs.Overlay.{sight, StandsFor};
ghost use Rattle.upload_check.specs.Asked.{judged_count};
ghost use Rattle.upload_check.specs.Planned.{outcome_of, IsShown};
ghost use Rattle.upload_check.specs.Seen.{nothing_seen, outcome_with, IsWatched};

use crate::judged::{Judged, check_op};
use crate::key_runs::in_order;
use crate::looks::{count_looks, users_looks};
use crate::overlays::Overlay;
use crate::plans::{Found, Plan, UploadCmd};
use crate::witnesses::{Looks, Witness};
use osm_base::{Box7, Items, Memory, Steps};
use osm_change::{Change, OpDone, Refusal};
use osm_later::{changes_can_be_planned, stills_say_where_they_differ};
use osm_world::World;
use std::alloc::Global;
use std::sync::ledger::Ledger;

/// What an upload's operations come to: the least box of what they touched, or why one is refused.
pub type Verdict = Result<Option<Box7>, Refusal>;

/// Judges the operations in order, up to the first that is refused, from an overlay that stands for
/// the world, and shows the witness what they look at and what they do.
fn find_out<W: Witness, L: Ledger>(
    alloc: Global,
    world: &World,
    over: &mut Overlay,
    change: &Change,
    witness: &mut W,
    steps: &mut Steps<L>,
) -> Result<Verdict, Memory>
    requires start { (ops : List Op) → StandsFor (sight (state_of world.now).elements ops over.old) (start (state_of world.now).elements) }
    requires keys { over.old.keys ≡ [] }
    requires saw { W.saw witness.old nothing_seen }
    ensures watched { IfOk result (IsWatched (state_of world.now).elements change.now (W.saw witness.new)) }
    ensures shown { IfOk result (λ verdict. IfErr verdict RefusalHasShownEnd) }
    ensures steps { OnOk result (steps.new ≡ steps.old + judged_count (state_of world.now).elements change.now) }
    ensures bound { steps.new ≤ steps.old + length change.now }
{
    for place in 0..change.len() {
        witness.looks(world, change.op(place))?;
        match check_op(alloc, world, over, change, place, steps)? {
            Judged::Done(done) => witness.passes(done)?,
            Judged::Refused(refusal) => {
                witness.refuses(&refusal)?;
                return Ok(Err(refusal));
            }
        }
    }
    Ok(Ok(over.touched()))
}

/// The same from an overlay of its own, which is given up once.
pub fn judge_change<W: Witness, L: Ledger>(
    alloc: Global,
    world: &World,
    change: &Change,
    witness: &mut W,
    steps: &mut Steps<L>,
) -> Result<Verdict, Memory>
    requires saw { W.saw witness.old nothing_seen }
    ensures formed { IsWellFormed change.now }
    ensures watched { IfOk result (IsWatched (state_of world.now).elements change.now (W.saw witness.new)) }
    ensures shown { IfOk result (λ verdict. IfErr verdict RefusalHasShownEnd) }
    ensures steps { OnOk result (steps.new ≡ steps.old + judged_count (state_of world.now).elements change.now) }
    ensures bound { steps.new ≤ steps.old + length change.now }
{
    let operations = change.operations();
    let mut over = Overlay::new(alloc, world, operations)?;
    find_out(alloc, world, &mut over, change, witness, steps)
}

/// What was found out, with what the operations did.
fn found_with(verdict: Verdict, rows: Vec<OpDone>) -> Found
    requires { IfErr verdict RefusalHasShownEnd }
    ensures found { outcome_of result ≡ outcome_with rows.items verdict }
    ensures shown { IsShown (outcome_of result) }
{
    match verdict {
        Ok(touched) => Found::Done {
            rows: Items::of(rows),
            touched,
        },
        Err(refusal) => Found::Refused(refusal),
    }
}

ghost use Rattle.upload_check.specs.Planned.{IsPlanOf};

/// A plan of an upload on a world. It counts one step for each operation that is judged.
pub fn plan_upload<L: Ledger>(
    alloc: Global,
    world: &World,
    cmd: UploadCmd,
    steps: &mut Steps<L>,
) -> Result<Plan, Memory>
    ensures planned { IfOk result (λ plan. IsPlanOf (state_of world.now).elements cmd plan) }
    ensures steps { OnOk result (steps.new ≡ steps.old + judged_count (state_of world.now).elements cmd.change) }
    ensures bound { steps.new ≤ steps.old + length cmd.change }
{
    changes_can_be_planned();
    stills_say_where_they_differ();
    world.laws();
    let mut looks = Looks::new(alloc, cmd.change.len())?;
    let verdict = judge_change(alloc, world, &cmd.change, &mut looks, steps)?;
    let counted = in_order(alloc, looks.counted.as_slice())?;
    let used = in_order(alloc, looks.used.as_slice())?;
    let found = found_with(verdict, looks.rows);
    let counts = count_looks(alloc, world, counted.as_slice())?;
    let users = users_looks(alloc, world, used.as_slice())?;
    Ok(Plan {
        cmd,
        counts,
        users,
        found,
    })
}

/// A plan of the same upload on another world, which has the upload of the first.
pub fn plan_again<L: Ledger>(
    alloc: Global,
    world: &World,
    plan: Plan,
    steps: &mut Steps<L>,
) -> Result<Plan, Memory>
    ensures planned { IfOk result (λ again. IsPlanOf (state_of world.now).elements plan.asked again) }
    ensures steps { OnOk result (steps.new ≡ steps.old + judged_count (state_of world.now).elements plan.asked.change) }
    ensures bound { steps.new ≤ steps.old + length plan.asked.change }
{
    let Plan {
        cmd,
        counts: _,
        users: _,
        found: _,
    } = plan;
    plan_upload(alloc, world, cmd, steps)
}
