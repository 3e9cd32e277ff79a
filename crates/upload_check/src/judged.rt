//! One operation judged.
ghost use Rattle.std.specs.Prelude.{◌≡◌, ℕ, ◌+◌, ◌<◌, ◌^◌, length, slice_get, Some, IfOk, OnOk, OnErr};
ghost use Rattle.osm_change.specs.declared.operations.Op.{Op};
ghost use Rattle.osm_model.specs.declared.uploads.Progress.{Progress};
ghost use Rattle.osm_world.specs.World.{state_of};
ghost use Rattle.upload_check.specs.Effects.{HasUsers, IsEntered, IsFresh, done_of};
ghost use Rattle.upload_check.specs.Judged.{IsAt, IsJudged, Leaves};
ghost use Rattle.upload_check.specs.Overlay.{sight, standing, StandsAlike, StandsFor};
ghost use Rattle.upload_check.specs.Passed.{box_listed};

use crate::checks::Passed;
use crate::overlays::Overlay;
use crate::sights::View;
use osm_base::{Memory, Steps};
use osm_change::{Change, Op, OpDone, Refusal};
use osm_world::World;
use std::alloc::Global;
use std::sync::ledger::Ledger;

/// What one operation comes to.
#[derive(Drop)]
pub enum Judged {
    Done(OpDone),
    Refused(Refusal),
}

/// Judges the operation at a place, counted from 0, on what those before it left, for which the
/// overlay stands. Where it is passed, the overlay then stands for what it left; after a refusal or
/// `Memory` for what it stood for before. It counts one step.
pub fn check_op<L: Ledger>(
    alloc: Global,
    world: &World,
    over: &mut Overlay,
    change: &Change,
    place: u32,
    steps: &mut Steps<L>,
) -> Result<Judged, Memory>
    requires within { place < length change.now }
    requires stands { IsAt (sight (state_of world.now).elements change.now over.old) place }
    ensures judged { IfOk result
        (λ judged. (o : Op) → slice_get change.now place ≡ Some o
        → IsJudged (state_of world.now).elements change.now o over.old over.new judged) }
    ensures goes { IfOk result (λ judged. (o : Op) → slice_get change.now place ≡ Some o → Leaves o over.old over.new judged) }
    ensures memory { OnErr result (StandsAlike (state_of world.now).elements over.old over.new) }
    ensures still { OnErr result ((g : Progress) → StandsFor (sight (state_of world.now).elements change.now over.old) g
        → StandsFor (sight (state_of world.now).elements change.now over.new) g) }
    ensures step { steps.new ≡ steps.old + 1 }
{
    steps.tick();
    let operations = change.operations();
    let operation = change.op(place);
    match (View {
        world,
        operations,
        over,
    })
    .check(operation)
    {
        Ok(passed) => {
            let done = pass(alloc, world, over, operations, operation, passed)?;
            Ok(Judged::Done(done))
        }
        Err(refusal) => Ok(Judged::Refused(refusal)),
    }
}

/// Enters an operation that is passed, and tells what it did.
#[tactic(auto, using(crate::proofs::Alike::all_alike))]
fn pass(
    alloc: Global,
    world: &World,
    over: &mut Overlay,
    operations: &[Op],
    operation: &Op,
    passed: Passed,
) -> Result<OpDone, Memory>
    requires few { length over.old.keys < 2 ^ 32 }
    requires users { HasUsers (sight (state_of world.now).elements operations.now over.old) passed.step.key }
    requires fresh { IsFresh (sight (state_of world.now).elements operations.now over.old) operation.now passed.step.key }
    requires stood { passed.stood ≡ standing (sight (state_of world.now).elements operations.now over.old) passed.step.key }
    requires area { passed.area ≡ box_listed (sight (state_of world.now).elements operations.now over.old) operation.now }
    ensures entered { OnOk result (IsEntered (sight (state_of world.now).elements operations.now over.old) operation.now passed.step over.new) }
    ensures done { IfOk result (λ done. done ≡ done_of (sight (state_of world.now).elements operations.now over.old) passed.step) }
    ensures memory { OnErr result (StandsAlike (state_of world.now).elements over.old over.new) }
{
    let done = passed.step.done(passed.stood.versions)?;
    over.enter(alloc, world, operations, operation, passed)?;
    Ok(done)
}
