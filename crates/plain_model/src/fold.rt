//! An upload, operation after operation.
ghost use Rattle.std.specs.Prelude.{◌≡◌, ◌<◌, ◌^◌, length, [], IfOk};
ghost use Rattle.osm_model.specs.Fold.{upload};
ghost use Rattle.osm_model.specs.Operation.{operate_all};
ghost use Rattle.osm_model.specs.State.{HasChangeset};
ghost use Rattle.osm_model.specs.Outcome.{Gives};
ghost use Rattle.plain_model.specs.Outcome.{Leaves};

use crate::changesets::own_changeset;
use crate::operations::operate;
use crate::uploads::{UploadTask, applied_count, start};
use changeset_core::join_boxes;
use osm_base::{Stamp, User};
use osm_change::{Change, Refusal};
use osm_model::{Fault, Progress, State, box_allowed};
use std::alloc::Global;

/// Judges one operation after the other, each on what the earlier ones left.
fn operate_all(alloc: Global, upload: &UploadTask, progress: &mut Progress) -> Result<(), Fault>
    requires begins { progress.old.keys ≡ [] }
    requires few { length upload.now.operations < 2 ^ 32 }
    ensures { Leaves (operate_all upload.now progress.old upload.now.operations) progress.new result }
{
    for operation in upload.operations {
        operate(alloc, upload, progress, operation)?;
    }
    Ok(())
}

/// Judges an upload to a changeset. It works on a copy of the elements, so that a refusal leaves
/// nothing behind.
pub fn upload(
    alloc: Global,
    state: &State,
    user: &User,
    at: Stamp,
    id: u64,
    change: &Change,
) -> Result<Progress, Fault>
    ensures gives { Gives (upload state.now user.now at id change.now) result }
    ensures keys { IfOk result (λ progress. length progress.keys ≡ length change.now) }
    ensures done { IfOk result (λ progress. length progress.done ≡ length change.now) }
    ensures known { IfOk result (λ _. HasChangeset state.now id) }
{
    let kept = own_changeset(state, user, at, id)?;
    let task = UploadTask {
        before: &state.elements,
        changeset: id,
        stamp: at,
        operations: change.operations(),
    };
    let mut progress = start(alloc, &state.elements)?;
    operate_all(alloc, &task, &mut progress)?;
    let applied = applied_count(&progress);
    let count = kept.did.items().len() as u64;
    let limit = kept.limit();
    if count + applied > limit {
        return Err(Fault::Refused(Refusal::Full {
            applied,
            changeset: id,
            count,
            limit,
        }));
    }
    let touched = join_boxes(kept.touched, progress.touched);
    box_allowed(user.limit, id, kept.touched, touched)?;
    Ok(progress)
}
