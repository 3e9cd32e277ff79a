//! Records of changesets that are opened and retagged.
ghost use Rattle.std.specs.Prelude.{◌≡◌, true, IfOk, MatchResult, Ok, Err, Some};
ghost use Rattle.changeset_core.specs.Changeset.{is_open, retagged};
ghost use Rattle.osm_model.specs.Changeset.{new_changeset, changeset_row};
ghost use Rattle.osm_model.specs.State.{changeset, own_changeset, HasChangeset};

use changeset_core::{ChangesetRecord, first_limit};
use osm_base::{Memory, Stamp, TryCopy, User};
use osm_change::{ChangesetRow, Refusal};
use osm_element::Tags;
use osm_model::State;
use std::alloc::Global;

/// The record of a changeset that the user opens.
pub fn new_changeset(
    alloc: Global,
    user: &User,
    at: Stamp,
    tags: &Tags,
    large_from: Option<u64>,
) -> Result<ChangesetRecord, Memory>
    ensures { IfOk result (λ made. made ≡ new_changeset user.now at tags.now large_from) }
{
    let owner = user.owner(alloc)?;
    let tags = tags.copy(alloc)?;
    let limit = first_limit(large_from, at);
    Ok(ChangesetRecord::new(alloc, owner, tags, at, limit))
}

/// A changeset as the client is told at a stamp.
pub fn changeset_row(
    alloc: Global,
    id: u64,
    kept: &ChangesetRecord,
    at: Stamp,
) -> Result<ChangesetRow, Memory>
    ensures { IfOk result (λ row. row ≡ changeset_row id kept.now at) }
{
    let owner = kept.owner.copy(alloc)?;
    let tags = kept.tags.copy(alloc)?;
    Ok(ChangesetRow {
        id,
        owner,
        tags,
        created: kept.created,
        closes: kept.closed_at(at),
        count: kept.count(),
        touched: kept.touched,
    })
}

/// A changeset as the client is told who gives it other tags at a stamp. That is activity, so it
/// stays open.
#[tactic(auto, using(crate::proofs::Opened::retagged_open))]
pub fn retagged_row(
    alloc: Global,
    id: u64,
    kept: &ChangesetRecord,
    tags: &Tags,
    at: Stamp,
) -> Result<ChangesetRow, Memory>
    requires { is_open kept.now at ≡ true }
    ensures { IfOk result (λ row. row ≡ changeset_row id (retagged kept.now tags.now at) at) }
{
    let owner = kept.owner.copy(alloc)?;
    let tags = tags.copy(alloc)?;
    Ok(ChangesetRow {
        id,
        owner,
        tags,
        created: kept.created,
        closes: None,
        count: kept.count(),
        touched: kept.touched,
    })
}

/// The record of a changeset that the user may work on at a stamp: its owner is tested before
/// whether it is open.
pub fn own_changeset<'a>(
    state: &'a State,
    user: &User,
    at: Stamp,
    id: u64,
) -> Result<&'a ChangesetRecord, Refusal>
    ensures value { MatchResult result (λ kept. own_changeset state.now user.now at id ≡ Ok kept.now)
        (λ refusal. own_changeset state.now user.now at id ≡ Err refusal) }
    ensures found { IfOk result (λ kept. changeset state.now id ≡ Some kept.now) }
    ensures known { IfOk result (λ _. HasChangeset state.now id) }
    ensures open { IfOk result (λ kept. is_open kept.now at ≡ true) }
{
    let Some(kept) = state.changeset(id) else {
        return Err(Refusal::NoChangeset { id });
    };
    if kept.owner.id != user.id {
        return Err(Refusal::NotOwner {
            changeset: id,
            owner: kept.owner.id,
        });
    }
    match kept.closed_at(at) {
        None => Ok(kept),
        Some(closed_at) => Err(Refusal::Closed {
            changeset: id,
            closed_at,
        }),
    }
}
