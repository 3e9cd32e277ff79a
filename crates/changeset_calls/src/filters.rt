//! The query of changesets: its filters, the newest first.
//!
//! A changeset that touched nothing meets no box.
//!
//! A query that asks for open and for closed changesets at once gives none.
ghost use Rattle.std.specs.Prelude.{◌≡◌, ◌++◌, ◌∷◌, [], true, not, ◌&&◌, ◌||◌, ◌==◌, filter, filter_map, IfOk};
ghost use Rattle.std.specs.Option.{option_map_or};
ghost use Rattle.osm_model.specs.ChangesetReads.{touches, passes, passes_at, row_at, query_changesets};
ghost use Rattle.osm_world.specs.World.{state_of};

use crate::rows::changeset_row;
use changeset_core::Changeset;
use osm_base::{Box7, Items, Memory, QUERY_LIMIT, Stamp};
use osm_change::ChangesetRow;
use osm_world::World;
use std::alloc::Global;

/// What a changeset has to pass: each filter that is named.
#[derive(Clone, Copy)]
struct Filters {
    user: Option<u64>,
    only_open: bool,
    only_closed: bool,
    within: Option<Box7>,
}

fn is_of(user: Option<u64>, kept: &Changeset) -> bool
    ensures { result ≡ option_map_or (λ u. kept.now.kept.owner.id == u) user true }
{
    match user {
        Some(user) => kept.owner().id == user,
        None => true,
    }
}

fn is_wanted(filters: &Filters, is_open: bool) -> bool
    ensures { result ≡ (not filters.now.only_open || is_open) && (not filters.now.only_closed || not is_open) }
{
    (!filters.only_open || is_open) && (!filters.only_closed || !is_open)
}

/// A changeset that touched nothing has no box, and meets none.
fn touches(within: &Box7, kept: &Changeset) -> bool
    ensures { result ≡ touches within.now kept.now.kept }
{
    match kept.touched() {
        Some(touched) => within.meets(&touched),
        None => false,
    }
}

fn is_near(within: &Option<Box7>, kept: &Changeset) -> bool
    ensures { result ≡ option_map_or (λ a. touches a kept.now.kept) within.now true }
{
    match within {
        Some(within) => touches(within, kept),
        None => true,
    }
}

fn passes(filters: &Filters, at: Stamp, kept: &Changeset) -> bool
    ensures { result ≡ passes filters.now.user filters.now.only_open filters.now.only_closed filters.now.within at kept.now.kept }
{
    is_of(filters.user, kept)
        && is_wanted(filters, kept.open_at(at))
        && is_near(&filters.within, kept)
}

/// Adds the row of a changeset, if there is one and it passes.
fn add_row(
    alloc: Global,
    world: &World,
    at: Stamp,
    filters: &Filters,
    id: u64,
    rows: &mut Vec<ChangesetRow>,
) -> Result<(), Memory>
    ensures { IfOk result (λ _. rows.new.items ≡ rows.old.items
        ++ filter_map (row_at (state_of world.now) at) (filter (passes_at (state_of world.now) (passes filters.now.user filters.now.only_open filters.now.only_closed filters.now.within at)) (id ∷ []))) }
{
    let Some(kept) = world.changeset(id) else {
        return Ok(());
    };
    if passes(filters, at, kept) {
        rows.push(changeset_row(alloc, id, kept, at)?)?;
    }
    Ok(())
}

/// The changesets that pass, the newest first. It stops once there are `QUERY_LIMIT`.
fn newest_rows(
    alloc: Global,
    world: &World,
    at: Stamp,
    filters: &Filters,
) -> Result<Items<ChangesetRow>, Memory>
    ensures { IfOk result (λ rows. rows
        ≡ query_changesets (state_of world.now) at filters.now.user filters.now.only_open filters.now.only_closed filters.now.within) }
{
    let mut rows = Vec::new(alloc);
    let mut id = world.changesets().len() as u64;
    while id > 0 && rows.len() < QUERY_LIMIT {
        add_row(alloc, world, at, filters, id, &mut rows)?;
        id -= 1;
    }
    Ok(Items::of(rows))
}

/// The changesets that pass each filter that is named, the newest first, at most `QUERY_LIMIT`.
/// `user` is an owner's id; `within` passes a changeset whose box meets it, edges included. None
/// older is looked at once there are enough.
pub fn query(
    alloc: Global,
    world: &World,
    user: Option<u64>,
    only_open: bool,
    only_closed: bool,
    within: Option<Box7>,
    at: Stamp,
) -> Result<Items<ChangesetRow>, Memory>
    ensures { IfOk result (λ rows. rows ≡ query_changesets (state_of world.now) at user only_open only_closed within) }
{
    let filters = Filters {
        user,
        only_open,
        only_closed,
        within,
    };
    newest_rows(alloc, world, at, &filters)
}
