//! Changesets read, queried and downloaded.
ghost use Rattle.std.specs.Prelude.{◌≡◌, ◌++◌, ◌∷◌, [], true, not, ◌&&◌, ◌||◌, ◌==◌, filter, filter_map, map, IfOk};
ghost use Rattle.std.specs.Option.{option_map_or};
ghost use Rattle.osm_model.specs.ChangesetReads.{read_changeset, touches, passes, passes_at, row_at, query_changesets, is_unmarked, download};
ghost use Rattle.osm_model.specs.Outcome.{Gives};
ghost use Rattle.osm_model.specs.Reads.{shown};

use changeset_core::{ChangesetRecord, Work};
use osm_base::{Box7, Items, Memory, QUERY_LIMIT, Stamp};
use osm_change::{ChangesetRow, Refusal, VersionId};
use osm_element::Elements;
use osm_model::{Fault, State};
use plain_model::changeset_row;
use std::alloc::Global;

/// A changeset as it is at a stamp.
pub fn read_changeset(
    alloc: Global,
    state: &State,
    at: Stamp,
    id: u64,
) -> Result<ChangesetRow, Fault>
    ensures { Gives (read_changeset state.now at id) result }
{
    match state.changeset(id) {
        Some(kept) => Ok(changeset_row(alloc, id, kept, at)?),
        None => Err(Fault::Refused(Refusal::NoChangeset { id })),
    }
}

// ---- the query

/// What a changeset has to pass: each filter that is named.
#[derive(Clone, Copy)]
pub struct Filters {
    pub user: Option<u64>,
    pub only_open: bool,
    pub only_closed: bool,
    pub within: Option<Box7>,
}

fn is_of(user: Option<u64>, kept: &ChangesetRecord) -> bool
    ensures { result ≡ option_map_or (λ u. kept.now.owner.id == u) user true }
{
    match user {
        Some(user) => kept.owner.id == user,
        None => true,
    }
}

fn is_wanted(filters: &Filters, is_open: bool) -> bool
    ensures { result ≡ (not filters.now.only_open || is_open) && (not filters.now.only_closed || not is_open) }
{
    (!filters.only_open || is_open) && (!filters.only_closed || !is_open)
}

fn touches(within: &Box7, kept: &ChangesetRecord) -> bool
    ensures { result ≡ touches within.now kept.now }
{
    match kept.touched {
        Some(touched) => within.meets(&touched),
        None => false,
    }
}

fn is_near(within: &Option<Box7>, kept: &ChangesetRecord) -> bool
    ensures { result ≡ option_map_or (λ a. touches a kept.now) within.now true }
{
    match within {
        Some(within) => touches(within, kept),
        None => true,
    }
}

fn passes(filters: &Filters, at: Stamp, kept: &ChangesetRecord) -> bool
    ensures { result ≡ passes filters.now.user filters.now.only_open filters.now.only_closed filters.now.within at kept.now }
{
    is_of(filters.user, kept)
        && is_wanted(filters, kept.is_open(at))
        && is_near(&filters.within, kept)
}

/// Adds the row of a changeset, if there is one and it passes.
fn add_row(
    alloc: Global,
    state: &State,
    at: Stamp,
    filters: &Filters,
    id: u64,
    rows: &mut Vec<ChangesetRow>,
) -> Result<(), Memory>
    ensures { IfOk result (λ _. rows.new.items ≡ rows.old.items
        ++ filter_map (row_at state.now at) (filter (passes_at state.now (passes filters.now.user filters.now.only_open filters.now.only_closed filters.now.within at)) (id ∷ []))) }
{
    let Some(kept) = state.changeset(id) else {
        return Ok(());
    };
    if passes(filters, at, kept) {
        rows.push(changeset_row(alloc, id, kept, at)?)?;
    }
    Ok(())
}

/// The changesets that pass, the newest first. It stops once there are `QUERY_LIMIT`.
pub fn query_changesets(
    alloc: Global,
    state: &State,
    at: Stamp,
    filters: &Filters,
) -> Result<Items<ChangesetRow>, Memory>
    ensures { IfOk result (λ rows. rows
        ≡ query_changesets state.now at filters.now.user filters.now.only_open filters.now.only_closed filters.now.within) }
{
    let mut rows = Vec::new(alloc);
    let mut id = state.changesets.items().len() as u64;
    while id > 0 && rows.len() < QUERY_LIMIT {
        add_row(alloc, state, at, filters, id, &mut rows)?;
        id -= 1;
    }
    Ok(Items::of(rows))
}

// ---- the download

fn is_unmarked(elements: &Elements, work: &Work) -> bool
    ensures { result ≡ is_unmarked elements.now work.now }
{
    match elements.version(work.key, work.version) {
        Some(version) => version.redaction().is_none(),
        None => false,
    }
}

/// Adds a version that was made, if it has no mark.
fn add_work(elements: &Elements, work: &Work, found: &mut Vec<VersionId>) -> Result<(), Memory>
    ensures { IfOk result (λ _. found.new.items ≡ found.old.items ++ map
        (λ w. shown w.key w.version) (filter (is_unmarked elements.now) (work.now ∷ []))) }
{
    if is_unmarked(elements, work) {
        found.push(VersionId {
            key: work.key,
            number: work.version,
        })?;
    }
    Ok(())
}

fn unmarked(alloc: Global, elements: &Elements, works: &[Work]) -> Result<Items<VersionId>, Memory>
    ensures { IfOk result (λ found. found ≡ map (λ w. shown w.key w.version) (filter (is_unmarked elements.now) works.now)) }
{
    let mut found = Vec::with_capacity(alloc, works.len())?;
    for work in works {
        add_work(elements, work, &mut found)?;
    }
    Ok(Items::of(found))
}

/// The versions that a changeset made, deletions too, in that order.
pub fn download(alloc: Global, state: &State, id: u64) -> Result<Items<VersionId>, Fault>
    ensures { Gives (download state.now id) result }
{
    match state.changeset(id) {
        Some(kept) => Ok(unmarked(alloc, &state.elements, kept.did.items())?),
        None => Err(Fault::Refused(Refusal::NoChangeset { id })),
    }
}
