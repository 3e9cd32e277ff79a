//! Rows of versions, borrowed from the map.
//!
//! A row is made where the version and its changeset are there, which a law says of each version
//! that the rules ever make (`versions_are_attributed`). The definition leaves out what isn't
//! there, so that it needs no arbitrary owner.
ghost use Rattle.std.specs.Prelude.{◌≡◌, ◌++◌, ◌∷◌, [], filter_map, IfOk};
ghost use Rattle.osm_model.specs.Ask.{element_row, element_rows};

use osm_base::{Items, Memory};
use osm_change::{ElementRow, ElementRows, VersionId};
use osm_model::State;
use std::alloc::Global;

/// A version with the owner of its changeset, where both are there.
fn element_row(state: &State, shown: VersionId) -> Option<ElementRow<'_>>
    ensures { result ≡ element_row state.now shown }
{
    let Some(version) = state.elements.version(shown.key, shown.number) else {
        return None;
    };
    let Some(kept) = state.changeset(version.changeset()) else {
        return None;
    };
    Some(ElementRow::of(shown.key, shown.number, version, &kept.owner))
}

/// Adds the row of a version, if there is one.
fn add_row<'a>(
    state: &'a State,
    shown: &VersionId,
    rows: &mut Vec<ElementRow<'a>>,
) -> Result<(), Memory>
    ensures { IfOk result (λ _. rows.new.items ≡ rows.old.items ++ filter_map (element_row state.now) (shown.now ∷ [])) }
{
    match element_row(state, *shown) {
        Some(row) => {
            rows.push(row)?;
            Ok(())
        }
        None => Ok(()),
    }
}

/// The rows of some versions, in their order. They borrow from the map.
pub fn element_rows<'a>(
    alloc: Global,
    state: &'a State,
    shown: &[VersionId],
) -> Result<ElementRows<'a>, Memory>
    ensures { IfOk result (λ rows. rows ≡ element_rows state.now shown.now) }
{
    let mut rows = Vec::with_capacity(alloc, shown.len())?;
    for one in shown {
        add_row(state, one, &mut rows)?;
    }
    Ok(Items::of(rows))
}
