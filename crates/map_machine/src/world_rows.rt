//! Rows of elements and of selections, borrowed from the map.
ghost use Rattle.std.specs.Prelude.{◌≡◌, ◌++◌, ◌∷◌, [], filter_map, map, IfOk};
ghost use Rattle.osm_element.specs.Elements.{key};
ghost use Rattle.osm_model.specs.Ask.{element_row, element_rows};
ghost use Rattle.osm_model.specs.Reads.{current_shown};
ghost use Rattle.osm_model.specs.Selection.{selected};
ghost use Rattle.osm_world.specs.World.{state_of};

use osm_base::{Items, Key, Kind, Memory};
use osm_change::{ElementRow, ElementRows, Selection, VersionId};
use osm_world::World;
use std::alloc::Global;

/// A version with the owner of its changeset, where both are there.
fn element_row(world: &World, shown: VersionId) -> Option<ElementRow<'_>>
    ensures { result ≡ element_row (state_of world.now) shown }
{
    let Some(version) = world.store().version(shown.key, shown.number) else {
        return None;
    };
    let Some(kept) = world.changeset(version.changeset()) else {
        return None;
    };
    Some(ElementRow::of(shown.key, shown.number, version, kept.owner()))
}

/// Adds the row of a version, if there is one.
fn add_row<'a>(
    world: &'a World,
    shown: VersionId,
    rows: &mut Vec<ElementRow<'a>>,
) -> Result<(), Memory>
    ensures { IfOk result (λ _. rows.new.items ≡ rows.old.items ++ filter_map (element_row (state_of world.now)) (shown ∷ [])) }
{
    match element_row(world, shown) {
        Some(row) => {
            rows.push(row)?;
            Ok(())
        }
        None => Ok(()),
    }
}

/// The rows of some versions, in their order. They borrow from the map.
pub fn element_rows<'a>(
    alloc: Global,
    world: &'a World,
    shown: &[VersionId],
) -> Result<ElementRows<'a>, Memory>
    ensures { IfOk result (λ rows. rows ≡ element_rows (state_of world.now) shown.now) }
{
    let mut rows = Vec::with_capacity(alloc, shown.len())?;
    for one in shown {
        add_row(world, *one, &mut rows)?;
    }
    Ok(Items::of(rows))
}

/// An element as it is now.
fn current(world: &World, key: Key) -> VersionId
    ensures { result ≡ current_shown (state_of world.now).elements key }
{
    let number = world.store().count(key);
    VersionId { key, number }
}

/// Adds the row of each of some elements of a kind, as it is now.
fn add_current<'a>(
    world: &'a World,
    kind: Kind,
    ids: &[u64],
    rows: &mut Vec<ElementRow<'a>>,
) -> Result<(), Memory>
    ensures { IfOk result (λ _. rows.new.items ≡ rows.old.items ++ element_rows (state_of world.now) (map
        (λ id. current_shown (state_of world.now).elements (key kind id)) ids.now)) }
{
    for id in ids {
        let shown = current(world, Key { kind, id: *id });
        add_row(world, shown, rows)?;
    }
    Ok(())
}

/// Adds the first rows, those of a selection's elements.
#[tactic(auto, using(crate::proofs::RowSteps::rows_of_three))]
fn add_selected<'a>(
    world: &'a World,
    selection: &Selection,
    rows: &mut Vec<ElementRow<'a>>,
) -> Result<(), Memory>
    requires { rows.old.items ≡ [] }
    ensures { IfOk result (λ _. rows.new.items ≡ element_rows (state_of world.now) (selected (state_of world.now).elements selection.now)) }
{
    add_current(world, Kind::Node, selection.nodes.items(), rows)?;
    add_current(world, Kind::Way, selection.ways.items(), rows)?;
    add_current(world, Kind::Relation, selection.relations.items(), rows)?;
    Ok(())
}

/// The rows of a selection's elements, as they are now: nodes, then ways, then relations.
pub fn selected_rows<'a>(
    alloc: Global,
    world: &'a World,
    selection: &Selection,
) -> Result<ElementRows<'a>, Memory>
    ensures { IfOk result (λ rows. rows ≡ element_rows (state_of world.now) (selected (state_of world.now).elements selection.now)) }
{
    let count = selection
        .nodes
        .len()
        .saturating_add(selection.ways.len())
        .saturating_add(selection.relations.len());
    let mut rows = Vec::with_capacity(alloc, count)?;
    add_selected(world, selection, &mut rows)?;
    Ok(Items::of(rows))
}
