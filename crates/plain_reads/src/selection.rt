//! The map of a box.
ghost use Rattle.std.specs.Prelude.{◌≡◌, ◌⊎◌, IfOk, Err};
ghost use Rattle.osm_model.specs.Selection.{map_of, nodes_within, selection, selected};

use crate::lists::add_ids;
use crate::met::{first_relations, nodes_met, nodes_within, relations_met, ways_met};
use osm_base::{AREA_LIMIT, Box7, Ids, Items, Kind, MAP_NODE_LIMIT, Memory};
use osm_change::{MapFault, Selection, VersionId};
use osm_element::Elements;
use rising_lists::rising_ids_are_told;
use std::alloc::Global;

/// The nodes in a box, the ways that list one of them, all nodes of these ways, the relations that
/// list one of all these, and the relations that list one of those.
pub fn map_of(alloc: Global, elements: &Elements, within: &Box7) -> Result<Selection, MapFault>
    ensures { (result ≡ map_of elements.now within.now) ⊎ (result ≡ Err MapFault.Memory) }
{
    let area = within.area();
    if area > AREA_LIMIT {
        return Err(MapFault::TooLarge { area });
    }
    let Ok(base) = nodes_within(alloc, elements, within) else {
        return Err(MapFault::Memory);
    };
    let nodes = base.len() as u64;
    if nodes > MAP_NODE_LIMIT {
        return Err(MapFault::TooMany { nodes });
    }
    match select(alloc, elements, within, base) {
        Ok(selection) => Ok(selection),
        Err(Memory) => Err(MapFault::Memory),
    }
}

/// What the nodes in the box bring with them.
fn select(
    alloc: Global,
    elements: &Elements,
    within: &Box7,
    base: Vec<u64>,
) -> Result<Selection, Memory>
    requires { base.items ≡ nodes_within elements.now within.now }
    ensures { IfOk result (λ made. made ≡ selection elements.now within.now) }
{
    rising_ids_are_told();
    let ways = ways_met(alloc, elements, base.as_slice())?;
    let nodes = nodes_met(elements, base, ways.as_slice())?;
    let first = first_relations(alloc, elements, nodes.as_slice(), ways.as_slice())?;
    let relations = relations_met(alloc, elements, first.as_slice())?;
    Ok(Selection {
        nodes: Ids::of(nodes),
        ways: Ids::of(ways),
        relations: Ids::of(relations),
    })
}

/// The elements of a selection as they are now: nodes, then ways, then relations.
pub fn selected(
    alloc: Global,
    elements: &Elements,
    selection: &Selection,
) -> Result<Items<VersionId>, Memory>
    ensures { IfOk result (λ found. found ≡ selected elements.now selection.now) }
{
    let nodes = selection.nodes.items();
    let ways = selection.ways.items();
    let relations = selection.relations.items();
    let count = nodes
        .len()
        .saturating_add(ways.len())
        .saturating_add(relations.len());
    let mut found = Vec::with_capacity(alloc, count)?;
    add_ids(elements, Kind::Node, nodes, &mut found)?;
    add_ids(elements, Kind::Way, ways, &mut found)?;
    add_ids(elements, Kind::Relation, relations, &mut found)?;
    Ok(Items::of(found))
}
