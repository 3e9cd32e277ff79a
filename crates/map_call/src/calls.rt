//! The map of a box.
ghost use Rattle.std.specs.Prelude.{◌≡◌, ◌⊎◌, ◌+◌, ◌≤◌, length, IfOk, Err};
ghost use Rattle.osm_model.specs.Selection.{map_of, nodes_within, selection};
ghost use Rattle.osm_world.specs.World.{state_of};
ghost use Rattle.map_call.specs.Near.{nodes_near};

use crate::met::{first_relations, nodes_of_ways, relations_met, united, users_of_nodes};
use crate::within::nodes_within;
use osm_base::{AREA_LIMIT, Box7, Ids, MAP_NODE_LIMIT, Memory, Steps};
use osm_change::{MapFault, Selection};
use osm_world::World;
use rising_lists::{rising_ids_are_told, sorted_once};
use std::alloc::Global;
use std::sync::ledger::Ledger;

/// The nodes in a box, the ways that list one of them, all nodes of these ways, the relations that
/// list one of all these, and the relations that list one of those. Each look at where a node lies
/// counts a step.
pub fn map<L: Ledger>(
    alloc: Global,
    world: &World,
    within: Box7,
    steps: &mut Steps<L>,
) -> Result<Selection, MapFault>
    ensures answer { (result ≡ map_of (state_of world.now).elements within) ⊎ (result ≡ Err MapFault.Memory) }
    ensures steps { steps.new ≤ steps.old + length (nodes_near (state_of world.now).elements within) }
{
    let area = within.area();
    if area > AREA_LIMIT {
        return Err(MapFault::TooLarge { area });
    }
    let base = nodes_within(alloc, world, &within, steps)?;
    let nodes = base.len() as u64;
    if nodes > MAP_NODE_LIMIT {
        return Err(MapFault::TooMany { nodes });
    }
    let selection = select(alloc, world, &within, base)?;
    Ok(selection)
}

/// What the nodes in the box bring with them. The users of each element are gone through once.
fn select(alloc: Global, world: &World, within: &Box7, base: Vec<u64>) -> Result<Selection, Memory>
    requires { base.items ≡ nodes_within (state_of world.now).elements within.now }
    ensures { IfOk result (λ made. made ≡ selection (state_of world.now).elements within.now) }
{
    rising_ids_are_told();
    world.laws();
    let users = users_of_nodes(alloc, world, base.as_slice())?;
    let ways = sorted_once(users.ways);
    let listed = nodes_of_ways(alloc, world, ways.as_slice())?;
    let first = first_relations(
        world,
        base.as_slice(),
        listed.as_slice(),
        ways.as_slice(),
        users.relations,
    )?;
    let relations = relations_met(alloc, world, first.as_slice())?;
    let nodes = united(base, listed.as_slice())?;
    Ok(Selection {
        nodes: Ids::of(nodes),
        ways: Ids::of(ways),
        relations: Ids::of(relations),
    })
}
