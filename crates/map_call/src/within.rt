//! The nodes of a box, by the cells that it touches.
//!
//! A map call counts a step for each node whose position it asks: at most those in the touched
//! cells. Whether a node of a way is visible needs no position, since what a visible way lists is
//! visible.
ghost use Rattle.std.specs.Prelude.{◌≡◌, ◌+◌, ◌≤◌, length, IfOk};
ghost use Rattle.osm_base.specs.Place.{IsArea};
ghost use Rattle.osm_model.specs.Selection.{nodes_within};
ghost use Rattle.osm_world.specs.World.{state_of};
ghost use Rattle.map_call.specs.Near.{nodes_near};

use osm_base::{Box7, Memory, Steps};
use osm_world::World;
use rising_lists::rising_ids_are_told;
use std::alloc::Global;
use std::sync::ledger::Ledger;
use tile_grid::boxes_touch_what_they_hold;

/// The visible nodes in the cells that a box touches, by id.
fn nodes_near(alloc: Global, world: &World, within: &Box7) -> Result<Vec<u64>, Memory>
    ensures { IfOk result (λ ids. ids.items ≡ nodes_near (state_of world.now).elements within.now) }
{
    rising_ids_are_told();
    let ids = world.grid().rows_of(alloc, within)?;
    Ok(ids)
}

/// The visible nodes in a box, by id. Each node near it counts a step.
pub fn nodes_within<L: Ledger>(
    alloc: Global,
    world: &World,
    within: &Box7,
    steps: &mut Steps<L>,
) -> Result<Vec<u64>, Memory>
    requires { IsArea within.now.left within.now.bottom within.now.right within.now.top }
    ensures nodes { IfOk result (λ ids. ids.items ≡ nodes_within (state_of world.now).elements within.now) }
    ensures steps { steps.new ≤ steps.old + length (nodes_near (state_of world.now).elements within.now) }
{
    boxes_touch_what_they_hold();
    let near = nodes_near(alloc, world, within)?;
    let store = world.store();
    let mut ids = Vec::new(alloc);
    for id in &near {
        if let Some(at) = store.position(*id, steps) {
            if within.holds(at) {
                ids.push(*id)?;
            }
        }
    }
    Ok(ids)
}
