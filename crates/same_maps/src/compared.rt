//! Whether the indexed map is the plain one, part by part.
use crate::cells::{Cells, are_cells_same};
use crate::changesets::are_changesets_same;
use crate::histories::are_histories_same;
use crate::maps::are_maps_same;
use crate::same::are_same;
use crate::users::are_users_same;
use osm_base::Memory;
use osm_model::State;
use osm_world::World;
use std::alloc::Global;

/// The first part in which they differ.
pub fn difference(
    alloc: Global,
    state: &State,
    world: &World,
) -> Result<Option<&'static str>, Memory> {
    if world.last_stamp() != state.last {
        return Ok(Some("the last stamp"));
    }
    if !are_histories_same(&state.elements, world) {
        return Ok(Some("histories"));
    }
    if !are_changesets_same(alloc, state.changesets.items(), world.changesets())? {
        return Ok(Some("changesets"));
    }
    if !are_same(state.redactions.items(), world.redactions().titles()) {
        return Ok(Some("redactions"));
    }
    if !are_users_same(alloc, &state.elements, world)? {
        return Ok(Some("users"));
    }
    difference_on_the_globe(alloc, state, world)
}

/// The same of what depends on where nodes lie.
fn difference_on_the_globe(
    alloc: Global,
    state: &State,
    world: &World,
) -> Result<Option<&'static str>, Memory> {
    let cells = Cells::of(alloc, &state.elements)?;
    if !are_cells_same(alloc, &cells, world)? {
        return Ok(Some("cells"));
    }
    if !are_maps_same(alloc, state, world, &cells)? {
        return Ok(Some("maps"));
    }
    Ok(None)
}
