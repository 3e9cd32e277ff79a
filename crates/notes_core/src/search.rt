//! The notes in a box, by the cells that it touches.
//!
//! A search asks the cells that its box touches, in the same grid as the map's nodes. A note
//! doesn't move and is never taken away, so the grid only grows; closed notes stay in it, since a
//! search may ask for them.
ghost use Rattle.std.specs.Prelude.{◌≡◌, IfOk};
ghost use Rattle.osm_base.specs.Place.{IsArea};
ghost use Rattle.notes_core.specs.Near.{notes_near};
ghost use Rattle.notes_core.specs.Search.{is_shown, notes_within, newest_within};
ghost use Rattle.notes_core.specs.World.{state_of};

use crate::limits::NOTES_LIMIT;
use crate::worlds::NotesWorld;
use osm_base::{Box7, Memory};
use rising_lists::rising_ids_are_told;
use std::alloc::Global;
use tile_grid::boxes_touch_what_they_hold;

/// The notes in the cells that a box touches, by number.
fn notes_near(alloc: Global, world: &NotesWorld, within: &Box7) -> Result<Vec<u64>, Memory>
    ensures { IfOk result (λ ids. ids.items ≡ notes_near (state_of world.now) within.now) }
{
    rising_ids_are_told();
    let ids = world.cells().rows_of(alloc, within)?;
    Ok(ids)
}

/// Whether a note is there, lies in the box, and is open or may be closed.
fn is_shown(world: &NotesWorld, within: &Box7, closed: bool, id: u64) -> bool
    ensures { result ≡ is_shown (state_of world.now) within.now closed id }
{
    match world.note(id) {
        Some(kept) => within.holds(kept.at()) && (closed || kept.closed().is_none()),
        None => false,
    }
}

/// The notes in a box, by number. Only those near it are looked at.
fn notes_within(
    alloc: Global,
    world: &NotesWorld,
    within: &Box7,
    closed: bool,
) -> Result<Vec<u64>, Memory>
    requires { IsArea within.now.left within.now.bottom within.now.right within.now.top }
    ensures { IfOk result (λ ids. ids.items ≡ notes_within (state_of world.now) within.now closed) }
{
    boxes_touch_what_they_hold();
    let near = notes_near(alloc, world, within)?;
    let mut ids = Vec::new(alloc);
    for id in &near {
        if is_shown(world, within, closed, *id) {
            ids.push(*id)?;
        }
    }
    Ok(ids)
}

/// The newest notes in a box, the newest first, at most `NOTES_LIMIT`.
pub(crate) fn newest_within(
    alloc: Global,
    world: &NotesWorld,
    within: &Box7,
    closed: bool,
) -> Result<Vec<u64>, Memory>
    requires { IsArea within.now.left within.now.bottom within.now.right within.now.top }
    ensures { IfOk result (λ ids. ids.items ≡ newest_within (state_of world.now) within.now closed) }
{
    let mut ids = notes_within(alloc, world, within, closed)?;
    ids.reverse();
    ids.truncate(NOTES_LIMIT);
    Ok(ids)
}
