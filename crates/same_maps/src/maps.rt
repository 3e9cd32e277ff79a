//! Whether the map call selects the same elements on both maps.
ghost use Rattle.std.specs.Prelude.{◌≡◌, ◌<◌};

use crate::cells::Cells;
use map_call::map;
use osm_base::{Box7, Key, Kind, Memory, Steps};
use osm_change::{Answer, ElementRow, MapFault, Selection};
use osm_model::{Query, State};
use osm_world::World;
use plain_reads::plain_ask;
use std::alloc::Global;
use std::marker::Brand;
use std::sync::ledger::{Blank, Ledger};

/// In how many boxes the map is called after each entry.
const BOXES: usize = 8;

/// Of boxes that cut through cells, at places spread over those that a node was ever in.
pub fn are_maps_same(
    alloc: Global,
    state: &State,
    world: &World,
    cells: &Cells,
) -> Result<bool, Memory> {
    are_same_on::<Brand>(alloc, state, world, cells, Blank::new(1))
}

fn are_same_on<L: Ledger>(
    alloc: Global,
    state: &State,
    world: &World,
    cells: &Cells,
    blank: Blank,
) -> Result<bool, Memory>
    requires name { blank.name ≡ L.name }
    requires parts { blank.parts ≡ L.parts }
    requires some { 0 < blank.parts }
{
    let (ledger, share) = blank.open::<L>();
    let mut steps = Steps::of(ledger, share);
    for number in 0..BOXES {
        let place = number.saturating_mul(cells.len()) / BOXES;
        if let Some(within) = cells.corner_of(place) {
            if !is_map_same(alloc, state, world, within, &mut steps)? {
                return Ok(false);
            }
        }
    }
    Ok(true)
}

fn is_map_same<L: Ledger>(
    alloc: Global,
    state: &State,
    world: &World,
    within: Box7,
    steps: &mut Steps<L>,
) -> Result<bool, Memory> {
    match map(alloc, world, within, steps) {
        Ok(came) => is_plain_map(alloc, state, within, &came),
        Err(MapFault::Memory) => Err(Memory),
        Err(_) => Ok(false),
    }
}

/// Whether the plain map selects those elements.
fn is_plain_map(
    alloc: Global,
    state: &State,
    within: Box7,
    came: &Selection,
) -> Result<bool, Memory> {
    match plain_ask(alloc, state, 0, &Query::Map { within }) {
        Ok(plain) => Ok(is_answered(&plain, came)),
        Err(Memory) => Err(Memory),
    }
}

fn is_answered(plain: &Answer<'_>, came: &Selection) -> bool {
    match plain {
        Answer::Elements { bounds: _, rows } => is_selected(rows.items(), came),
        _ => false,
    }
}

/// Whether the rows are of those elements: nodes, then ways, then relations.
fn is_selected(rows: &[ElementRow<'_>], selection: &Selection) -> bool {
    let nodes = selection.nodes.items();
    let ways = selection.ways.items();
    let relations = selection.relations.items();
    let first_relation = nodes.len().saturating_add(ways.len());
    rows.len() == first_relation.saturating_add(relations.len())
        && are_ids_at(rows, 0, Kind::Node, nodes)
        && are_ids_at(rows, nodes.len(), Kind::Way, ways)
        && are_ids_at(rows, first_relation, Kind::Relation, relations)
}

fn are_ids_at(rows: &[ElementRow<'_>], place: usize, kind: Kind, ids: &[u64]) -> bool {
    for (row, id) in rows.iter().skip(place).zip(ids.iter()) {
        if !row.key.is(Key { kind, id: *id }) {
            return false;
        }
    }
    true
}
