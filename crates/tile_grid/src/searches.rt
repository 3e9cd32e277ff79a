//! Searches among the cells of a row.
ghost use Rattle.std.specs.Prelude.{◌≡◌, ◌==◌, ◌&&◌, ◌||◌, ℕ, ◌<◌, ◌≤◌, length, slice_index_or, MatchResult, IfOk, OnOk};
ghost use Rattle.std.specs.List.{list_any};
ghost use Rattle.std.specs.List.Sorted.{IsNonDecreasingBy};
ghost use Rattle.rising_lists.specs.Ids.{lists_id};
ghost use Rattle.tile_grid.specs.Cell.{is_between};
ghost use Rattle.tile_grid.specs.Tile.{Held, column_in, find, ids_in, IsFoundAt, IsGapAt, IsWestToEast};

use crate::parts::Part;
use crate::tiles::Tile;
use osm_base::Memory;
use std::alloc::Global;

/// How many cells stand west of a column, found by halving.
fn first_from(tiles: &[Tile], column: u32) -> usize
    requires { IsNonDecreasingBy column_in tiles.now }
    ensures within { result ≤ length tiles.now }
    ensures west { (k : ℕ) (d : Held) → k < result → (slice_index_or tiles.now k d).column < column }
    ensures east { (k : ℕ) (d : Held) → result ≤ k → k < length tiles.now → column ≤ (slice_index_or tiles.now k d).column }
{
    tiles.partition_point(|tile| tile.column() < column)
}

/// How many cells don't stand east of a column, found by halving.
fn first_past(tiles: &[Tile], column: u32) -> usize
    requires { IsNonDecreasingBy column_in tiles.now }
    ensures within { result ≤ length tiles.now }
    ensures west { (k : ℕ) (d : Held) → k < result → (slice_index_or tiles.now k d).column ≤ column }
    ensures east { (k : ℕ) (d : Held) → result ≤ k → k < length tiles.now → column < (slice_index_or tiles.now k d).column }
{
    tiles.partition_point(|tile| tile.column() <= column)
}

/// Where the cell of a column stands, or where it would.
pub fn find_tile(tiles: &[Tile], column: u32) -> Result<usize, usize>
    requires { IsWestToEast tiles.now }
    ensures { MatchResult result (IsFoundAt tiles.now column) (IsGapAt tiles.now column) }
{
    let place = first_from(tiles, column);
    if place == tiles.len() {
        return Err(place);
    }
    if tiles[place].column() == column {
        Ok(place)
    } else {
        Err(place)
    }
}

/// Where the cell of a column stands, which is made if there is none.
pub fn make_tile(alloc: Global, tiles: &mut Vec<Tile>, column: u32) -> Result<usize, Memory>
    requires { IsWestToEast tiles.old.items }
    ensures order { IsWestToEast tiles.new.items }
    ensures same { (c : ℕ) → find tiles.new.items c ≡ find tiles.old.items c }
    ensures made { IfOk result (IsFoundAt tiles.new.items column) }
{
    match find_tile(tiles.as_slice(), column) {
        Ok(place) => Ok(place),
        Err(place) => {
            tiles.insert(place, Tile::none(alloc, column))?;
            Ok(place)
        }
    }
}

/// Adds the nodes of a part between two columns, ends included, to a list.
pub fn list_between(
    tiles: &[Tile],
    part: Part,
    first: u32,
    last: u32,
    ids: &mut Vec<u64>,
) -> Result<(), Memory>
    requires { IsWestToEast tiles.now }
    ensures { OnOk result ((id : ℕ) → lists_id ids.new.items id ≡ lists_id ids.old.items id || list_any
        (λ t. is_between first t.column last && lists_id (ids_in part t) id) tiles.now) }
{
    let from = first_from(tiles, first);
    let to = first_past(tiles, last);
    if to <= from {
        return Ok(());
    }
    list_tiles(&tiles[from..to], part, ids)?;
    Ok(())
}

fn list_tiles(tiles: &[Tile], part: Part, ids: &mut Vec<u64>) -> Result<(), Memory>
    ensures { OnOk result ((id : ℕ) → lists_id ids.new.items id ≡ lists_id ids.old.items id
        || list_any (λ t. lists_id (ids_in part t) id) tiles.now) }
{
    for tile in tiles {
        list_ids(tile.ids(part), ids)?;
    }
    Ok(())
}

fn list_ids(more: &[u64], ids: &mut Vec<u64>) -> Result<(), Memory>
    ensures { OnOk result ((id : ℕ) → lists_id ids.new.items id ≡ lists_id ids.old.items id || lists_id more.now id) }
{
    ids.extend_from_slice(more)?;
    Ok(())
}
