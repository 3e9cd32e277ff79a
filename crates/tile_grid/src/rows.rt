//! The cells of one row of the globe.
ghost use Rattle.std.specs.Prelude.{◌≡◌, ◌==◌, ◌&&◌, ◌||◌, ℕ, [], ◌+◌, ◌-◌, ◌<◌, is_ok, if◌then◌else◌, OnOk};
ghost use Rattle.std.specs.List.{list_any};
ghost use Rattle.rising_lists.specs.Ids.{lists_id};
ghost use Rattle.tile_grid.specs.Cell.{is_between};
ghost use Rattle.tile_grid.specs.Tile.{find, ids_in, times_in, IsFoundAt, IsWestToEast};

use crate::parts::Part;
use crate::searches::{find_tile, list_between, make_tile};
use crate::tiles::Tile;
use osm_base::Memory;
use std::alloc::Global;
use std::marker::Model;

/// The cells of a row that have been promised a node, from west to east. A cell stays when its last
/// node leaves.
#[derive(Drop)]
pub struct TileRow {
    tiles: Vec<Tile>,
}

impl Model for TileRow {
    ghost use Rattle.std.specs.Prelude.{List};
    ghost use Rattle.tile_grid.specs.Tile.{Held, IsWestToEast};

    ghost Value = { List Held };

    ghost view = { λ r. r.tiles.items };

    ghost invariant = { λ r. IsWestToEast r.tiles.items };
}

impl TileRow {
    /// No cells. It takes no memory.
    pub fn none(alloc: Global) -> TileRow
        ensures { result ≡ [] }
    {
        TileRow {
            tiles: Vec::new(alloc),
        }
    }

    /// Promises room for one more node at a column. `Memory` leaves what was promised.
    pub fn promise(&mut self, alloc: Global, column: u32) -> Result<(), Memory>
        ensures ids { (c : ℕ) → (find self.new c).ids ≡ (find self.old c).ids }
        ensures ever { (c : ℕ) → (find self.new c).ever ≡ (find self.old c).ever }
        ensures free { (c : ℕ) → (find self.new c).free ≡ (find self.old c).free + (if is_ok result && (c == column) then 1 else 0) }
    {
        promise_in(alloc, &mut self.tiles, column)
    }

    /// Takes one promise at a column back.
    pub fn release(&mut self, column: u32)
        requires { 0 < (find self.old column).free }
        ensures ids { (c : ℕ) → (find self.new c).ids ≡ (find self.old c).ids }
        ensures ever { (c : ℕ) → (find self.new c).ever ≡ (find self.old c).ever }
        ensures free { (c : ℕ) → (find self.new c).free + (if c == column then 1 else 0) ≡ (find self.old c).free }
    {
        release_in(&mut self.tiles, column);
    }

    /// Takes every promise at a column back.
    pub fn forget(&mut self, column: u32)
        ensures ids { (c : ℕ) → (find self.new c).ids ≡ (find self.old c).ids }
        ensures ever { (c : ℕ) → (find self.new c).ever ≡ (find self.old c).ever }
        ensures free { (c : ℕ) → (find self.new c).free ≡ (if c == column then 0 else (find self.old c).free) }
    {
        forget_in(&mut self.tiles, column);
    }

    /// Places a node, on promised room.
    pub fn place(&mut self, column: u32, id: u64)
        requires { 0 < (find self.old column).free }
        ensures ids { (c other : ℕ)
            → times_in (find self.new c).ids other ≡ times_in (find self.old c).ids other + (if (c == column) && (other == id) then 1 else 0) }
        ensures ever { (c other : ℕ)
            → times_in (find self.new c).ever other ≡ times_in (find self.old c).ever other + (if (c == column) && (other == id) then 1 else 0) }
        ensures free { (c : ℕ) → (find self.new c).free + (if c == column then 1 else 0) ≡ (find self.old c).free }
    {
        place_in(&mut self.tiles, column, id);
    }

    /// A node leaves. Its room isn't promised.
    pub fn leave(&mut self, column: u32, id: u64)
        requires { 0 < times_in (find self.old column).ids id }
        ensures ids { (c other : ℕ) → times_in (find self.new c).ids other + (if (c == column) && (other == id) then 1 else 0)
            ≡ times_in (find self.old c).ids other }
        ensures ever { (c other : ℕ) → times_in (find self.new c).ever other ≡ times_in (find self.old c).ever other }
        ensures free { (c : ℕ) → (find self.new c).free ≡ (find self.old c).free }
    {
        leave_in(&mut self.tiles, column, id);
    }

    /// A node that left comes back.
    pub fn come_back(&mut self, column: u32, id: u64)
        requires { times_in (find self.old column).ids id < times_in (find self.old column).ever id }
        ensures ids { (c other : ℕ)
            → times_in (find self.new c).ids other ≡ times_in (find self.old c).ids other + (if (c == column) && (other == id) then 1 else 0) }
        ensures ever { (c other : ℕ) → times_in (find self.new c).ever other ≡ times_in (find self.old c).ever other }
        ensures free { (c : ℕ) → (find self.new c).free ≡ (find self.old c).free }
    {
        come_back_in(&mut self.tiles, column, id);
    }

    /// Adds the nodes of a part between two columns, ends included, to a list. It looks at no cell
    /// outside.
    pub fn list(&self, part: Part, first: u32, last: u32, ids: &mut Vec<u64>) -> Result<(), Memory>
        ensures order { IsWestToEast self.now }
        ensures ids { OnOk result ((id : ℕ) → lists_id ids.new.items id ≡ lists_id ids.old.items id || list_any
            (λ t. is_between first t.column last && lists_id (ids_in part t) id) self.now) }
    {
        list_between(self.tiles.as_slice(), part, first, last, ids)
    }
}

fn promise_in(alloc: Global, tiles: &mut Vec<Tile>, column: u32) -> Result<(), Memory>
    requires { IsWestToEast tiles.old.items }
    ensures order { IsWestToEast tiles.new.items }
    ensures ids { (c : ℕ) → (find tiles.new.items c).ids ≡ (find tiles.old.items c).ids }
    ensures ever { (c : ℕ) → (find tiles.new.items c).ever ≡ (find tiles.old.items c).ever }
    ensures free { (c : ℕ) → (find tiles.new.items c).free ≡ (find tiles.old.items c).free + (if is_ok result && (c == column) then 1 else 0) }
{
    let place = make_tile(alloc, tiles, column)?;
    promise_at(tiles, column, place)
}

fn promise_at(tiles: &mut Vec<Tile>, column: u32, place: usize) -> Result<(), Memory>
    requires order { IsWestToEast tiles.old.items }
    requires found { IsFoundAt tiles.old.items column place }
    ensures order { IsWestToEast tiles.new.items }
    ensures ids { (c : ℕ) → (find tiles.new.items c).ids ≡ (find tiles.old.items c).ids }
    ensures ever { (c : ℕ) → (find tiles.new.items c).ever ≡ (find tiles.old.items c).ever }
    ensures free { (c : ℕ) → (find tiles.new.items c).free ≡ (find tiles.old.items c).free + (if is_ok result && (c == column) then 1 else 0) }
{
    tiles[place].promise()
}

fn release_in(tiles: &mut Vec<Tile>, column: u32)
    requires order { IsWestToEast tiles.old.items }
    requires promised { 0 < (find tiles.old.items column).free }
    ensures order { IsWestToEast tiles.new.items }
    ensures ids { (c : ℕ) → (find tiles.new.items c).ids ≡ (find tiles.old.items c).ids }
    ensures ever { (c : ℕ) → (find tiles.new.items c).ever ≡ (find tiles.old.items c).ever }
    ensures free { (c : ℕ) → (find tiles.new.items c).free + (if c == column then 1 else 0) ≡ (find tiles.old.items c).free }
{
    let Ok(place) = find_tile(tiles.as_slice(), column) else {
        unreachable!()
    };
    tiles[place].release();
}

fn place_in(tiles: &mut Vec<Tile>, column: u32, id: u64)
    requires order { IsWestToEast tiles.old.items }
    requires promised { 0 < (find tiles.old.items column).free }
    ensures order { IsWestToEast tiles.new.items }
    ensures ids { (c other : ℕ) → times_in (find tiles.new.items c).ids other
        ≡ times_in (find tiles.old.items c).ids other + (if (c == column) && (other == id) then 1 else 0) }
    ensures ever { (c other : ℕ) → times_in (find tiles.new.items c).ever other
        ≡ times_in (find tiles.old.items c).ever other + (if (c == column) && (other == id) then 1 else 0) }
    ensures free { (c : ℕ) → (find tiles.new.items c).free + (if c == column then 1 else 0) ≡ (find tiles.old.items c).free }
{
    let Ok(place) = find_tile(tiles.as_slice(), column) else {
        unreachable!()
    };
    tiles[place].place(id);
}

fn leave_in(tiles: &mut Vec<Tile>, column: u32, id: u64)
    requires order { IsWestToEast tiles.old.items }
    requires there { 0 < times_in (find tiles.old.items column).ids id }
    ensures order { IsWestToEast tiles.new.items }
    ensures ids { (c other : ℕ) → times_in (find tiles.new.items c).ids other + (if (c == column) && (other == id) then 1 else 0)
        ≡ times_in (find tiles.old.items c).ids other }
    ensures ever { (c other : ℕ) → times_in (find tiles.new.items c).ever other ≡ times_in (find tiles.old.items c).ever other }
    ensures free { (c : ℕ) → (find tiles.new.items c).free ≡ (find tiles.old.items c).free }
{
    let Ok(place) = find_tile(tiles.as_slice(), column) else {
        unreachable!()
    };
    tiles[place].leave(id);
}

fn come_back_in(tiles: &mut Vec<Tile>, column: u32, id: u64)
    requires order { IsWestToEast tiles.old.items }
    requires left { times_in (find tiles.old.items column).ids id < times_in (find tiles.old.items column).ever id }
    ensures order { IsWestToEast tiles.new.items }
    ensures ids { (c other : ℕ) → times_in (find tiles.new.items c).ids other
        ≡ times_in (find tiles.old.items c).ids other + (if (c == column) && (other == id) then 1 else 0) }
    ensures ever { (c other : ℕ) → times_in (find tiles.new.items c).ever other ≡ times_in (find tiles.old.items c).ever other }
    ensures free { (c : ℕ) → (find tiles.new.items c).free ≡ (find tiles.old.items c).free }
{
    let Ok(place) = find_tile(tiles.as_slice(), column) else {
        unreachable!()
    };
    tiles[place].come_back(id);
}

fn forget_in(tiles: &mut Vec<Tile>, column: u32)
    requires { IsWestToEast tiles.old.items }
    ensures order { IsWestToEast tiles.new.items }
    ensures ids { (c : ℕ) → (find tiles.new.items c).ids ≡ (find tiles.old.items c).ids }
    ensures ever { (c : ℕ) → (find tiles.new.items c).ever ≡ (find tiles.old.items c).ever }
    ensures free { (c : ℕ) → (find tiles.new.items c).free ≡ (if c == column then 0 else (find tiles.old.items c).free) }
{
    match find_tile(tiles.as_slice(), column) {
        Ok(place) => tiles[place].forget(),
        Err(_) => {}
    }
}
