//! Room that is promised for one entry, and taken back.
//!
//! An element that uses another, or did, stands in its row, where it comes back without room. So of a
//! way that is edited only the nodes that are new to it are promised any.
ghost use Rattle.std.specs.Prelude.{◌≡◌, false, ℕ, ◌+◌, ◌<◌, ◌≤◌, ◌&&◌, not, if◌then◌else◌, OnOk};
ghost use Rattle.std.specs.List.{list_any};
ghost use Rattle.osm_base.specs.Key.{key_eq, lists_key};
ghost use Rattle.osm_base.specs.Place.{Position};
ghost use Rattle.osm_base.specs.declared.keys.Key.{Key};
ghost use Rattle.history_store.specs.Store.{free};
ghost use Rattle.reverse_refs.specs.Users.{users_in, past_in, knows, free_in};
ghost use Rattle.tile_grid.specs.declared.cells.Cell.{Cell};
ghost use Rattle.tile_grid.specs.Grid.{times, times_ever, free_at, same_cell};
ghost use Rattle.indexed_map.specs.Indexed.{times_unknown};
ghost use Rattle.indexed_map.specs.Placed.{enters};

use history_store::{Store, Want};
use osm_base::{Coord, Key, Memory};
use reverse_refs::{Pair, UserIndex};
use std::alloc::Global;
use tile_grid::Grid;

/// Promises room for one more version of an element, which is noted.
pub fn promise_version(
    alloc: Global,
    store: &mut Store,
    key: Key,
    noted: &mut Vec<Key>,
) -> Result<(), Memory>
    requires { 0 < key.id }
    ensures elements { store.new.elements ≡ store.old.elements }
    ensures room { OnOk result ((k : Key) → free store.new.room k ≡ free store.old.room k + (if key_eq k key then 1 else 0)) }
    ensures noted { (k : Key) → lists_key noted.new.items k ≡ false → (lists_key noted.old.items k ≡ false)
        × (free store.new.room k ≡ free store.old.room k) }
{
    noted.push(key)?;
    store.promise(alloc, Want { key, versions: 1 })
}

/// Promises room for a user in the row of each element that is listed, unless it stands there. Each
/// that is promised room is noted.
pub fn promise_uses(
    alloc: Global,
    users: &mut UserIndex,
    user: Key,
    listed: &[Key],
    noted: &mut Vec<Key>,
) -> Result<(), Memory>
    ensures users { (b : Key) → users_in users.new b ≡ users_in users.old b }
    ensures past { (b : Key) → past_in users.new b ≡ past_in users.old b }
    ensures room { OnOk result ((b : Key) → free_in users.new b ≡ free_in users.old b + times_unknown users.old user listed.now b) }
    ensures noted { (b : Key) → lists_key noted.new.items b ≡ false → (lists_key noted.old.items b ≡ false)
        × (free_in users.new b ≡ free_in users.old b) }
{
    for used in listed {
        let pair = Pair { user, used: *used };
        promise_use(alloc, users, pair, noted)?;
    }
    Ok(())
}

fn promise_use(
    alloc: Global,
    users: &mut UserIndex,
    pair: Pair,
    noted: &mut Vec<Key>,
) -> Result<(), Memory>
    ensures users { (b : Key) → users_in users.new b ≡ users_in users.old b }
    ensures past { (b : Key) → past_in users.new b ≡ past_in users.old b }
    ensures room { OnOk result ((b : Key)
        → free_in users.new b ≡ free_in users.old b + (if key_eq b pair.used && not (knows users.old b pair.user) then 1 else 0)) }
    ensures noted { (b : Key) → lists_key noted.new.items b ≡ false → (lists_key noted.old.items b ≡ false)
        × (free_in users.new b ≡ free_in users.old b) }
{
    if users.knows(pair) {
        return Ok(());
    }
    noted.push(pair.used)?;
    users.promise(alloc, pair.used)
}

/// Promises room for one more node in the cell of a position, if there is one. It is noted.
pub fn promise_place(
    alloc: Global,
    grid: &mut Grid,
    at: Option<Coord>,
    noted: &mut Vec<Coord>,
) -> Result<(), Memory>
    ensures nodes { (c : Cell) (n : ℕ) → times grid.new c n ≡ times grid.old c n }
    ensures ever { (c : Cell) (n : ℕ) → times_ever grid.new c n ≡ times_ever grid.old c n }
    ensures room { OnOk result ((p : Position) → free_at grid.new p ≡ free_at grid.old p + (if enters p at then 1 else 0)) }
    ensures noted { (p : Position) → list_any (same_cell p) noted.new.items ≡ false → (list_any (same_cell p) noted.old.items ≡ false)
        × (free_at grid.new p ≡ free_at grid.old p) }
{
    match at {
        Some(at) => promise_at(alloc, grid, at, noted),
        None => Ok(()),
    }
}

fn promise_at(
    alloc: Global,
    grid: &mut Grid,
    at: Coord,
    noted: &mut Vec<Coord>,
) -> Result<(), Memory>
    ensures nodes { (c : Cell) (n : ℕ) → times grid.new c n ≡ times grid.old c n }
    ensures ever { (c : Cell) (n : ℕ) → times_ever grid.new c n ≡ times_ever grid.old c n }
    ensures room { OnOk result ((p : Position) → free_at grid.new p ≡ free_at grid.old p + (if same_cell p at then 1 else 0)) }
    ensures noted { (p : Position) → list_any (same_cell p) noted.new.items ≡ false → (list_any (same_cell p) noted.old.items ≡ false)
        × (free_at grid.new p ≡ free_at grid.old p) }
{
    noted.push(at)?;
    grid.room(alloc, &[at])?;
    Ok(())
}

/// Takes back what is promised for versions of these elements.
pub fn forget_versions(store: &mut Store, keys: &[Key])
    ensures elements { store.new.elements ≡ store.old.elements }
    ensures room { (k : Key) → free store.new.room k ≡ (if lists_key keys.now k then 0 else free store.old.room k) }
{
    for key in keys {
        forget_version(store, *key);
    }
}

/// There are no versions of an element with id 0.
fn forget_version(store: &mut Store, key: Key)
    ensures elements { store.new.elements ≡ store.old.elements }
    ensures room { (k : Key) → free store.new.room k ≡ (if key_eq k key then 0 else free store.old.room k) }
{
    if key.id > 0 {
        store.forget(key);
    }
}

/// Takes back what is promised for users of these elements.
pub fn forget_uses(users: &mut UserIndex, listed: &[Key])
    ensures users { (b : Key) → users_in users.new b ≡ users_in users.old b }
    ensures past { (b : Key) → past_in users.new b ≡ past_in users.old b }
    ensures room { (b : Key) → free_in users.new b ≡ (if lists_key listed.now b then 0 else free_in users.old b) }
{
    for used in listed {
        users.forget(*used);
    }
}

/// Takes back what is promised for the cells of these positions.
pub fn forget_places(grid: &mut Grid, places: &[Coord])
    ensures nodes { (c : Cell) (n : ℕ) → times grid.new c n ≡ times grid.old c n }
    ensures ever { (c : Cell) (n : ℕ) → times_ever grid.new c n ≡ times_ever grid.old c n }
    ensures room { (p : Position) → free_at grid.new p ≡ (if list_any (same_cell p) places.now then 0 else free_at grid.old p) }
{
    for at in places {
        grid.forget(*at);
    }
}
