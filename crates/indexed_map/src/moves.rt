//! A node that goes from cell to cell.
//!
//! A node that leaves a cell stays behind those that lie there, as one that lay there. So where it
//! comes back into the cell that it left last, as one does that is made visible again in its place,
//! it needs no room; and in each cell it stands once for each time that it came from another.
ghost use Rattle.std.specs.Prelude.{◌≡◌, ◌==◌, ◌&&◌, not, true, None, ℕ, ◌+◌, ◌<◌, ◌≤◌, map, length, option_and_then, if◌then◌else◌};
ghost use Rattle.std.specs.Option.{ForSome};
ghost use Rattle.osm_base.specs.Place.{Position};
ghost use Rattle.osm_element.specs.Elements.{history, next_id, position_in, push_version, version_in};
ghost use Rattle.changeset_core.specs.Changeset.{new_position};
ghost use Rattle.tile_grid.specs.Cell.{cell_of};
ghost use Rattle.tile_grid.specs.declared.cells.Cell.{Cell};
ghost use Rattle.tile_grid.specs.Grid.{times, times_ever, free_at, same_cell};
ghost use Rattle.indexed_map.specs.Ever.{last_place, IsPlacedEver};
ghost use Rattle.indexed_map.specs.Placed.{lies, enters, share_cell, IsPlaced};

use crate::usage::held_last;
use history_store::Store;
use osm_base::{Coord, Key, Kind};
use osm_element::Version;
use tile_grid::{Cell, Grid};

/// A node leaves the cell of a position, if there is one.
fn leave(grid: &mut Grid, id: u64, from: Option<Coord>)
    requires { (c : Cell) → times grid.old c id ≡ (if lies c from then 1 else 0) }
    ensures nodes { (c : Cell) (n : ℕ) → times grid.new c n + (if lies c from && (n == id) then 1 else 0) ≡ times grid.old c n }
    ensures ever { (c : Cell) (n : ℕ) → times_ever grid.new c n ≡ times_ever grid.old c n }
    ensures room { (p : Position) → free_at grid.new p ≡ free_at grid.old p }
{
    match from {
        Some(at) => grid.leave(id, at),
        None => {}
    }
}

/// Places a node in the cell of a position, if there is one.
fn enter(grid: &mut Grid, id: u64, to: Option<Coord>)
    requires { ForSome to (λ p. 0 < free_at grid.old p) }
    ensures nodes { (c : Cell) (n : ℕ) → times grid.new c n ≡ times grid.old c n + (if lies c to && (n == id) then 1 else 0) }
    ensures ever { (c : Cell) (n : ℕ) → times_ever grid.new c n ≡ times_ever grid.old c n + (if lies c to && (n == id) then 1 else 0) }
    ensures room { (p : Position) → free_at grid.new p + (if enters p to then 1 else 0) ≡ free_at grid.old p }
{
    match to {
        Some(at) => grid.place(id, at),
        None => {}
    }
}

/// A node comes back into the cell of a position, if there is one.
fn come_back(grid: &mut Grid, id: u64, to: Option<Coord>)
    requires { ForSome to (λ p. times grid.old (cell_of p) id < times_ever grid.old (cell_of p) id) }
    ensures nodes { (c : Cell) (n : ℕ) → times grid.new c n ≡ times grid.old c n + (if lies c to && (n == id) then 1 else 0) }
    ensures ever { (c : Cell) (n : ℕ) → times_ever grid.new c n ≡ times_ever grid.old c n }
    ensures room { (p : Position) → free_at grid.new p ≡ free_at grid.old p }
{
    match to {
        Some(at) => grid.come_back(id, at),
        None => {}
    }
}

/// A node that stands in no cell comes into that of a position, in which it may have lain last.
fn arrive(grid: &mut Grid, id: u64, last: Option<Coord>, to: Option<Coord>)
    requires room { ForSome to (λ p. 0 < free_at grid.old p) }
    requires left { share_cell last to ≡ true → ForSome to (λ p. times grid.old (cell_of p) id < times_ever grid.old (cell_of p) id) }
    ensures nodes { (c : Cell) (n : ℕ) → times grid.new c n ≡ times grid.old c n + (if lies c to && (n == id) then 1 else 0) }
    ensures ever { (c : Cell) (n : ℕ) → times_ever grid.new c n
        ≡ times_ever grid.old c n + (if (lies c to && not (lies c last)) && (n == id) then 1 else 0) }
    ensures room { (p : Position) → free_at grid.new p + (if enters p to && not (enters p last) then 1 else 0) ≡ free_at grid.old p }
{
    if share_cell(&last, &to) {
        come_back(grid, id, to);
    } else {
        enter(grid, id, to);
    }
}

/// Where the last of some versions lies that has a position. A deletion has none, and none follows
/// another, so it looks at two of them.
fn last_place(versions: &[Version]) -> Option<Coord>
    ensures { result ≡ last_place None (map (λ v. v.content) versions.now) }
{
    let mut place = versions.len();
    while place > 0 {
        place -= 1;
        if let Some(at) = versions[place].position() {
            return Some(at);
        }
    }
    None
}

/// Where the last of some versions lies, if it has a position.
fn current_place(versions: &[Version]) -> Option<Coord>
    ensures { result ≡ option_and_then position_in (option_and_then (λ v. v.content) (version_in versions.now (length versions.now))) }
{
    match held_last(versions) {
        Some(held) => held.position(),
        None => None,
    }
}

/// Whether both are positions, in one cell.
fn share_cell(from: &Option<Coord>, to: &Option<Coord>) -> bool
    ensures { result ≡ share_cell from.now to.now }
{
    match (from, to) {
        (Some(from), Some(to)) => are_together(*from, *to),
        _ => false,
    }
}

fn are_together(from: Coord, to: Coord) -> bool
    ensures { result ≡ same_cell from to }
{
    let cell = Cell::of(from);
    let other = Cell::of(to);
    cell.row == other.row && cell.column == other.column
}

/// Moves a node to the cell that its next version asks for, unless it lies there. It comes before
/// the version is added to the store, which has these versions of it so far. Ways and relations lie
/// in no cell of their own.
pub fn move_node(store: &Store, versions: &[Version], grid: &mut Grid, key: Key, version: &Version)
    requires versions { versions.now ≡ history store.now.elements key }
    requires counted { 0 < key.id }
    requires follows { key.id ≤ next_id store.now.elements key.kind }
    requires placed { IsPlaced store.now.elements grid.old }
    requires ever { IsPlacedEver store.now.elements grid.old }
    requires room { ForSome (new_position version.now.content) (λ p. 0 < free_at grid.old p) }
    ensures placed { IsPlaced (push_version store.now.elements key version.now) grid.new }
    ensures ever { IsPlacedEver (push_version store.now.elements key version.now) grid.new }
    ensures room { (p : Position) → free_at grid.old p ≤ free_at grid.new p + (if enters p (new_position version.now.content) then 1 else 0) }
    ensures no_more { (p : Position) → free_at grid.new p ≤ free_at grid.old p }
{
    if key.kind.is(Kind::Node) {
        let from = current_place(versions);
        let to = version.position();
        if !share_cell(&from, &to) {
            leave(grid, key.id, from);
            let last = last_place(versions);
            arrive(grid, key.id, last, to);
        }
    }
}
