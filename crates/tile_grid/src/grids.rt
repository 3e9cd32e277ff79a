//! Nodes by their cells, and by those that they left.
//!
//! A grid counts how often an id is placed in a cell, and how often it stands there; that it stands
//! there once is the indexed map's invariant. A node that leaves stays in the list of its cell, behind
//! those that stand there: that takes no memory, and what asks for the nodes of now doesn't meet it.
ghost use Rattle.std.specs.Prelude.{◌≡◌, ◌==◌, ◌&&◌, ◌||◌, [], ℕ, true, ◌+◌, ◌-◌, ◌<◌, ◌≤◌, length, count_by, slice_index_or, is_ok, if◌then◌else◌, OnOk, OnErr, IfOk};
ghost use Rattle.std.specs.List.{list_any};
ghost use Rattle.std.specs.List.Sorted.{IsStrictlyIncreasing};
ghost use Rattle.osm_base.specs.Place.{Position};
ghost use Rattle.rising_lists.specs.Ids.{lists_id};
ghost use Rattle.tile_grid.specs.Cell.{cell_of, cell_eq, is_between, touches};
ghost use Rattle.tile_grid.specs.declared.cells.Cell.{Cell};
ghost use Rattle.tile_grid.specs.Grid.{times, times_ever, times_of, free_at, same_cell, HeldAt, TouchedAt, TouchedEver};
ghost use Rattle.tile_grid.specs.Tile.{find, ids_in, IsWestToEast};

use crate::cells::Cell;
use crate::parts::Part;
use crate::rows::TileRow;
use osm_base::{Box7, Coord, Memory};
use rising_lists::sorted_once;
use std::alloc::Global;
use std::marker::Model;

/// Nodes by the cell in which they are placed. `room` takes the memory that `place` then needs.
/// Contracts see the rows from the south pole on, each with its cells.
#[derive(Drop)]
pub struct Grid {
    rows: Vec<TileRow>,
}

impl Model for Grid {
    ghost use Rattle.std.specs.Prelude.{List};
    ghost use Rattle.tile_grid.specs.Tile.{Held};

    ghost Value = { List (List Held) };

    ghost view = { λ g. g.rows.items };
}

impl Grid {
    /// A grid without nodes. It takes no memory.
    pub fn new(alloc: Global) -> Grid
        ensures nodes { (c : Cell) (id : ℕ) → times result c id ≡ 0 }
        ensures ever { (c : Cell) (id : ℕ) → times_ever result c id ≡ 0 }
        ensures room { (p : Position) → free_at result p ≡ 0 }
    {
        Grid {
            rows: Vec::new(alloc),
        }
    }

    /// Promises room for one more node at each of the places. After a refusal no more is promised
    /// than before.
    pub fn room(&mut self, alloc: Global, places: &[Coord]) -> Result<(), Memory>
        ensures nodes { (c : Cell) (id : ℕ) → times self.new c id ≡ times self.old c id }
        ensures ever { (c : Cell) (id : ℕ) → times_ever self.new c id ≡ times_ever self.old c id }
        ensures ok { OnOk result ((p : Position) → free_at self.new p ≡ free_at self.old p + count_by (same_cell p) places.now) }
        ensures err { OnErr result ((p : Position) → free_at self.new p ≡ free_at self.old p) }
    {
        for (place, at) in places.iter().enumerate() {
            if let Err(memory) = self.promise(alloc, *at) {
                self.release(&places[..place]);
                return Err(memory);
            }
        }
        Ok(())
    }

    fn promise(&mut self, alloc: Global, at: Coord) -> Result<(), Memory>
        ensures nodes { (c : Cell) (id : ℕ) → times self.new c id ≡ times self.old c id }
        ensures ever { (c : Cell) (id : ℕ) → times_ever self.new c id ≡ times_ever self.old c id }
        ensures room { (p : Position) → free_at self.new p ≡ free_at self.old p + (if is_ok result && same_cell p at then 1 else 0) }
    {
        let cell = Cell::of(at);
        let row = cell.row as usize;
        extend(alloc, &mut self.rows, row)?;
        self.rows[row].promise(alloc, cell.column)
    }

    /// Takes back what was promised for the places. It takes no memory.
    pub fn release(&mut self, places: &[Coord])
        requires { (p : Position) → count_by (same_cell p) places.now ≤ free_at self.old p }
        ensures nodes { (c : Cell) (id : ℕ) → times self.new c id ≡ times self.old c id }
        ensures ever { (c : Cell) (id : ℕ) → times_ever self.new c id ≡ times_ever self.old c id }
        ensures room { (p : Position) → free_at self.new p + count_by (same_cell p) places.now ≡ free_at self.old p }
    {
        for at in places {
            self.release_one(*at);
        }
    }

    fn release_one(&mut self, at: Coord)
        requires { 0 < free_at self.old at }
        ensures nodes { (c : Cell) (id : ℕ) → times self.new c id ≡ times self.old c id }
        ensures ever { (c : Cell) (id : ℕ) → times_ever self.new c id ≡ times_ever self.old c id }
        ensures room { (p : Position) → free_at self.new p + (if same_cell p at then 1 else 0) ≡ free_at self.old p }
    {
        let cell = Cell::of(at);
        self.rows[cell.row as usize].release(cell.column);
    }

    /// Takes back all that was promised for the cell of a place. It takes no memory.
    pub fn forget(&mut self, at: Coord)
        ensures nodes { (c : Cell) (id : ℕ) → times self.new c id ≡ times self.old c id }
        ensures ever { (c : Cell) (id : ℕ) → times_ever self.new c id ≡ times_ever self.old c id }
        ensures room { (p : Position) → free_at self.new p ≡ (if same_cell p at then 0 else free_at self.old p) }
    {
        let cell = Cell::of(at);
        forget_at(&mut self.rows, cell.row as usize, cell.column);
    }

    /// Places a node, on promised room. It takes no memory.
    pub fn place(&mut self, id: u64, at: Coord)
        requires { 0 < free_at self.old at }
        ensures nodes { (c : Cell) (other : ℕ)
            → times self.new c other ≡ times self.old c other + (if cell_eq c (cell_of at) && (other == id) then 1 else 0) }
        ensures ever { (c : Cell) (other : ℕ) → times_ever self.new c other
            ≡ times_ever self.old c other + (if cell_eq c (cell_of at) && (other == id) then 1 else 0) }
        ensures room { (p : Position) → free_at self.new p + (if same_cell p at then 1 else 0) ≡ free_at self.old p }
    {
        let cell = Cell::of(at);
        self.rows[cell.row as usize].place(cell.column, id);
    }

    /// A node leaves its cell, in which alone it is looked for. It takes no memory, and promises no
    /// room.
    pub fn leave(&mut self, id: u64, at: Coord)
        requires { 0 < times self.old (cell_of at) id }
        ensures nodes { (c : Cell) (other : ℕ) → times self.new c other + (if cell_eq c (cell_of at) && (other == id) then 1 else 0)
            ≡ times self.old c other }
        ensures ever { (c : Cell) (other : ℕ) → times_ever self.new c other ≡ times_ever self.old c other }
        ensures room { (p : Position) → free_at self.new p ≡ free_at self.old p }
    {
        let cell = Cell::of(at);
        self.rows[cell.row as usize].leave(cell.column, id);
    }

    /// A node comes back into a cell that it left. It takes no memory, and none of the room that is
    /// promised.
    pub fn come_back(&mut self, id: u64, at: Coord)
        requires { times self.old (cell_of at) id < times_ever self.old (cell_of at) id }
        ensures nodes { (c : Cell) (other : ℕ)
            → times self.new c other ≡ times self.old c other + (if cell_eq c (cell_of at) && (other == id) then 1 else 0) }
        ensures ever { (c : Cell) (other : ℕ) → times_ever self.new c other ≡ times_ever self.old c other }
        ensures room { (p : Position) → free_at self.new p ≡ free_at self.old p }
    {
        let cell = Cell::of(at);
        self.rows[cell.row as usize].come_back(cell.column, id);
    }

    /// The nodes in all cells that a box touches, in rising order, each once. It looks once for each
    /// row of the box, and then only at cells that are touched and have had a node, and there at none
    /// that left.
    pub fn rows_of(&self, alloc: Global, within: &Box7) -> Result<Vec<u64>, Memory>
        ensures rising { IfOk result (λ ids. IsStrictlyIncreasing ids.items) }
        ensures each { IfOk result (λ ids. (id : ℕ) → lists_id ids.items id ≡ true → TouchedAt self.now within.now id) }
        ensures all { IfOk result (λ ids. (c : Cell) (id : ℕ) → touches within.now c ≡ true → 0 < times self.now c id
            → lists_id ids.items id ≡ true) }
    {
        self.list(alloc, Part::Now, within)
    }

    /// The nodes that were ever placed in a cell that a box touches, in rising order, each once. It
    /// looks as `rows_of` does, and at all that left too.
    pub fn rows_ever_of(&self, alloc: Global, within: &Box7) -> Result<Vec<u64>, Memory>
        ensures rising { IfOk result (λ ids. IsStrictlyIncreasing ids.items) }
        ensures each { IfOk result (λ ids. (id : ℕ) → lists_id ids.items id ≡ true → TouchedEver self.now within.now id) }
        ensures all { IfOk result (λ ids. (c : Cell) (id : ℕ) → touches within.now c ≡ true → 0 < times_ever self.now c id
            → lists_id ids.items id ≡ true) }
    {
        self.list(alloc, Part::Ever, within)
    }

    fn list(&self, alloc: Global, part: Part, within: &Box7) -> Result<Vec<u64>, Memory>
        ensures rising { IfOk result (λ ids. IsStrictlyIncreasing ids.items) }
        ensures each { IfOk result (λ ids. (id : ℕ) → lists_id ids.items id ≡ true → HeldAt part self.now within.now id) }
        ensures all { IfOk result (λ ids. (c : Cell) (id : ℕ) → touches within.now c ≡ true → 0 < times_of part self.now c id
            → lists_id ids.items id ≡ true) }
    {
        let first = Cell::first(within);
        let last = Cell::last(within);
        let mut ids = Vec::new(alloc);
        for number in first.row as usize..last.row as usize + 1 {
            list_row(
                self.rows.as_slice(),
                number,
                part,
                first.column,
                last.column,
                &mut ids,
            )?;
        }
        Ok(sorted_once(ids))
    }
}

fn list_row(
    rows: &[TileRow],
    number: usize,
    part: Part,
    first: u32,
    last: u32,
    ids: &mut Vec<u64>,
) -> Result<(), Memory>
    ensures order { IsWestToEast (slice_index_or rows.now number []) }
    ensures ids { OnOk result ((id : ℕ) → lists_id ids.new.items id ≡ lists_id ids.old.items id || list_any
        (λ t. is_between first t.column last && lists_id (ids_in part t) id) (slice_index_or rows.now number [])) }
{
    match rows.get(number) {
        Some(row) => row.list(part, first, last, ids),
        None => Ok(()),
    }
}

fn forget_at(rows: &mut Vec<TileRow>, number: usize, column: u32)
    ensures ids { (r c : ℕ) → (find (slice_index_or rows.new.items r []) c).ids ≡ (find (slice_index_or rows.old.items r []) c).ids }
    ensures ever { (r c : ℕ) → (find (slice_index_or rows.new.items r []) c).ever ≡ (find (slice_index_or rows.old.items r []) c).ever }
    ensures free { (r c : ℕ) → (find (slice_index_or rows.new.items r []) c).free
        ≡ (if (r == number) && (c == column) then 0 else (find (slice_index_or rows.old.items r []) c).free) }
{
    if number < rows.len() {
        rows[number].forget(column);
    }
}

/// Makes empty rows up to a number.
fn extend(alloc: Global, rows: &mut Vec<TileRow>, number: usize) -> Result<(), Memory>
    ensures same { (i : ℕ) → slice_index_or rows.new.items i [] ≡ slice_index_or rows.old.items i [] }
    ensures ok { OnOk result (number < length rows.new.items) }
{
    while rows.len() <= number {
        rows.push(TileRow::none(alloc))?;
    }
    Ok(())
}
