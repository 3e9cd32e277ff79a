//! The nodes of one cell, and behind them those that left it.
//!
//! Within either part a cell's ids stand in no order, so a node is placed, leaves and comes back
//! without moving others, but for one that changes places with it; a box's ids are sorted once when
//! they are asked for. Cells are made with room, and stay when their last node leaves.
//!
//! A cell looks through the ids of a part when one leaves it: through those of now from the last on,
//! which came last, and through those that left from the first on, which left last. A million nodes
//! in one cell make it a walk when one of the first leaves; places where so many lie in 0.01 by 0.01
//! degrees are not expected.
ghost use Rattle.std.specs.Prelude.{◌≡◌, ◌==◌, ℕ, true, ◌+◌, ◌-◌, ◌<◌, ◌≤◌, ◌∷◌, [], ◌++◌, length, count_by, take, slice_index, is_ok, if◌then◌else◌, vec_len, vec_capacity};
ghost use Rattle.tile_grid.specs.Tile.{ids_in, no_tile, times_in};

use crate::parts::Part;
use osm_base::Memory;
use std::alloc::Global;
use std::marker::Model;
use std::mem::size_of;

/// The most room of a cell that takes memory for just what it is promised.
const SHORT: usize = 4;

/// For how many nodes beyond those that are promised room a cell takes memory, where it takes any.
fn ahead_of(room: usize) -> usize {
    if room <= SHORT { 0 } else { room / 2 }
}

/// The most nodes of a cell, with those that left and those that are promised room: so many that
/// their numbers take half a word.
const MOST: usize = u32::MAX as usize;

/// The cell at a column of a row: how many nodes stand in it, which come first in the list, behind
/// them those that left, and how many more are promised room. It isn't a `Roomy`, which has no way
/// to move an item that leaves the others in their places.
#[derive(Drop)]
pub struct Tile {
    column: u32,
    here: u32,
    free: u32,
    ids: Vec<u64>,
}

const _: () = prove!(size_of::<Tile>() == 40);

impl Model for Tile {
    ghost use Rattle.std.specs.Prelude.{take, vec_len, vec_capacity};
    ghost use Rattle.tile_grid.specs.Tile.{Held, IsWithin};

    ghost Value = { Held };

    ghost view = { λ t. record { column = t.column; ids = take t.here t.ids.items; ever = t.ids.items; free = t.free } };

    ghost invariant = { λ t. IsWithin t.here (vec_len t.ids) t.free (vec_capacity t.ids) };
}

impl Tile {
    /// No nodes, and no room promised. It takes no memory.
    pub fn none(alloc: Global, column: u32) -> Tile
        ensures { result ≡ no_tile column }
    {
        Tile {
            column,
            here: 0,
            free: 0,
            ids: Vec::new(alloc),
        }
    }

    /// The column of the cell.
    pub fn column(&self) -> u32
        ensures { result ≡ self.now.column }
    {
        self.column
    }

    /// The nodes of a part.
    pub fn ids(&self, part: Part) -> &[u64]
        ensures { result.now ≡ ids_in part self.now }
    {
        match part {
            Part::Now => &self.ids[..self.here as usize],
            Part::Ever => self.ids.as_slice(),
        }
    }

    /// Promises room for one more node. Where it takes memory, a cell with little room takes it for
    /// no others, and one with more for half as much again, so that many promises one after the other
    /// cost no more than their nodes, also before any of these is placed.
    pub fn promise(&mut self) -> Result<(), Memory>
        ensures { self.new ≡ record self.old { free = self.old.free + (if is_ok result then 1 else 0) } }
    {
        if self.ids.len() + self.free as usize == MOST {
            return Err(Memory);
        }
        let free = self.free as usize + 1;
        if self.ids.capacity() - self.ids.len() < free {
            self.ids
                .reserve_exact(free.saturating_add(ahead_of(self.ids.capacity())))?;
        }
        self.free += 1;
        Ok(())
    }

    /// Takes one promise back.
    pub fn release(&mut self)
        requires { 0 < self.old.free }
        ensures { self.new ≡ record self.old { free = self.old.free - 1 } }
    {
        self.free -= 1;
    }

    /// Takes every promise back.
    pub fn forget(&mut self)
        ensures { self.new ≡ record self.old { free = 0 } }
    {
        self.free = 0;
    }

    /// Places a node, on promised room. The first of those that left makes way for it.
    pub fn place(&mut self, id: u64)
        requires { 0 < self.old.free }
        ensures column { self.new.column ≡ self.old.column }
        ensures ids { (other : ℕ) → times_in self.new.ids other ≡ times_in self.old.ids other + (if other == id then 1 else 0) }
        ensures ever { (other : ℕ) → times_in self.new.ever other ≡ times_in self.old.ever other + (if other == id then 1 else 0) }
        ensures free { self.new.free ≡ self.old.free - 1 }
    {
        let last = self.ids.len();
        self.ids.push_reserved(id);
        bring_in(&mut self.ids, self.here as usize, last);
        self.here += 1;
        self.free -= 1;
    }

    /// A node leaves. Its room isn't promised.
    pub fn leave(&mut self, id: u64)
        requires { 0 < times_in self.old.ids id }
        ensures column { self.new.column ≡ self.old.column }
        ensures ids { (other : ℕ) → times_in self.new.ids other + (if other == id then 1 else 0) ≡ times_in self.old.ids other }
        ensures ever { (other : ℕ) → times_in self.new.ever other ≡ times_in self.old.ever other }
        ensures free { self.new.free ≡ self.old.free }
    {
        let place = place_from_end(self.ids(Part::Now), id);
        self.here -= 1;
        bring_out(&mut self.ids, place, self.here as usize);
    }

    /// A node that left comes back.
    pub fn come_back(&mut self, id: u64)
        requires { times_in self.old.ids id < times_in self.old.ever id }
        ensures column { self.new.column ≡ self.old.column }
        ensures ids { (other : ℕ) → times_in self.new.ids other ≡ times_in self.old.ids other + (if other == id then 1 else 0) }
        ensures ever { (other : ℕ) → times_in self.new.ever other ≡ times_in self.old.ever other }
        ensures free { self.new.free ≡ self.old.free }
    {
        let here = self.here as usize;
        let place = place_from(self.ids.as_slice(), here, id);
        bring_in(&mut self.ids, here, place);
        self.here += 1;
    }
}

/// Takes the id at a place behind a part into it. The first behind the part goes where it stood.
fn bring_in(ids: &mut Vec<u64>, here: usize, place: usize)
    requires behind { here ≤ place }
    requires within { place < length ids.old.items }
    ensures first { (other : ℕ) → times_in (take (here + 1) ids.new.items) other
        ≡ times_in (take here ids.old.items) other + (if other == slice_index ids.old.items place then 1 else 0) }
    ensures all { (other : ℕ) → times_in ids.new.items other ≡ times_in ids.old.items other }
    ensures len { vec_len ids.new ≡ vec_len ids.old }
    ensures capacity { vec_capacity ids.new ≡ vec_capacity ids.old }
{
    ids.swap(here, place);
}

/// Takes the id at a place of a part out, which has one more than `here`. Its last one goes where
/// that stood.
fn bring_out(ids: &mut Vec<u64>, place: usize, here: usize)
    requires before { place ≤ here }
    requires within { here < length ids.old.items }
    ensures first { (other : ℕ) → times_in (take here ids.new.items) other + (if other == slice_index ids.old.items place then 1 else 0)
        ≡ times_in (take (here + 1) ids.old.items) other }
    ensures all { (other : ℕ) → times_in ids.new.items other ≡ times_in ids.old.items other }
    ensures len { vec_len ids.new ≡ vec_len ids.old }
    ensures capacity { vec_capacity ids.new ≡ vec_capacity ids.old }
{
    ids.swap(place, here);
}

/// Where an id stands that is there. What came last is looked at first, since a node that has just
/// come is the likeliest to leave.
fn place_from_end(ids: &[u64], id: u64) -> usize
    requires { 0 < times_in ids.now id }
    ensures within { result < length ids.now }
    ensures found { slice_index ids.now result ≡ id }
{
    let mut place = ids.len();
    while place > 0 {
        place -= 1;
        if ids[place] == id {
            return place;
        }
    }
    unreachable!()
}

/// Where an id stands that is there behind a part. What left last is looked at first.
fn place_from(ids: &[u64], here: usize, id: u64) -> usize
    requires { times_in (take here ids.now) id < times_in ids.now id }
    ensures behind { here ≤ result }
    ensures within { result < length ids.now }
    ensures found { slice_index ids.now result ≡ id }
{
    for place in here..ids.len() {
        if ids[place] == id {
            return place;
        }
    }
    unreachable!()
}
