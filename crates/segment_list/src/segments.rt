//! A list in segments of one length.
ghost use Rattle.std.specs.Prelude.{◌≡◌, ◌++◌, ◌∷◌, [], length, ◌+◌, ◌%◌, ◌<◌, ◌^◌, slice_set, slice_get, option_copied, Some, OnOk, OnErr};

use osm_base::{Items, Memory};
use std::alloc::Global;
use std::marker::Model;

/// How many items a full segment has.
const FULL: usize = 1024;

/// The most items of a list.
const MOST: usize = (1 << 63) - 1;

/// A list, which contracts see as the list of its items. It stands in segments of `FULL` items, the
/// last of which may have fewer: where the list grows, no more than the items of the last are moved.
#[derive(Drop)]
pub struct Segments<T> {
    segments: Vec<Items<T>>,
    count: usize,
    alloc: Global,
}

impl<T> Model for Segments<T> {
    ghost use Rattle.std.specs.Prelude.{List};
    ghost use Rattle.segment_list.specs.Segments.{joined, IsInSegments};

    ghost Value = { List T };

    ghost view = { λ list. joined list.segments.items };

    ghost invariant = { λ list. IsInSegments list.segments.items list.count };
}

impl<T> Segments<T> {
    /// No items. It takes no memory.
    pub fn new(alloc: Global) -> Segments<T>
        ensures { result ≡ [] }
    {
        Segments {
            segments: Vec::new(alloc),
            count: 0,
            alloc,
        }
    }

    /// How many items there are.
    pub fn len(&self) -> usize
        ensures counted { result ≡ length self.now }
        ensures few { result < 2 ^ 63 }
    {
        self.count
    }

    /// The item at a place: none past the end.
    pub fn get(&self, place: usize) -> Option<&T>
        ensures { option_copied result ≡ slice_get self.now place }
    {
        match self.segments.get(place / FULL) {
            Some(segment) => segment.items().get(place % FULL),
            None => None,
        }
    }
}

impl<T> Segments<T> {
    ghost use Rattle.std.specs.Borrow.{Lends, sem};
    ghost use Rattle.segment_list.specs.contracts.segments.Segments.{the_row};

    /// The item at a place, to be changed where it stands.
    pub fn item_mut(&mut self, place: usize) -> &mut T
        requires { place < length self.old }
        ensures* lends { sem 𝓛 (Lends (the_row T.row) T.row self.entry result (slice_set self.old place)) }
        ensures value { slice_get self.old place ≡ Some result.now }
        ensures few { length self.old < 2 ^ 63 }
    {
        let segment = &mut self.segments[place / FULL];
        segment.item_mut(place % FULL)
    }
}

impl<T: Drop> Segments<T> {
    /// Adds an item at the end. `Memory` leaves the list as it was, and drops the item.
    pub fn push(&mut self, item: T) -> Result<(), Memory>
        ensures ok { OnOk result (self.new ≡ self.old ++ item ∷ []) }
        ensures err { OnErr result (self.new ≡ self.old) }
    {
        if self.count == MOST {
            return Err(Memory);
        }
        if self.count % FULL == 0 {
            self.begin_segment(item)
        } else {
            self.push_last(item)
        }
    }

    /// Adds an item where all segments are full.
    fn begin_segment(&mut self, item: T) -> Result<(), Memory>
        requires few { length self.old + 1 < 2 ^ 63 }
        requires full { length self.old % 1024 ≡ 0 }
        ensures ok { OnOk result (self.new ≡ self.old ++ item ∷ []) }
        ensures err { OnErr result (self.new ≡ self.old) }
    {
        let mut segment = Items::none(self.alloc);
        segment.push(item)?;
        self.segments.push(segment)?;
        self.count += 1;
        Ok(())
    }

    /// Adds an item where the last segment is not full.
    fn push_last(&mut self, item: T) -> Result<(), Memory>
        requires few { length self.old + 1 < 2 ^ 63 }
        requires room { 0 < length self.old % 1024 }
        ensures ok { OnOk result (self.new ≡ self.old ++ item ∷ []) }
        ensures err { OnErr result (self.new ≡ self.old) }
    {
        self.segments[self.count / FULL].push(item)?;
        self.count += 1;
        Ok(())
    }
}
