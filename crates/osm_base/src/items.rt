//! A list with its items as its value.
ghost use Rattle.std.specs.Prelude.{◌≡◌, ◌++◌, ◌∷◌, [], length, ◌<◌, slice_set, slice_get, Some, OnOk, OnErr};

use crate::copies::{TryCopy, copy_all};
use crate::memory::Memory;
use std::alloc::Global;
use std::marker::Model;
use std::mem;

/// A list, which contracts see as the list of its items.
#[derive(Drop)]
pub struct Items<T> {
    items: Vec<T>,
}

impl<T> Model for Items<T> {
    ghost use Rattle.std.specs.Prelude.{List};

    ghost Value = { List T };

    ghost view = { λ list. list.items.items };
}

impl<T> Items<T> {
    /// The items of a vector, without a copy.
    pub fn of(items: Vec<T>) -> Items<T>
        ensures { result ≡ items.items }
    {
        Items { items }
    }

    /// No items. It takes no memory.
    pub fn none(alloc: Global) -> Items<T>
        ensures { result ≡ [] }
    {
        Items {
            items: Vec::new(alloc),
        }
    }

    /// All items, in order.
    pub fn items(&self) -> &[T]
        ensures { result.now ≡ self.now }
    {
        self.items.as_slice()
    }

    /// The items as a vector, without a copy.
    pub fn into_vec(self) -> Vec<T>
        ensures { result.items ≡ self }
    {
        self.items
    }

    /// How many items there are.
    pub fn len(&self) -> usize
        ensures { result ≡ length self.now }
    {
        self.items.len()
    }
}

impl<T> Items<T> {
    ghost use Rattle.std.specs.Borrow.{Lends, sem};
    ghost use Rattle.osm_base.specs.contracts.items.Items.{the_row};

    /// The item at a place, to be changed where it stands.
    pub fn item_mut(&mut self, place: usize) -> &mut T
        requires { place < length self.old }
        ensures* lends { sem 𝓛 (Lends (the_row T.row) T.row self.entry result (slice_set self.old place)) }
        ensures value { slice_get self.old place ≡ Some result.now }
    {
        &mut self.items[place]
    }
}

impl<T: Drop> Items<T> {
    /// Adds an item at the end. `Memory` leaves the list as it was.
    pub fn push(&mut self, item: T) -> Result<(), Memory>
        ensures ok { OnOk result (self.new ≡ self.old ++ item ∷ []) }
        ensures err { OnErr result (self.new ≡ self.old) }
    {
        self.items.push(item)?;
        Ok(())
    }

    /// Puts an item in the place of another, which is dropped.
    pub fn set(&mut self, place: usize, item: T)
        requires { place < length self.old }
        ensures { self.new ≡ slice_set self.old place item }
    {
        self.items[place] = item;
    }

    /// Puts an item in the place of another, which it gives back.
    pub fn replace(&mut self, place: usize, item: T) -> T
        requires { place < length self.old }
        ensures list { self.new ≡ slice_set self.old place item }
        ensures old { slice_get self.old place ≡ Some result }
    {
        mem::replace(&mut self.items[place], item)
    }
}

impl<T: Copy> Items<T> {
    /// Adds copies of some items at the end, all of them or none.
    pub fn extend(&mut self, more: &[T]) -> Result<(), Memory>
        ensures ok { OnOk result (self.new ≡ self.old ++ more.now) }
        ensures err { OnErr result (self.new ≡ self.old) }
    {
        self.items.extend_from_slice(more)?;
        Ok(())
    }
}

/// Ids, in the order of their use.
pub type Ids = Items<u64>;

impl<T: TryCopy + Drop> TryCopy for Items<T> {
    fn copy(&self, alloc: Global) -> Result<Items<T>, Memory> {
        let items = copy_all(alloc, self.items())?;
        Ok(Items::of(items))
    }
}
