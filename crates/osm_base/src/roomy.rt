//! A list with promised room.
ghost use Rattle.std.specs.List.Retain.{IsFiltered};
ghost use Rattle.std.specs.Fn.{CalledAt};
ghost use Rattle.std.specs.Prelude.{◌≡◌, ◌+◌, ◌-◌, ◌<◌, ◌≤◌, ◌∷◌, [], ◌++◌, length, insert, filter, slice_set, slice_get, is_ok, if◌then◌else◌};

use crate::memory::Memory;
use std::alloc::Global;
use std::marker::Model;
use std::mem;

/// The most items of a row that takes memory for just what it is promised.
const SHORT: usize = 4;

/// For how many more items a row of some takes memory at least, where it takes any.
fn ahead_of(items: usize) -> usize {
    if items <= SHORT { 0 } else { items / 2 }
}

/// A list that is promised room for some more items, so that adding those takes no memory and
/// can't fail. What was promised is a number of its own: there may be room for more.
#[derive(Drop)]
pub struct Roomy<T> {
    items: Vec<T>,
    free: usize,
}

impl<T> Model for Roomy<T> {
    ghost use Rattle.std.specs.Prelude.{◌+◌, ◌≤◌, vec_len, vec_capacity};
    ghost use Rattle.osm_base.specs.Row.{Row};

    ghost Value = { Row T };

    ghost view = { λ r. record { items = r.items.items; free = r.free } };

    ghost invariant = { λ r. vec_len r.items + r.free ≤ vec_capacity r.items };
}

impl<T> Roomy<T> {
    /// No items, and no room promised. It takes no memory.
    pub fn none(alloc: Global) -> Roomy<T>
        ensures { result ≡ record { items = []; free = 0 } }
    {
        Roomy {
            items: Vec::new(alloc),
            free: 0,
        }
    }

    /// How many more items need no memory.
    pub fn free(&self) -> usize
        ensures { result ≡ self.now.free }
    {
        self.free
    }

    /// All items, in order.
    pub fn items(&self) -> &[T]
        ensures { result.now ≡ self.now.items }
    {
        self.items.as_slice()
    }

    /// The items, without a copy.
    pub fn into_vec(self) -> Vec<T>
        ensures { result.items ≡ self.items }
    {
        self.items
    }
}

impl<T: Drop> Roomy<T> {
    /// Promises room for some more items. Where it takes memory, a short row takes it for no others,
    /// and a longer one for half as many again as it has, so that many promises one after the other
    /// cost no more than their items.
    pub fn promise(&mut self, more: usize) -> Result<(), Memory>
        ensures { self.new ≡ record self.old { free = self.old.free + (if is_ok result then more else 0) } }
    {
        let Some(free) = self.free.checked_add(more) else {
            return Err(Memory);
        };
        if self.items.capacity() - self.items.len() < free {
            self.items
                .reserve_exact(free.max(ahead_of(self.items.len())))?;
        }
        self.free = free;
        Ok(())
    }

    /// The same, and takes memory for as many again as there are where it takes any, so that many
    /// promises one after the other cost no more than their items.
    pub fn promise_ahead(&mut self, more: usize) -> Result<(), Memory>
        ensures { self.new ≡ record self.old { free = self.old.free + (if is_ok result then more else 0) } }
    {
        let Some(free) = self.free.checked_add(more) else {
            return Err(Memory);
        };
        self.items.reserve(free)?;
        self.free = free;
        Ok(())
    }

    /// Takes every promise back.
    pub fn forget(&mut self)
        ensures { self.new ≡ record self.old { free = 0 } }
    {
        self.free = 0;
    }

    /// Takes some of what was promised back.
    pub fn release(&mut self, less: usize)
        requires { less ≤ self.old.free }
        ensures { self.new ≡ record self.old { free = self.old.free - less } }
    {
        self.free -= less;
    }

    /// Adds an item at the end, on promised room.
    pub fn push(&mut self, item: T)
        requires { 0 < self.old.free }
        ensures { self.new ≡ record { items = self.old.items ++ item ∷ []; free = self.old.free - 1 } }
    {
        self.items.push_reserved(item);
        self.free -= 1;
    }

    /// Adds an item at a place, on promised room. Those from there on move by one.
    pub fn insert(&mut self, place: usize, item: T)
        requires room { 0 < self.old.free }
        requires within { place ≤ length self.old.items }
        ensures { self.new ≡ record { items = insert self.old.items place item; free = self.old.free - 1 } }
    {
        let _always = self.items.insert(place, item).is_ok();
        self.free -= 1;
    }

    /// Puts an item in the place of another, which is dropped.
    pub fn set(&mut self, place: usize, item: T)
        requires { place < length self.old.items }
        ensures { self.new ≡ record self.old { items = slice_set self.old.items place item } }
    {
        self.items[place] = item;
    }

    /// Puts an item in the place of another, which it gives back.
    pub fn replace(&mut self, place: usize, item: T) -> T
        requires { place < length self.old.items }
        ensures was { slice_get self.old.items place ≡ Some result }
        ensures row { self.new ≡ record self.old { items = slice_set self.old.items place item } }
    {
        mem::replace(&mut self.items[place], item)
    }

    /// Drops the items that the test doesn't keep. Their room isn't promised.
    pub fn retain<F: FnMut(&T) -> bool>(&mut self, keep: F)
        requires { F.IsAlwaysCallable keep }
        ensures filtered { IsFiltered (CalledAt F.FnMut) keep self.old.items self.new.items }
        ensures free { self.new.free ≡ self.old.free }
    {
        self.items.retain(keep);
    }
}
