//! The histories of one kind, with promised room.
ghost use Rattle.std.specs.Prelude.{◌≡◌, ℕ, ◌==◌, ◌+◌, ◌-◌, ◌<◌, ◌≤◌, [], length, slice_get, slice_set, slice_index, slice_index_or, option_copied, OnOk, OnErr, is_ok, if◌then◌else◌, ◌^◌};
ghost use Rattle.std.specs.Option.{ForSome};
ghost use Rattle.osm_element.specs.Elements.{add_version, history_in, mark_in};
ghost use Rattle.history_store.specs.Shelf.{HasMore};

use crate::histories::History;
use osm_base::Memory;
use osm_element::Version;
use segment_list::Segments;
use std::alloc::Global;
use std::marker::Model;

/// The histories of one kind, and rows that wait for new elements: the first `used` are histories.
#[derive(Drop)]
pub struct Shelf {
    rows: Segments<History>,
    used: usize,
}

impl Model for Shelf {
    ghost use Rattle.history_store.specs.Shelf.{Shelved, shelved, IsShelf};

    ghost Value = { Shelved };

    ghost view = { λ s. shelved s.rows s.used };

    ghost invariant = { λ s. IsShelf s.rows s.used };
}

impl Shelf {
    /// No histories. It takes no memory.
    pub fn new(alloc: Global) -> Shelf
        ensures { result ≡ record { histories = []; free = [] } }
    {
        Shelf {
            rows: Segments::new(alloc),
            used: 0,
        }
    }

    /// How many elements have a history.
    pub fn len(&self) -> usize
        ensures counted { result ≡ length self.now.histories }
        ensures few { result < 2 ^ 63 }
    {
        self.used
    }

    /// The versions of an element: none where it never existed.
    pub fn history(&self, id: u64) -> &[Version]
        ensures { result.now ≡ history_in self.now.histories id }
    {
        if id == 0 || id > self.used as u64 {
            &[]
        } else {
            match self.rows.get(id as usize - 1) {
                Some(row) => row.items(),
                None => &[],
            }
        }
    }

    /// Promises room for this many more versions of the element at a place.
    pub fn promise(&mut self, alloc: Global, place: usize, versions: usize) -> Result<(), Memory>
        requires { place + 1 < 2 ^ 64 }
        ensures same { self.new.histories ≡ self.old.histories }
        ensures ok { OnOk result (HasMore self.old.free self.new.free place versions) }
        ensures err { OnErr result (HasMore self.old.free self.new.free place 0) }
    {
        self.extend(alloc, place)?;
        self.promise_row(alloc, place, versions)
    }

    fn promise_row(&mut self, alloc: Global, place: usize, versions: usize) -> Result<(), Memory>
        requires { place < length self.old.free }
        ensures same { self.new.histories ≡ self.old.histories }
        ensures free { HasMore self.old.free self.new.free place (if is_ok result then versions else 0) }
    {
        self.rows.item_mut(place).promise(alloc, versions)
    }

    /// Takes a promise back.
    pub fn release(&mut self, place: usize, versions: usize)
        requires { versions ≤ slice_index self.old.free place }
        ensures same { self.new.histories ≡ self.old.histories }
        ensures free { HasMore self.new.free self.old.free place versions }
    {
        if versions > 0 {
            self.release_row(place, versions);
        }
    }

    fn release_row(&mut self, place: usize, versions: usize)
        requires some { 0 < versions }
        requires promised { versions ≤ slice_index self.old.free place }
        ensures same { self.new.histories ≡ self.old.histories }
        ensures free { HasMore self.new.free self.old.free place versions }
    {
        self.rows.item_mut(place).release(versions);
    }

    /// Takes back what is promised at a place.
    pub fn forget(&mut self, place: usize)
        ensures same { self.new.histories ≡ self.old.histories }
        ensures free { (i : ℕ) → slice_index self.new.free i ≡ (if i == place then 0 else slice_index self.old.free i) }
    {
        let promised = self.promised(place);
        self.release(place, promised);
    }

    /// How many more versions of the element at a place need no memory.
    pub fn promised(&self, place: usize) -> usize
        ensures { result ≡ slice_index self.now.free place }
    {
        match self.rows.get(place) {
            Some(row) => row.free(),
            None => 0,
        }
    }

    /// Makes rows up to a place.
    fn extend(&mut self, alloc: Global, place: usize) -> Result<(), Memory>
        requires { place + 1 < 2 ^ 64 }
        ensures same { self.new.histories ≡ self.old.histories }
        ensures free { HasMore self.old.free self.new.free place 0 }
        ensures ok { OnOk result (place < length self.new.free) }
    {
        for _ in self.rows.len()..place + 1 {
            self.rows.push(History::none())?;
        }
        Ok(())
    }

    /// Adds a version of the element at a place, which may be the next one.
    pub fn push(&mut self, place: usize, version: Version)
        requires within { place ≤ length self.old.histories }
        requires room { 0 < slice_index self.old.free place }
        ensures histories { self.new.histories ≡ add_version self.old.histories place version }
        ensures free { HasMore self.new.free self.old.free place 1 }
    {
        self.rows.item_mut(place).push(version);
        if place == self.used {
            self.used += 1;
        }
    }

    /// Puts a mark on a version, or takes it off.
    pub fn mark(&mut self, alloc: Global, place: usize, number: usize, redaction: Option<u64>)
        requires there { place < length self.old.histories }
        requires counted { 0 < number }
        requires made { number ≤ length (slice_index_or self.old.histories place []) }
        requires small { ForSome redaction (λ number. number < 2 ^ 32) }
        ensures histories { self.new.histories
            ≡ slice_set self.old.histories place (mark_in (slice_index_or self.old.histories place []) number redaction) }
        ensures free { self.new.free ≡ self.old.free }
    {
        self.rows.item_mut(place).mark(alloc, number, redaction);
    }
}
