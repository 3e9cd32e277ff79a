//! The histories of all elements, with promised room.
ghost use Rattle.std.specs.Prelude.{◌≡◌, ◌≤◌, ◌<◌, ◌+◌, ◌^◌, if◌then◌else◌, All, OnOk, OnErr, option_copied};
ghost use Rattle.std.specs.Option.{ForSome};
ghost use Rattle.osm_base.specs.Key.{key_eq};
ghost use Rattle.osm_base.specs.declared.keys.Key.{Key};
ghost use Rattle.osm_element.specs.Elements.{key, next_id, history, count, version, current, position, push_version, mark};
ghost use Rattle.history_store.specs.Store.{empty, free, wanted};

use crate::shelves::Shelf;
use osm_base::{Coord, Key, Kind, Memory, Steps};
use osm_element::Version;
use std::alloc::Global;
use std::marker::Model;
use std::sync::ledger::Ledger;

/// How many more versions an element is to have room for.
#[derive(Clone, Copy)]
pub struct Want {
    pub key: Key,
    pub versions: u64,
}

/// The histories of all elements. `room` takes the memory that `push_version` then needs.
#[derive(Drop)]
pub struct Store {
    nodes: Shelf,
    ways: Shelf,
    relations: Shelf,
}

impl Model for Store {
    ghost use Rattle.history_store.specs.Store.{Stored, stored};

    ghost Value = { Stored };

    ghost view = { λ s. stored s.nodes s.ways s.relations };
}

impl Store {
    /// No histories. It takes no memory.
    pub fn new(alloc: Global) -> Store
        ensures { result ≡ empty }
    {
        Store {
            nodes: Shelf::new(alloc),
            ways: Shelf::new(alloc),
            relations: Shelf::new(alloc),
        }
    }

    /// The id that the next element of the kind gets.
    pub fn next_id(&self, kind: Kind) -> u64
        ensures counted { result ≡ next_id self.now.elements kind }
        ensures few { result < 2 ^ 63 + 1 }
    {
        let used = match kind {
            Kind::Node => self.nodes.len(),
            Kind::Way => self.ways.len(),
            Kind::Relation => self.relations.len(),
        };
        used as u64 + 1
    }

    /// The versions of an element, the oldest first: none where it never existed.
    pub fn history(&self, key: Key) -> &[Version]
        ensures { result.now ≡ history self.now.elements key }
    {
        match key.kind {
            Kind::Node => self.nodes.history(key.id),
            Kind::Way => self.ways.history(key.id),
            Kind::Relation => self.relations.history(key.id),
        }
    }

    /// How many versions an element has: 0 where it never existed.
    pub fn count(&self, key: Key) -> u64
        ensures counted { result ≡ count self.now.elements key }
        ensures few { result < 2 ^ 63 }
    {
        self.history(key).len() as u64
    }

    /// The last version of an element, visible or not.
    pub fn current(&self, key: Key) -> Option<&Version>
        ensures { option_copied result ≡ current self.now.elements key }
    {
        self.history(key).last()
    }

    /// A version of an element. Version 1 is the first.
    pub fn version(&self, key: Key, number: u64) -> Option<&Version>
        ensures { option_copied result ≡ version self.now.elements key number }
    {
        if number == 0 {
            return None;
        }
        self.history(key).get(number as usize - 1)
    }

    /// Where a visible node lies. It counts one step.
    pub fn position<L: Ledger>(&self, id: u64, steps: &mut Steps<L>) -> Option<Coord>
        ensures place { result ≡ position self.now.elements (key Kind.Node id) }
        ensures counted { steps.new ≡ steps.old + 1 }
    {
        steps.tick();
        self.place_of(Key {
            kind: Kind::Node,
            id,
        })
    }

    /// Where an element lies, if it is a visible node.
    pub fn place_of(&self, key: Key) -> Option<Coord>
        ensures { result ≡ position self.now.elements key }
    {
        match self.current(key) {
            Some(version) => version.position(),
            None => None,
        }
    }

    /// Promises room for more versions. After a refusal no more is promised than before.
    pub fn room(&mut self, alloc: Global, wants: &[Want]) -> Result<(), Memory>
        requires { All (λ w. 0 < w.key.id) wants.now }
        ensures same { self.new.elements ≡ self.old.elements }
        ensures ok { OnOk result ((k : Key) → free self.new.room k ≡ free self.old.room k + wanted wants.now k) }
        ensures err { OnErr result ((k : Key) → free self.new.room k ≡ free self.old.room k) }
    {
        for (place, want) in wants.iter().enumerate() {
            if let Err(memory) = self.promise(alloc, *want) {
                self.release(&wants[..place]);
                return Err(memory);
            }
        }
        Ok(())
    }

    /// Promises room for more versions of one element. `Memory` leaves what was promised.
    pub fn promise(&mut self, alloc: Global, want: Want) -> Result<(), Memory>
        requires { 0 < want.key.id }
        ensures same { self.new.elements ≡ self.old.elements }
        ensures ok { OnOk result ((k : Key) → free self.new.room k ≡ free self.old.room k + (if key_eq k want.key then want.versions else 0)) }
        ensures err { OnErr result ((k : Key) → free self.new.room k ≡ free self.old.room k) }
    {
        let place = want.key.id as usize - 1;
        let versions = want.versions as usize;
        match want.key.kind {
            Kind::Node => self.nodes.promise(alloc, place, versions),
            Kind::Way => self.ways.promise(alloc, place, versions),
            Kind::Relation => self.relations.promise(alloc, place, versions),
        }
    }

    /// Takes back what was promised. It takes no memory.
    pub fn release(&mut self, wants: &[Want])
        requires counted { All (λ w. 0 < w.key.id) wants.now }
        requires promised { (k : Key) → wanted wants.now k ≤ free self.old.room k }
        ensures same { self.new.elements ≡ self.old.elements }
        ensures room { (k : Key) → free self.new.room k + wanted wants.now k ≡ free self.old.room k }
    {
        for want in wants {
            self.release_one(*want);
        }
    }

    fn release_one(&mut self, want: Want)
        requires counted { 0 < want.key.id }
        requires promised { want.versions ≤ free self.old.room want.key }
        ensures same { self.new.elements ≡ self.old.elements }
        ensures room { (k : Key) → free self.new.room k + (if key_eq k want.key then want.versions else 0) ≡ free self.old.room k }
    {
        let place = want.key.id as usize - 1;
        let versions = want.versions as usize;
        match want.key.kind {
            Kind::Node => self.nodes.release(place, versions),
            Kind::Way => self.ways.release(place, versions),
            Kind::Relation => self.relations.release(place, versions),
        }
    }

    /// Takes back all that was promised for an element. It takes no memory.
    pub fn forget(&mut self, key: Key)
        requires { 0 < key.id }
        ensures same { self.new.elements ≡ self.old.elements }
        ensures room { (k : Key) → free self.new.room k ≡ (if key_eq k key then 0 else free self.old.room k) }
    {
        let place = key.id as usize - 1;
        match key.kind {
            Kind::Node => self.nodes.forget(place),
            Kind::Way => self.ways.forget(place),
            Kind::Relation => self.relations.forget(place),
        }
    }

    /// Adds a version of an element, which may be the next of its kind. It takes no memory.
    pub fn push_version(&mut self, key: Key, version: Version)
        requires counted { 0 < key.id }
        requires follows { key.id ≤ next_id self.old.elements key.kind }
        requires room { 0 < free self.old.room key }
        ensures elements { self.new.elements ≡ push_version self.old.elements key version }
        ensures room { (k : Key) → free self.new.room k + (if key_eq k key then 1 else 0) ≡ free self.old.room k }
    {
        let place = key.id as usize - 1;
        match key.kind {
            Kind::Node => self.nodes.push(place, version),
            Kind::Way => self.ways.push(place, version),
            Kind::Relation => self.relations.push(place, version),
        }
    }

    /// Puts a mark on a version, or takes it off. It takes no memory.
    pub fn mark(&mut self, alloc: Global, key: Key, number: u64, redaction: Option<u64>)
        requires counted { 0 < number }
        requires made { number ≤ count self.old.elements key }
        requires small { ForSome redaction (λ number. number < 2 ^ 32) }
        ensures elements { self.new.elements ≡ mark self.old.elements key number redaction }
        ensures room { self.new.room ≡ self.old.room }
    {
        let place = key.id as usize - 1;
        let number = number as usize;
        match key.kind {
            Kind::Node => self.nodes.mark(alloc, place, number, redaction),
            Kind::Way => self.ways.mark(alloc, place, number, redaction),
            Kind::Relation => self.relations.mark(alloc, place, number, redaction),
        }
    }
}
