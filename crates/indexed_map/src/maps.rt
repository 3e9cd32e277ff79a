//! The elements with their users and their cells, kept in step.
ghost use Rattle.std.specs.Prelude.{◌≡◌, true, ◌^◌, ◌+◌, ◌<◌, ◌≤◌, ◌&&◌, not, if◌then◌else◌, OnOk};
ghost use Rattle.std.specs.Option.{ForSome};
ghost use Rattle.osm_base.specs.Key.{key_eq, lists_key, IsRising};
ghost use Rattle.osm_base.specs.Place.{Position};
ghost use Rattle.osm_base.specs.declared.keys.Key.{Key};
ghost use Rattle.osm_element.specs.Elements.{no_elements, next_id, count, is_visible, uses, users, push_version, mark};
ghost use Rattle.changeset_core.specs.Changeset.{new_position, touched_area};
ghost use Rattle.history_store.specs.Store.{free};
ghost use Rattle.reverse_refs.specs.Users.{free_in};
ghost use Rattle.tile_grid.specs.Grid.{free_at};
ghost use Rattle.indexed_map.specs.Ever.{has_used, IsPlacedEver};
ghost use Rattle.indexed_map.specs.Indexed.{is_unused, times_new, IsListOf, HasRoom, IsBare};
ghost use Rattle.indexed_map.specs.Placed.{enters, IsPlaced};

use crate::moves::move_node;
use crate::promises::{
    forget_places, forget_uses, forget_versions, promise_place, promise_uses, promise_version,
};
use crate::usage::{begin_uses, current_content, end_uses, held_last};
use changeset_core::{Places, touched_area};
use history_store::Store;
use osm_base::{Box7, Coord, Key, Kind, Memory};
use osm_element::{Content, Held, Version};
use reverse_refs::{UserIndex, UserList};
use std::alloc::Global;
use std::marker::Model;
use tile_grid::Grid;

/// The elements, who uses them and who did, and where the visible nodes lie, and those that left lay.
/// `promised`, `awaited` and `entered` list what was promised versions, users and nodes since the last
/// `forget_all`.
#[derive(Drop)]
pub struct IndexedMap {
    store: Store,
    users: UserIndex,
    grid: Grid,
    promised: Vec<Key>,
    awaited: Vec<Key>,
    entered: Vec<Coord>,
}

impl Model for IndexedMap {
    ghost use Rattle.indexed_map.specs.Indexed.{Stand, stand, IsMap};

    ghost Value = { Stand };

    ghost view = { λ m. stand m.store m.users m.grid };

    ghost invariant = { λ m. IsMap (stand m.store m.users m.grid) (record { versions = m.promised.items; users = m.awaited.items; cells = m.entered.items }) };
}

impl IndexedMap {
    /// No elements. It takes no memory.
    pub fn new(alloc: Global) -> IndexedMap
        ensures elements { result.elements ≡ no_elements }
        ensures bare { IsBare result }
    {
        let store = Store::new(alloc);
        let users = UserIndex::new(alloc);
        let grid = Grid::new(alloc);
        IndexedMap {
            store,
            users,
            grid,
            promised: Vec::new(alloc),
            awaited: Vec::new(alloc),
            entered: Vec::new(alloc),
        }
    }

    /// The histories of all elements.
    pub fn store(&self) -> &Store
        ensures { result.now.elements ≡ self.now.elements }
    {
        &self.store
    }

    /// The users of an element, in order.
    pub fn users(&self, key: Key) -> UserList<'_>
        ensures { result ≡ users self.now.elements key }
    {
        self.users.users(key)
    }

    /// The nodes by their cells: the visible ones where they lie, and all where a version of them lies.
    pub fn grid(&self) -> &Grid
        ensures placed { IsPlaced self.now.elements result.now }
        ensures ever { IsPlacedEver self.now.elements result.now }
    {
        &self.grid
    }

    /// The elements of which only earlier versions list this one, in order.
    pub fn users_past(&self, key: Key) -> UserList<'_>
        ensures rising { IsRising result }
        ensures each { (user : Key) → lists_key result user ≡ has_used self.now.elements user key && not (uses self.now.elements user key) }
    {
        self.users.past(key)
    }

    /// The id that the next element of the kind gets.
    pub fn next_id(&self, kind: Kind) -> u64
        ensures counted { result ≡ next_id self.now.elements kind }
        ensures few { result < 2 ^ 63 + 1 }
    {
        self.store.next_id(kind)
    }

    /// How many versions an element has: 0 where it never existed.
    pub fn count(&self, key: Key) -> u64
        ensures counted { result ≡ count self.now.elements key }
        ensures few { result < 2 ^ 63 }
    {
        self.store.count(key)
    }

    /// Whether the element's current version isn't a deletion.
    pub fn is_visible(&self, key: Key) -> bool
        ensures { result ≡ is_visible self.now.elements key }
    {
        current_content(&self.store, key).is_some()
    }

    /// Whether no element uses this one.
    pub fn is_unused(&self, key: Key) -> bool
        ensures { result ≡ is_unused self.now.elements key }
    {
        let users = self.users(key);
        users.items().is_empty()
    }

    /// The least box of what a new content of an element touches, `None` where it touches nothing.
    pub fn touched_area(&self, key: Key, new: &Option<Content<u64>>) -> Option<Box7>
        ensures { result ≡ touched_area self.now.elements key new.now }
    {
        touched_area(self, key, new)
    }

    /// Promises room for one more version of an element, for uses of what is `listed` and no version
    /// of it lists so far, and for the place where the version puts it.
    pub fn promise(
        &mut self,
        alloc: Global,
        key: Key,
        listed: &[Key],
        at: Option<Coord>,
    ) -> Result<(), Memory>
        requires { 0 < key.id }
        ensures same { self.new.elements ≡ self.old.elements }
        ensures versions { OnOk result ((k : Key) → free self.new.versions k ≡ free self.old.versions k + (if key_eq k key then 1 else 0)) }
        ensures users { OnOk result ((b : Key) → free_in self.new.users b ≡ free_in self.old.users b + times_new self.old.elements key listed.now b) }
        ensures cells { OnOk result ((p : Position) → free_at self.new.cells p ≡ free_at self.old.cells p + (if enters p at then 1 else 0)) }
    {
        promise_version(alloc, &mut self.store, key, &mut self.promised)?;
        promise_uses(alloc, &mut self.users, key, listed, &mut self.awaited)?;
        promise_place(alloc, &mut self.grid, at, &mut self.entered)
    }

    /// Takes back all that is promised.
    pub fn forget_all(&mut self)
        ensures same { self.new.elements ≡ self.old.elements }
        ensures bare { IsBare self.new }
    {
        forget_versions(&mut self.store, self.promised.as_slice());
        forget_uses(&mut self.users, self.awaited.as_slice());
        forget_places(&mut self.grid, self.entered.as_slice());
        self.promised.clear();
        self.awaited.clear();
        self.entered.clear();
    }

    /// Puts a redaction's mark on a version, or takes it off. It takes no memory.
    pub fn mark(&mut self, alloc: Global, key: Key, number: u64, redaction: Option<u64>)
        requires counted { 0 < number }
        requires made { number ≤ count self.old.elements key }
        requires small { ForSome redaction (λ number. number < 2 ^ 32) }
        ensures { self.new.elements ≡ mark self.old.elements key number redaction }
    {
        self.store.mark(alloc, key, number, redaction);
    }

    /// Adds a version of an element, which may be the next of its kind, and which lists what is
    /// `listed`. All indexes follow it. It takes no memory.
    pub fn revise(&mut self, key: Key, version: Version, listed: &[Key])
        requires counted { 0 < key.id }
        requires follows { key.id ≤ next_id self.old.elements key.kind }
        requires listed { IsListOf version.content listed.now }
        requires room { HasRoom self.old key listed.now (new_position version.content) }
        ensures elements { self.new.elements ≡ push_version self.old.elements key version }
        ensures versions { (k : Key) → free self.new.versions k + (if key_eq k key then 1 else 0) ≡ free self.old.versions k }
        ensures users { (b : Key) → free_in self.old.users b ≤ free_in self.new.users b + times_new self.old.elements key listed.now b }
        ensures cells { (p : Position)
            → free_at self.old.cells p ≤ free_at self.new.cells p + (if enters p (new_position version.content) then 1 else 0) }
        ensures ever { (a b : Key) → has_used self.old.elements a b ≡ true → has_used self.new.elements a b ≡ true }
    {
        let versions = self.store.history(key);
        move_node(&self.store, versions, &mut self.grid, key, &version);
        end_uses(&mut self.users, key, &held_last(versions), listed);
        begin_uses(&mut self.users, key, listed);
        self.store.push_version(key, version);
    }
}

impl Places for IndexedMap {
    ghost elements = { λ map. map.elements };

    fn place_of(&self, key: Key) -> Option<Coord> {
        self.store.place_of(key)
    }

    fn content_of(&self, key: Key) -> Option<Held<'_>> {
        current_content(&self.store, key)
    }
}
