//! For each element those that use it, and those that did.
ghost use Rattle.std.specs.Prelude.{◌≡◌, ◌==◌, ℕ, length, ◌+◌, ◌-◌, ◌<◌, ◌≤◌, ◌||◌, [], false, true, if◌then◌else◌, count_by, slice_index_or, OnOk, OnErr};
ghost use Rattle.reverse_refs.specs.Users.{no_row, IsParted};
ghost use Rattle.osm_base.specs.Key.{key_eq, lists_key, insert_key, without_key, IsRising};
ghost use Rattle.osm_base.specs.declared.keys.Key.{Key};

use crate::user_lists::UserList;
use crate::user_rows::Rows;
use osm_base::{Key, Kind, Memory, is_listed};
use std::alloc::Global;
use std::marker::Model;

/// An element that uses another.
#[derive(Clone, Copy)]
pub struct Pair {
    pub user: Key,
    pub used: Key,
}

/// For each element the elements that use it, those that did and left, and how many more users need
/// no memory. It has what is added to it: nothing here looks at elements.
#[derive(Drop)]
pub struct UserIndex {
    nodes: Rows,
    ways: Rows,
    relations: Rows,
}

impl Model for UserIndex {
    ghost use Rattle.reverse_refs.specs.Users.{UserRows};

    ghost Value = { UserRows };

    ghost view = { λ u. record { nodes = u.nodes; ways = u.ways; relations = u.relations } };
}

impl UserIndex {
    ghost use Rattle.reverse_refs.specs.Users.{users_in, past_in, knows, free_in};

    /// An index without users. It takes no memory.
    pub fn new(alloc: Global) -> UserIndex
        ensures users { (k : Key) → users_in result k ≡ [] }
        ensures past { (k : Key) → past_in result k ≡ [] }
        ensures room { (k : Key) → free_in result k ≡ 0 }
    {
        UserIndex {
            nodes: Rows::new(alloc),
            ways: Rows::new(alloc),
            relations: Rows::new(alloc),
        }
    }

    /// The users of an element, in order, each once.
    pub fn users(&self, key: Key) -> UserList<'_>
        ensures users { result ≡ users_in self.now key }
        ensures rising { IsRising result }
        ensures apart { (k : Key) → lists_key result k ≡ true → lists_key (past_in self.now key) k ≡ false }
    {
        match key.kind {
            Kind::Node => self.nodes.present(key.id as usize),
            Kind::Way => self.ways.present(key.id as usize),
            Kind::Relation => self.relations.present(key.id as usize),
        }
    }

    /// The elements that used an element and no longer do, in order, each once.
    pub fn past(&self, key: Key) -> UserList<'_>
        ensures past { result ≡ past_in self.now key }
        ensures rising { IsRising result }
    {
        match key.kind {
            Kind::Node => self.nodes.past(key.id as usize),
            Kind::Way => self.ways.past(key.id as usize),
            Kind::Relation => self.relations.past(key.id as usize),
        }
    }

    /// Whether an element uses another. One that does isn't among those that left.
    pub fn has(&self, pair: Pair) -> bool
        ensures now { result ≡ lists_key (users_in self.now pair.used) pair.user }
        ensures apart { result ≡ true → lists_key (past_in self.now pair.used) pair.user ≡ false }
    {
        let users = self.users(pair.used);
        is_listed(users.items(), pair.user)
    }

    /// Whether an element used another and no longer does.
    pub fn had(&self, pair: Pair) -> bool
        ensures { result ≡ lists_key (past_in self.now pair.used) pair.user }
    {
        let past = self.past(pair.used);
        is_listed(past.items(), pair.user)
    }

    /// Whether an element uses another, or did. Such a one needs no room.
    pub fn knows(&self, pair: Pair) -> bool
        ensures { result ≡ knows self.now pair.used pair.user }
    {
        match pair.used.kind {
            Kind::Node => self.nodes.knows(pair.used.id as usize, pair.user),
            Kind::Way => self.ways.knows(pair.used.id as usize, pair.user),
            Kind::Relation => self.relations.knows(pair.used.id as usize, pair.user),
        }
    }

    /// Promises room for one more user for each of the pairs. After a refusal no more is promised
    /// than before.
    pub fn room(&mut self, alloc: Global, pairs: &[Pair]) -> Result<(), Memory>
        ensures users { (k : Key) → users_in self.new k ≡ users_in self.old k }
        ensures past { (k : Key) → past_in self.new k ≡ past_in self.old k }
        ensures ok { OnOk result ((k : Key) → free_in self.new k ≡ free_in self.old k + count_by (λ p. key_eq k p.used) pairs.now) }
        ensures err { OnErr result ((k : Key) → free_in self.new k ≡ free_in self.old k) }
    {
        for (place, pair) in pairs.iter().enumerate() {
            if let Err(memory) = self.promise(alloc, pair.used) {
                self.release(&pairs[..place]);
                return Err(memory);
            }
        }
        Ok(())
    }

    /// Promises room for one more user of an element. `Memory` leaves what was promised.
    pub fn promise(&mut self, alloc: Global, used: Key) -> Result<(), Memory>
        ensures users { (k : Key) → users_in self.new k ≡ users_in self.old k }
        ensures past { (k : Key) → past_in self.new k ≡ past_in self.old k }
        ensures ok { OnOk result ((k : Key) → free_in self.new k ≡ free_in self.old k + (if key_eq k used then 1 else 0)) }
        ensures err { OnErr result ((k : Key) → free_in self.new k ≡ free_in self.old k) }
    {
        match used.kind {
            Kind::Node => promise_at(alloc, &mut self.nodes, used.id),
            Kind::Way => promise_at(alloc, &mut self.ways, used.id),
            Kind::Relation => promise_at(alloc, &mut self.relations, used.id),
        }
    }

    /// Takes back what was promised for the pairs. It takes no memory.
    pub fn release(&mut self, pairs: &[Pair])
        requires { (k : Key) → count_by (λ p. key_eq k p.used) pairs.now ≤ free_in self.old k }
        ensures users { (k : Key) → users_in self.new k ≡ users_in self.old k }
        ensures past { (k : Key) → past_in self.new k ≡ past_in self.old k }
        ensures room { (k : Key) → free_in self.new k + count_by (λ p. key_eq k p.used) pairs.now ≡ free_in self.old k }
    {
        for pair in pairs {
            self.release_one(pair.used);
        }
    }

    fn release_one(&mut self, used: Key)
        requires { 0 < free_in self.old used }
        ensures users { (k : Key) → users_in self.new k ≡ users_in self.old k }
        ensures past { (k : Key) → past_in self.new k ≡ past_in self.old k }
        ensures room { (k : Key) → free_in self.new k + (if key_eq k used then 1 else 0) ≡ free_in self.old k }
    {
        let place = used.id as usize;
        match used.kind {
            Kind::Node => self.nodes.release(place),
            Kind::Way => self.ways.release(place),
            Kind::Relation => self.relations.release(place),
        }
    }

    /// Takes back all that was promised for an element. It takes no memory.
    pub fn forget(&mut self, used: Key)
        ensures users { (k : Key) → users_in self.new k ≡ users_in self.old k }
        ensures past { (k : Key) → past_in self.new k ≡ past_in self.old k }
        ensures room { (k : Key) → free_in self.new k ≡ (if key_eq k used then 0 else free_in self.old k) }
    {
        match used.kind {
            Kind::Node => forget_at(&mut self.nodes, used.id),
            Kind::Way => forget_at(&mut self.ways, used.id),
            Kind::Relation => forget_at(&mut self.relations, used.id),
        }
    }

    /// Adds a user, on promised room. One that left comes back. It takes no memory.
    pub fn add(&mut self, pair: Pair)
        requires room { 0 < free_in self.old pair.used }
        requires absent { lists_key (users_in self.old pair.used) pair.user ≡ false }
        ensures users { (k : Key)
            → users_in self.new k ≡ (if key_eq k pair.used then insert_key (users_in self.old k) pair.user else users_in self.old k) }
        ensures past { (k : Key)
            → past_in self.new k ≡ (if key_eq k pair.used then without_key (past_in self.old k) pair.user else past_in self.old k) }
        ensures room { (k : Key) → free_in self.new k ≡ (if key_eq k pair.used then free_in self.old k - 1 else free_in self.old k) }
    {
        let place = pair.used.id as usize;
        match pair.used.kind {
            Kind::Node => self.nodes.add(place, pair.user),
            Kind::Way => self.ways.add(place, pair.user),
            Kind::Relation => self.relations.add(place, pair.user),
        }
    }

    /// A user that left comes back. It needs no room, and takes no memory.
    pub fn come_back(&mut self, pair: Pair)
        requires { lists_key (past_in self.old pair.used) pair.user ≡ true }
        ensures users { (k : Key)
            → users_in self.new k ≡ (if key_eq k pair.used then insert_key (users_in self.old k) pair.user else users_in self.old k) }
        ensures past { (k : Key)
            → past_in self.new k ≡ (if key_eq k pair.used then without_key (past_in self.old k) pair.user else past_in self.old k) }
        ensures room { (k : Key) → free_in self.new k ≡ free_in self.old k }
    {
        let place = pair.used.id as usize;
        match pair.used.kind {
            Kind::Node => self.nodes.come_back(place, pair.user),
            Kind::Way => self.ways.come_back(place, pair.user),
            Kind::Relation => self.relations.come_back(place, pair.user),
        }
    }

    /// A user leaves, and is among those of the past from then on. It takes no memory.
    pub fn leave(&mut self, pair: Pair)
        requires { lists_key (users_in self.old pair.used) pair.user ≡ true }
        ensures users { (k : Key)
            → users_in self.new k ≡ (if key_eq k pair.used then without_key (users_in self.old k) pair.user else users_in self.old k) }
        ensures past { (k : Key)
            → past_in self.new k ≡ (if key_eq k pair.used then insert_key (past_in self.old k) pair.user else past_in self.old k) }
        ensures room { (k : Key) → free_in self.new k ≡ free_in self.old k }
    {
        let place = pair.used.id as usize;
        match pair.used.kind {
            Kind::Node => self.nodes.leave(place, pair.user),
            Kind::Way => self.ways.leave(place, pair.user),
            Kind::Relation => self.relations.leave(place, pair.user),
        }
    }
}

fn promise_at(alloc: Global, rows: &mut Rows, id: u64) -> Result<(), Memory>
    ensures users { (i : ℕ) → (slice_index_or rows.new i no_row).present ≡ (slice_index_or rows.old i no_row).present }
    ensures past { (i : ℕ) → (slice_index_or rows.new i no_row).past ≡ (slice_index_or rows.old i no_row).past }
    ensures ok { OnOk result ((i : ℕ) → (slice_index_or rows.new i no_row).free
        ≡ (slice_index_or rows.old i no_row).free + (if i == id then 1 else 0)) }
    ensures err { OnErr result ((i : ℕ) → (slice_index_or rows.new i no_row).free ≡ (slice_index_or rows.old i no_row).free) }
{
    let place = id as usize;
    extend(rows, place)?;
    rows.promise(alloc, place)
}

fn forget_at(rows: &mut Rows, id: u64)
    ensures users { (i : ℕ) → (slice_index_or rows.new i no_row).present ≡ (slice_index_or rows.old i no_row).present }
    ensures past { (i : ℕ) → (slice_index_or rows.new i no_row).past ≡ (slice_index_or rows.old i no_row).past }
    ensures room { (i : ℕ) → (slice_index_or rows.new i no_row).free
        ≡ (if i == id then 0 else (slice_index_or rows.old i no_row).free) }
{
    let place = id as usize;
    if place < rows.len() {
        rows.forget(place);
    }
}

/// Makes empty rows up to a place.
fn extend(rows: &mut Rows, place: usize) -> Result<(), Memory>
    ensures same { (i : ℕ) → slice_index_or rows.new i no_row ≡ slice_index_or rows.old i no_row }
    ensures ok { OnOk result (place < length rows.new) }
{
    while rows.len() <= place {
        rows.push_empty()?;
    }
    Ok(())
}
