//! A list of keys in two parts, each in order, with promised room.
ghost use Rattle.std.specs.Prelude.{◌≡◌, ◌+◌, ◌-◌, ◌<◌, ◌≤◌, [], true, false, length, take, drop, insert, remove, is_ok, vec_len, vec_capacity, if◌then◌else◌, IfSome, IsNone};
ghost use Rattle.osm_base.specs.Key.{lists_key, insert_key, without_key, IsRising};
ghost use Rattle.reverse_refs.specs.Users.{IsParted};

use osm_base::{Key, Memory};
use std::alloc::Global;
use std::marker::Model;

/// The most keys of a list that takes memory for just what it is promised.
const SHORT: usize = 4;

/// For how many more keys a list of some takes memory at least, where it takes any.
fn ahead_of(keys: usize) -> usize {
    if keys <= SHORT { 0 } else { keys / 2 }
}

/// Users in two parts that are promised room for more: the first `present` keys are users now, those
/// behind them were and left. So one that goes from part to part needs no memory.
#[derive(Drop)]
pub struct KeyList {
    keys: Vec<Key>,
    present: usize,
    free: usize,
}

impl Model for KeyList {
    ghost use Rattle.std.specs.Prelude.{◌+◌, ◌≤◌, take, drop, vec_len, vec_capacity};
    ghost use Rattle.reverse_refs.specs.Users.{UserRow, IsParted};

    ghost Value = { UserRow };

    ghost view = { λ l. record { present = take l.present l.keys.items; past = drop l.present l.keys.items; free = l.free } };

    ghost invariant = { λ l. IsParted (take l.present l.keys.items) (drop l.present l.keys.items) × (l.present ≤ vec_len l.keys) × (vec_len l.keys + l.free ≤ vec_capacity l.keys) };
}

impl KeyList {
    /// No keys, and no room promised. It takes no memory.
    pub fn none(alloc: Global) -> KeyList
        ensures { result ≡ record { present = []; past = []; free = 0 } }
    {
        KeyList {
            keys: Vec::new(alloc),
            present: 0,
            free: 0,
        }
    }

    /// How many more keys need no memory.
    pub fn free(&self) -> usize
        ensures { result ≡ self.now.free }
    {
        self.free
    }

    /// The keys of now, in order.
    pub fn present(&self) -> &[Key]
        ensures keys { result.now ≡ self.now.present }
        ensures parted { IsParted self.now.present self.now.past }
    {
        &self.keys[..self.present]
    }

    /// The keys that left, in order.
    pub fn past(&self) -> &[Key]
        ensures keys { result.now ≡ self.now.past }
        ensures parted { IsParted self.now.present self.now.past }
    {
        &self.keys[self.present..]
    }

    /// Promises room for some more keys. Where it takes memory, a short list takes it for no others,
    /// and a longer one for half as many again as it has, so that many promises one after the other
    /// cost no more than their keys.
    pub fn promise(&mut self, more: usize) -> Result<(), Memory>
        ensures { self.new ≡ record self.old { free = self.old.free + (if is_ok result then more else 0) } }
    {
        let Some(free) = self.free.checked_add(more) else {
            return Err(Memory);
        };
        if self.keys.capacity() - self.keys.len() < free {
            self.keys
                .reserve_exact(free.max(ahead_of(self.keys.len())))?;
        }
        self.free = free;
        Ok(())
    }

    /// Takes every promise back.
    pub fn forget(&mut self)
        ensures { self.new ≡ record self.old { free = 0 } }
    {
        self.free = 0;
    }

    /// Takes some of what was promised back.
    pub fn release(&mut self, less: usize)
        requires { less ≤ self.old.free }
        ensures { self.new ≡ record self.old { free = self.old.free - less } }
    {
        self.free -= less;
    }

    /// Adds a key where it belongs, on promised room. One that left comes back.
    pub fn add(&mut self, key: Key)
        requires room { 0 < self.old.free }
        requires absent { lists_key self.old.present key ≡ false }
        ensures { self.new ≡ record { present = insert_key self.old.present key; past = without_key self.old.past key; free = self.old.free - 1 } }
    {
        take_from_past(&mut self.keys, self.present, key);
        put_in_present(&mut self.keys, self.present, key);
        self.present += 1;
        self.free -= 1;
    }

    /// A key that left comes back. It needs no room.
    pub fn come_back(&mut self, key: Key)
        requires { lists_key self.old.past key ≡ true }
        ensures { self.new ≡ record self.old { present = insert_key self.old.present key; past = without_key self.old.past key } }
    {
        take_from_past(&mut self.keys, self.present, key);
        put_in_present(&mut self.keys, self.present, key);
        self.present += 1;
    }

    /// A key of now leaves.
    pub fn leave(&mut self, key: Key)
        requires { lists_key self.old.present key ≡ true }
        ensures { self.new ≡ record self.old { present = without_key self.old.present key; past = insert_key self.old.past key } }
    {
        take_from_present(&mut self.keys, self.present, key);
        self.present -= 1;
        put_in_past(&mut self.keys, self.present, key);
    }
}

/// Takes a key out from behind the first ones, if it is there.
fn take_from_past(keys: &mut Vec<Key>, present: usize, key: Key)
    requires within { present ≤ vec_len keys.old }
    requires rising { IsRising (drop present keys.old.items) }
    ensures present { take present keys.new.items ≡ take present keys.old.items }
    ensures past { drop present keys.new.items ≡ without_key (drop present keys.old.items) key }
    ensures len { (present ≤ vec_len keys.new) × (vec_len keys.new ≤ vec_len keys.old) }
    ensures shorter { lists_key (drop present keys.old.items) key ≡ true → vec_len keys.new + 1 ≡ vec_len keys.old }
    ensures capacity { vec_capacity keys.new ≡ vec_capacity keys.old }
{
    if let Some(place) = find(&keys[present..], key) {
        let _out = keys.remove(present + place);
    }
}

/// Puts a key among the first ones.
fn put_in_present(keys: &mut Vec<Key>, present: usize, key: Key)
    requires within { present ≤ vec_len keys.old }
    requires rising { IsRising (take present keys.old.items) }
    requires room { vec_len keys.old < vec_capacity keys.old }
    ensures present { take (present + 1) keys.new.items ≡ insert_key (take present keys.old.items) key }
    ensures past { drop (present + 1) keys.new.items ≡ drop present keys.old.items }
    ensures len { vec_len keys.new ≡ vec_len keys.old + 1 }
    ensures capacity { vec_capacity keys.new ≡ vec_capacity keys.old }
{
    let place = place_of(&keys[..present], key);
    let _always = keys.insert(place, key).is_ok();
}

/// Takes a key out that is one of the first.
fn take_from_present(keys: &mut Vec<Key>, present: usize, key: Key)
    requires within { present ≤ vec_len keys.old }
    requires rising { IsRising (take present keys.old.items) }
    requires listed { lists_key (take present keys.old.items) key ≡ true }
    ensures present { take (present - 1) keys.new.items ≡ without_key (take present keys.old.items) key }
    ensures past { drop (present - 1) keys.new.items ≡ drop present keys.old.items }
    ensures some { 0 < present }
    ensures len { vec_len keys.new + 1 ≡ vec_len keys.old }
    ensures capacity { vec_capacity keys.new ≡ vec_capacity keys.old }
{
    match find(&keys[..present], key) {
        Some(place) => {
            let _out = keys.remove(place);
        }
        None => unreachable!(),
    }
}

/// Puts a key behind the first ones.
fn put_in_past(keys: &mut Vec<Key>, present: usize, key: Key)
    requires within { present ≤ vec_len keys.old }
    requires rising { IsRising (drop present keys.old.items) }
    requires room { vec_len keys.old < vec_capacity keys.old }
    ensures present { take present keys.new.items ≡ take present keys.old.items }
    ensures past { drop present keys.new.items ≡ insert_key (drop present keys.old.items) key }
    ensures len { vec_len keys.new ≡ vec_len keys.old + 1 }
    ensures capacity { vec_capacity keys.new ≡ vec_capacity keys.old }
{
    let place = place_of(&keys[present..], key);
    let _always = keys.insert(present + place, key).is_ok();
}

/// Where a key goes in a list that is in order, found by halving.
fn place_of(sorted: &[Key], key: Key) -> usize
    requires { IsRising sorted.now }
    ensures place { insert sorted.now result key ≡ insert_key sorted.now key }
    ensures within { result ≤ length sorted.now }
{
    sorted.partition_point(|other| !key.is_before(*other))
}

/// Where a key stands in a list that is in order, found by halving.
fn find(sorted: &[Key], key: Key) -> Option<usize>
    requires { IsRising sorted.now }
    ensures place { IfSome result (λ place. (place < length sorted.now) × (remove sorted.now place ≡ without_key sorted.now key)) }
    ensures absent { IsNone result → lists_key sorted.now key ≡ false }
    ensures none { IsNone result → without_key sorted.now key ≡ sorted.now }
{
    let place = sorted.partition_point(|other| other.is_before(key));
    if place < sorted.len() && sorted[place].is(key) {
        Some(place)
    } else {
        None
    }
}
