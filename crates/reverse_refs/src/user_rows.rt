//! The rows of one kind of element: the users of each, now and before, with promised room.
ghost use Rattle.std.specs.Prelude.{◌≡◌, ◌++◌, ◌∷◌, ◌+◌, ◌-◌, ◌<◌, ◌≤◌, ◌||◌, [], true, false, length, slice_set, OnOk, OnErr, IfOk};
ghost use Rattle.osm_base.specs.Key.{lists_key, IsRising};
ghost use Rattle.reverse_refs.specs.Users.{no_row, row_at, with_room, with_user, without_user, IsParted};
ghost use Rattle.reverse_refs.specs.Held.{held_at, row_held, promises, wide_end};
ghost use Rattle.reverse_refs.specs.Slots.{slot_at, IsTaken};

use crate::held::{Held, key_of, one_of, without_list};
use crate::key_lists::KeyList;
use crate::slots::{NO_PLACE, Slot, give_back, take_slot};
use crate::user_lists::UserList;
use crate::wide_keys::WideKeys;
use osm_base::{Key, Memory, is_listed};
use segment_list::Segments;
use std::alloc::Global;
use std::marker::Model;

/// For each element of a kind, by id, its users of now and those that left, each in order and once,
/// and for how many more there is room. Memory is taken where keys and promises together are more
/// than one: the list stands apart until it isn't needed.
#[derive(Drop)]
pub struct Rows {
    rows: Segments<Held>,
    slots: Segments<Slot>,
    spare: u32,
    wide: WideKeys,
    alloc: Global,
}

impl Model for Rows {
    ghost use Rattle.std.specs.Prelude.{List, map};
    ghost use Rattle.reverse_refs.specs.Users.{UserRow};

    ghost Value = { List UserRow };

    ghost use Rattle.reverse_refs.specs.Held.{row_held, IsSound};

    ghost view = { λ r. map (row_held r.slots r.wide.keys) r.rows };

    ghost invariant = { λ r. IsSound r.rows r.slots r.wide };
}

impl Rows {
    /// No rows. It takes no memory.
    pub fn new(alloc: Global) -> Rows
        ensures { result ≡ [] }
    {
        Rows {
            rows: Segments::new(alloc),
            slots: Segments::new(alloc),
            spare: NO_PLACE,
            wide: WideKeys::none(alloc),
            alloc,
        }
    }

    /// How many rows there are.
    pub fn len(&self) -> usize
        ensures { result ≡ length self.now }
    {
        self.rows.len()
    }

    /// Adds an empty row at the end. `Memory` leaves the rows as they were.
    pub fn push_empty(&mut self) -> Result<(), Memory>
        ensures ok { OnOk result (self.new ≡ self.old ++ no_row ∷ []) }
        ensures err { OnErr result (self.new ≡ self.old) }
    {
        self.rows.push(Held::Nothing)
    }

    /// The users of now, in order.
    pub fn present(&self, place: usize) -> UserList<'_>
        ensures keys { result ≡ (row_at self.now place).present }
        ensures parted { IsParted result (row_at self.now place).past }
    {
        match held_in(&self.rows, place) {
            Held::Nothing | Held::Promised | Held::Left { .. } | Held::WideLeft { .. } => {
                UserList::none()
            }
            Held::One { kind, id } => UserList::one(key_of(kind, id)),
            Held::WideOne { place } => UserList::one(self.wide.key(place)),
            Held::Listed { place } => UserList::listed(list_in(&self.slots, place).present()),
        }
    }

    /// The users that left, in order.
    pub fn past(&self, place: usize) -> UserList<'_>
        ensures keys { result ≡ (row_at self.now place).past }
        ensures rising { IsRising result }
    {
        match held_in(&self.rows, place) {
            Held::Nothing | Held::Promised | Held::One { .. } | Held::WideOne { .. } => {
                UserList::none()
            }
            Held::Left { kind, id } => UserList::one(key_of(kind, id)),
            Held::WideLeft { place } => UserList::one(self.wide.key(place)),
            Held::Listed { place } => UserList::listed(list_in(&self.slots, place).past()),
        }
    }

    /// Whether a key is a user, now or before.
    pub fn knows(&self, place: usize, key: Key) -> bool
        ensures { result ≡ lists_key (row_at self.now place).present key || lists_key (row_at self.now place).past key }
    {
        match held_in(&self.rows, place) {
            Held::Nothing | Held::Promised => false,
            Held::One { kind, id } | Held::Left { kind, id } => key_of(kind, id).is(key),
            Held::WideOne { place } | Held::WideLeft { place } => self.wide.key(place).is(key),
            Held::Listed { place } => is_known_in(list_in(&self.slots, place), key),
        }
    }

    /// Promises room for one more key.
    pub fn promise(&mut self, alloc: Global, place: usize) -> Result<(), Memory>
        requires { place < length self.old }
        ensures ok { OnOk result (self.new ≡ slice_set self.old place (with_room (row_at self.old place))) }
        ensures err { OnErr result (self.new ≡ self.old) }
    {
        let row = self.rows.item_mut(place);
        match *row {
            Held::Nothing => {
                self.wide.await_one()?;
                *row = Held::Promised;
                Ok(())
            }
            Held::Listed { place } => self.slots.item_mut(place as usize).list.promise(1),
            held => {
                let place = list_apart(
                    alloc,
                    &mut self.slots,
                    &mut self.spare,
                    &mut self.wide,
                    held,
                )?;
                *row = Held::Listed { place };
                Ok(())
            }
        }
    }

    /// Takes every promise back.
    pub fn forget(&mut self, place: usize)
        requires { place < length self.old }
        ensures { self.new ≡ slice_set self.old place (record (row_at self.old place) { free = 0 }) }
    {
        let row = self.rows.item_mut(place);
        match *row {
            Held::Promised => {
                *row = Held::Nothing;
                self.wide.release();
            }
            Held::Listed { place: at } => {
                self.slots.item_mut(at as usize).list.forget();
                self.shrink(place);
            }
            _ => {}
        }
    }

    /// Takes one promise back.
    pub fn release(&mut self, place: usize)
        requires { 0 < (row_at self.old place).free }
        ensures { self.new ≡ slice_set self.old place (record (row_at self.old place) { free = (row_at self.old place).free - 1 }) }
    {
        let row = self.rows.item_mut(place);
        match *row {
            Held::Promised => {
                *row = Held::Nothing;
                self.wide.release();
            }
            Held::Listed { place: at } => {
                self.slots.item_mut(at as usize).list.release(1);
                self.shrink(place);
            }
            _ => unreachable!(),
        }
    }

    /// Adds a user where it belongs, on promised room. One that left comes back.
    pub fn add(&mut self, place: usize, key: Key)
        requires room { 0 < (row_at self.old place).free }
        requires absent { lists_key (row_at self.old place).present key ≡ false }
        ensures { self.new ≡ slice_set self.old place (record (with_user (row_at self.old place) key) { free = (row_at self.old place).free - 1 }) }
    {
        let row = self.rows.item_mut(place);
        match *row {
            Held::Promised => *row = one_of(&mut self.wide, key),
            Held::Listed { place } => self.slots.item_mut(place as usize).list.add(key),
            _ => unreachable!(),
        }
    }

    /// A user that left comes back. It needs no room.
    pub fn come_back(&mut self, place: usize, key: Key)
        requires { lists_key (row_at self.old place).past key ≡ true }
        ensures { self.new ≡ slice_set self.old place (with_user (row_at self.old place) key) }
    {
        let row = self.rows.item_mut(place);
        match *row {
            Held::Left { kind, id } => *row = Held::One { kind, id },
            Held::WideLeft { place } => *row = Held::WideOne { place },
            Held::Listed { place } => self.slots.item_mut(place as usize).list.come_back(key),
            _ => unreachable!(),
        }
    }

    /// A user of now leaves.
    pub fn leave(&mut self, place: usize, key: Key)
        requires { lists_key (row_at self.old place).present key ≡ true }
        ensures { self.new ≡ slice_set self.old place (without_user (row_at self.old place) key) }
    {
        let row = self.rows.item_mut(place);
        match *row {
            Held::One { kind, id } => *row = Held::Left { kind, id },
            Held::WideOne { place } => *row = Held::WideLeft { place },
            Held::Listed { place } => self.slots.item_mut(place as usize).list.leave(key),
            _ => unreachable!(),
        }
    }

    /// Gives a list back that can do without.
    fn shrink(&mut self, place: usize)
        ensures { self.new ≡ self.old }
    {
        if let Held::Listed { place: at } = held_in(&self.rows, place)
            && let Some(less) = without_list(list_in(&self.slots, at))
        {
            *self.rows.item_mut(place) = less;
            give_back(self.alloc, &mut self.slots, &mut self.spare, at);
        }
    }
}

/// What stands in a row: nothing past the last.
fn held_in(rows: &Segments<Held>, place: usize) -> Held
    ensures { result ≡ held_at rows.now place }
{
    match rows.get(place) {
        Some(row) => *row,
        None => Held::Nothing,
    }
}

/// The list at a place.
fn list_in(slots: &Segments<Slot>, place: u32) -> &KeyList
    requires { place < length slots.now }
    ensures { result.now ≡ (slot_at slots.now place).list }
{
    match slots.get(place as usize) {
        Some(slot) => &slot.list,
        None => unreachable!(),
    }
}

fn is_known_in(list: &KeyList, key: Key) -> bool
    ensures { result ≡ lists_key list.now.present key || lists_key list.now.past key }
{
    is_listed(list.present(), key) || is_listed(list.past(), key)
}

/// A list without keys, with room for some.
fn roomy_list(alloc: Global, room: usize) -> Result<KeyList, Memory>
    ensures { IfOk result (λ list. list ≡ record no_row { free = room }) }
{
    let mut list = KeyList::none(alloc);
    list.promise(room)?;
    Ok(list)
}

/// Puts the users of a row that needed no list in one, with room for one more, and gives its place.
/// `Memory` leaves all as it was.
fn list_apart(
    alloc: Global,
    slots: &mut Segments<Slot>,
    spare: &mut u32,
    wide: &mut WideKeys,
    held: Held,
) -> Result<u32, Memory>
    requires within { wide_end held ≤ length wide.old.keys }
    requires awaited { promises held ≤ wide.old.awaited }
    ensures ok { IfOk result (λ place. IsTaken slots.old slots.new place (with_room (row_held [] wide.old.keys held))) }
    ensures err { OnErr result (slots.new ≡ slots.old) }
    ensures keys { wide.new.keys ≡ wide.old.keys }
    ensures spent { OnOk result (wide.new.awaited + promises held ≡ wide.old.awaited) }
    ensures kept { OnErr result (wide.new.awaited ≡ wide.old.awaited) }
{
    let list = list_of(alloc, wide, held)?;
    let place = take_slot(slots, spare, list)?;
    if let Held::Promised = held {
        wide.release();
    }
    Ok(place)
}

/// The users of a row that needed no list, as one, with room for one more.
fn list_of(alloc: Global, wide: &WideKeys, held: Held) -> Result<KeyList, Memory>
    requires { wide_end held ≤ length wide.now.keys }
    ensures { IfOk result (λ list. list ≡ with_room (row_held [] wide.now.keys held)) }
{
    match held {
        // A row that has a list never comes here: it keeps that.
        Held::Nothing | Held::Listed { .. } => roomy_list(alloc, 1),
        Held::Promised => roomy_list(alloc, 2),
        Held::One { kind, id } => list_of_one(alloc, key_of(kind, id)),
        Held::Left { kind, id } => list_of_left(alloc, key_of(kind, id)),
        Held::WideOne { place } => list_of_one(alloc, wide.key(place)),
        Held::WideLeft { place } => list_of_left(alloc, wide.key(place)),
    }
}

/// A list of one user of now, with room for one more.
fn list_of_one(alloc: Global, key: Key) -> Result<KeyList, Memory>
    ensures { IfOk result (λ list. list ≡ record { present = key ∷ []; past = []; free = 1 }) }
{
    let mut list = roomy_list(alloc, 2)?;
    list.add(key);
    Ok(list)
}

/// A list of one user that left, with room for one more.
fn list_of_left(alloc: Global, key: Key) -> Result<KeyList, Memory>
    ensures { IfOk result (λ list. list ≡ record { present = []; past = key ∷ []; free = 1 }) }
{
    let mut list = list_of_one(alloc, key)?;
    list.leave(key);
    Ok(list)
}
