//! What stands in an element's row: its one user, or where its list is.
ghost use Rattle.std.specs.Prelude.{◌≡◌, ◌∷◌, ◌-◌, ◌<◌, ℕ, List, [], length, IfSome, IfOk};
ghost use Rattle.osm_base.specs.Key.{IsRising};
ghost use Rattle.reverse_refs.specs.Held.{row_held, key_at, IsSmall, IsAdded};
ghost use Rattle.reverse_refs.specs.declared.slots.Slot.{Slot};

use crate::key_lists::KeyList;
use crate::wide_keys::WideKeys;
use osm_base::{Key, Kind, Memory};
use std::alloc::Global;
use std::mem::size_of;

/// What stands in a row. Most rows have one user, of now or, where it left, of before, which stands
/// here in its parts. One whose id needs more than 32 bits stands apart, as does a list.
#[derive(Clone, Copy)]
pub enum Held {
    Nothing,
    Promised,
    One { kind: Kind, id: u32 },
    Left { kind: Kind, id: u32 },
    WideOne { place: u32 },
    WideLeft { place: u32 },
    Listed { place: u32 },
}

const _: () = prove!(size_of::<Held>() == 8);

/// The key of two parts that stand in a row.
pub fn key_of(kind: Kind, id: u32) -> Key
    ensures { result ≡ record { kind = kind; id = id } }
{
    Key {
        kind,
        id: u64::from(id),
    }
}

/// One user of now, on the room that was promised it.
pub fn one_of(wide: &mut WideKeys, key: Key) -> Held
    requires { 0 < wide.old.awaited }
    ensures row { (slots : List Slot) → row_held slots wide.new.keys result ≡ record { present = key ∷ []; past = []; free = 0 } }
    ensures added { IsAdded wide.old.keys wide.new.keys }
    ensures small { IsSmall (length wide.new.keys) result }
    ensures awaited { wide.new.awaited ≡ wide.old.awaited - 1 }
{
    match u32::try_from(key.id) {
        Ok(id) => {
            wide.release();
            Held::One { kind: key.kind, id }
        }
        Err(_) => Held::WideOne {
            place: wide.put(key),
        },
    }
}

/// The same without a list, where that is possible: no wide key stands in a row that had a list.
pub fn without_list(list: &KeyList) -> Option<Held>
    ensures { IfSome result (λ less. IsSmall 0 less × ((slots : List Slot) (keys : List Key) → row_held slots keys less ≡ list.now)) }
{
    match (list.present(), list.past(), list.free()) {
        ([], [], 0) => Some(Held::Nothing),
        ([key], [], 0) => match u32::try_from(key.id) {
            Ok(id) => Some(Held::One { kind: key.kind, id }),
            Err(_) => None,
        },
        ([], [key], 0) => match u32::try_from(key.id) {
            Ok(id) => Some(Held::Left { kind: key.kind, id }),
            Err(_) => None,
        },
        _ => None,
    }
}
