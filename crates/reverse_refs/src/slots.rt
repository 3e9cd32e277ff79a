//! Lists of users that stand where they were made, and of which those given back are used again.
ghost use Rattle.std.specs.Prelude.{◌≡◌, ◌≢◌, ◌<◌, ℕ, true, length, OnErr, IfOk};
ghost use Rattle.reverse_refs.specs.Slots.{slot_at, IsTaken};

use crate::key_lists::KeyList;
use osm_base::Memory;
use segment_list::Segments;
use std::alloc::Global;

/// What stands for a place where none is: no list has it.
pub const NO_PLACE: u32 = u32::MAX;

/// A list, or room for one that was given back, after which `next` is the place of another.
#[derive(Drop)]
pub struct Slot {
    pub list: KeyList,
    pub next: u32,
    pub is_used: bool,
}

/// Puts a list where one was given back, or behind all others. `Memory` drops it.
pub fn take_slot(slots: &mut Segments<Slot>, spare: &mut u32, list: KeyList) -> Result<u32, Memory>
    ensures ok { IfOk result (λ place. IsTaken slots.old slots.new place list) }
    ensures err { OnErr result (slots.new ≡ slots.old) }
{
    let place = *spare;
    match slots.get(place as usize) {
        Some(slot) if !slot.is_used => {
            *spare = slot.next;
            *slots.item_mut(place as usize) = used(list);
            Ok(place)
        }
        _ => add_slot(slots, list),
    }
}

/// Puts a list behind all others.
fn add_slot(slots: &mut Segments<Slot>, list: KeyList) -> Result<u32, Memory>
    ensures ok { IfOk result (λ place. IsTaken slots.old slots.new place list) }
    ensures err { OnErr result (slots.new ≡ slots.old) }
{
    let place = slots.len();
    if place >= NO_PLACE as usize {
        return Err(Memory);
    }
    slots.push(used(list))?;
    Ok(place as u32)
}

fn used(list: KeyList) -> Slot
    ensures { result ≡ record { list = list; next = 4294967295; is_used = true } }
{
    Slot {
        list,
        next: NO_PLACE,
        is_used: true,
    }
}

/// Drops the list of a place, where another may stand from then on.
pub fn give_back(alloc: Global, slots: &mut Segments<Slot>, spare: &mut u32, place: u32)
    requires { place < length slots.old }
    ensures { (p : ℕ) → p ≢ place → slot_at slots.new p ≡ slot_at slots.old p }
{
    *slots.item_mut(place as usize) = Slot {
        list: KeyList::none(alloc),
        next: *spare,
        is_used: false,
    };
    *spare = place;
}
