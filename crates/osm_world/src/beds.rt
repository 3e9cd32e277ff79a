//! What is laid by for an entry.
ghost use Rattle.std.specs.Prelude.{◌≡◌, ◌≤◌, [], IfOk};

use osm_base::{Items, Key, Memory, Roomy};
use osm_element::{BoxedItems, Member};
use std::alloc::Global;

/// Places for a list in a box: room for its items, and the box, which holds none yet.
#[derive(Drop)]
pub struct BoxedRoom<T> {
    pub room: Roomy<T>,
    pub place: BoxedItems<T>,
}

impl<T: Drop> BoxedRoom<T> {
    /// Places for so many items.
    pub fn for_items(alloc: Global, count: usize) -> Result<BoxedRoom<T>, Memory>
        ensures empty { IfOk result (λ places. places.room.items ≡ []) }
        ensures room { IfOk result (λ places. count ≤ places.room.free) }
    {
        let place = BoxedItems::of(alloc, Vec::new(alloc))?;
        let mut room = Roomy::none(alloc);
        room.promise(count)?;
        Ok(BoxedRoom { room, place })
    }
}

/// Places for the references of a content.
#[derive(Drop)]
pub enum Places {
    None,
    Nodes(BoxedRoom<u64>),
    Members(BoxedRoom<Member<u64>>),
}

/// What one operation of an entry needs: its element, the elements that its content lists, in
/// order and each once, and places for its references.
#[derive(Drop)]
pub struct Bed {
    pub key: Key,
    pub listed: Items<Key>,
    pub places: Places,
}

impl Bed {
    /// It takes no memory.
    pub fn none(alloc: Global, key: Key) -> Bed
        ensures key { result.key ≡ key }
        ensures listed { result.listed ≡ [] }
    {
        Bed {
            key,
            listed: Items::none(alloc),
            places: Places::None,
        }
    }
}

/// What was laid by for an entry: places for the keys of its operations, and what each needs.
#[derive(Drop)]
pub struct Laid {
    pub keys: Roomy<Key>,
    pub beds: Items<Bed>,
}

impl Laid {
    /// It takes no memory.
    pub fn none(alloc: Global) -> Laid
        ensures { result.beds ≡ [] }
    {
        Laid {
            keys: Roomy::none(alloc),
            beds: Items::none(alloc),
        }
    }
}
