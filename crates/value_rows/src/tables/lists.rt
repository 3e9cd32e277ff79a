//! Lists, and lists with promised room.
use osm_base::{Ids, Items, Key, Kind, Memory, Roomy, TryCopy};
use row_lines::Tally;
use std::alloc::Global;

fn an_item_is_changed_in_its_place(alloc: Global) -> Result<bool, Memory> {
    let mut ids: Ids = Items::none(alloc);
    ids.push(3)?;
    ids.push(4)?;
    *ids.item_mut(1) = 9;
    let is_changed = ids.items() == [3, 9].as_slice();
    let replaced = ids.replace(0, 8);
    let copy = ids.copy(alloc)?;
    Ok(is_changed && replaced == 3 && copy.items() == [8, 9].as_slice())
}

fn promised_room_is_used_up(alloc: Global) -> Result<bool, Memory> {
    let mut list: Roomy<u64> = Roomy::none(alloc);
    list.promise(2)?;
    list.promise_ahead(1)?;
    list.push(5);
    list.insert(0, 4);
    Ok(list.items() == [4, 5].as_slice() && list.free() == 1)
}

fn keys_are_ordered_by_kind_then_id() -> bool {
    let node = Key {
        kind: Kind::Node,
        id: 9,
    };
    let way = Key {
        kind: Kind::Way,
        id: 1,
    };
    node.is_before(way) && node < way && node.is(node)
}

pub fn play<R: Print>(rt: &R, alloc: Global, tally: &mut Tally) {
    tally.note(
        rt,
        "an item is changed in its place",
        an_item_is_changed_in_its_place(alloc),
    );
    tally.note(
        rt,
        "promised room is used up",
        promised_room_is_used_up(alloc),
    );
    tally.note(
        rt,
        "keys are ordered by kind, then id",
        Ok(keys_are_ordered_by_kind_then_id()),
    );
}
