//! Histories, under promised room.
use history_store::{Store, Want};
use osm_base::{Coord, Key, Kind, Memory, Stamp};
use osm_element::{Content, Tags, Version};
use std::alloc::Global;

const NODE: Key = Key {
    kind: Kind::Node,
    id: 1,
};

fn version_at(alloc: Global, at: Coord) -> Version {
    let content = Some(Content::Node(at));
    Version::new(content, Tags::none(alloc), 1, Stamp(1_700_000_000))
}

/// Whether room changes nothing that is kept, and a version then stands in it.
fn takes_a_version(alloc: Global, store: &mut Store) -> Result<bool, Memory> {
    let Some(at) = Coord::new(5, 6) else {
        return Ok(false);
    };
    let want = Want {
        key: NODE,
        versions: 1,
    };
    store.room(alloc, &[want])?;
    if store.next_id(Kind::Node) != 1 || store.count(NODE) != 0 {
        return Ok(false);
    }
    store.push_version(NODE, version_at(alloc, at));
    Ok(store.next_id(Kind::Node) == 2 && store.count(NODE) == 1)
}

pub fn a_version_stands_in_its_room(alloc: Global) -> Result<bool, Memory> {
    let mut store = Store::new(alloc);
    takes_a_version(alloc, &mut store)
}
