//! Placeholders of an upload.
use osm_base::{Kind, Memory};
use placeholder_map::PlaceholderMap;
use std::alloc::Global;

/// Placeholders that are bound in turn, each to a place, and whether none was bound before.
const BINDINGS: [(Kind, i64, u32, bool); 3] = [
    (Kind::Node, -1, 0, true),
    (Kind::Way, -1, 1, true),
    (Kind::Node, -1, 2, false),
];

fn bind_all(map: &mut PlaceholderMap) -> Result<bool, Memory> {
    let mut is_right = true;
    for (kind, placeholder, place, is_new) in &BINDINGS {
        is_right &= map.bind(*kind, *placeholder, *place)? == *is_new;
    }
    Ok(is_right)
}

fn binds_once(map: &mut PlaceholderMap) -> Result<bool, Memory> {
    let are_bound = bind_all(map)?;
    Ok(
        are_bound
            && map.look(Kind::Node, -1) == Some(0)
            && map.look(Kind::Node, -2) == None
            && map.count(Kind::Node) == 1,
    )
}

pub fn a_placeholder_binds_once(alloc: Global) -> Result<bool, Memory> {
    let mut map = PlaceholderMap::new(alloc);
    binds_once(&mut map)
}
