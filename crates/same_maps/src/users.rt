//! Whether the users of each element are those that list it on the plain map.
use osm_base::{Key, Kind, Memory};
use osm_element::Elements;
use osm_world::World;
use std::alloc::Global;

const KINDS: [Kind; 3] = [Kind::Node, Kind::Way, Kind::Relation];

/// Of each element whose id was given.
pub fn are_users_same(alloc: Global, elements: &Elements, world: &World) -> Result<bool, Memory> {
    let uses = uses_of(alloc, elements)?;
    let mut place = 0;
    for kind in KINDS {
        for id in 0..elements.next_id(kind) {
            let key = Key { kind, id };
            let listed = world.users(key);
            let users = listed.items();
            if !are_due(uses.as_slice(), place, key, users) {
                return Ok(false);
            }
            place = users.len().saturating_add(place);
        }
    }
    Ok(place == uses.len())
}

/// Whether the uses from a place on are those of that element by these.
fn are_due(uses: &[(Key, Key)], place: usize, key: Key, users: &[Key]) -> bool {
    if place.saturating_add(users.len()) > uses.len() {
        return false;
    }
    for (due, user) in uses.iter().skip(place).zip(users.iter()) {
        if *due != (key, *user) {
            return false;
        }
    }
    true
}

/// Each element that is used with each that uses it, in order.
fn uses_of(alloc: Global, elements: &Elements) -> Result<Vec<(Key, Key)>, Memory> {
    let mut uses = Vec::new(alloc);
    for kind in [Kind::Way, Kind::Relation] {
        for id in 0..elements.next_id(kind) {
            add_uses(alloc, elements, Key { kind, id }, &mut uses)?;
        }
    }
    uses.sort_unstable();
    uses.dedup();
    Ok(uses)
}

/// Adds what the element lists, but for itself.
fn add_uses(
    alloc: Global,
    elements: &Elements,
    user: Key,
    uses: &mut Vec<(Key, Key)>,
) -> Result<(), Memory> {
    for used in elements.refs(alloc, user)? {
        if !used.is(user) {
            uses.push((used, user))?;
        }
    }
    Ok(())
}
