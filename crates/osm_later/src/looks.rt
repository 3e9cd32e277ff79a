//! What a plan looked at on a map, and where it and another map differ.
ghost use Rattle.std.specs.Prelude.{◌≡◌};
ghost use Rattle.osm_later.specs.Still.{first_apart};

use osm_base::{Items, Key};

/// How many versions an element had, where a plan looked at it. One that never was had 0.
#[derive(Clone, Copy)]
pub struct CountLook {
    pub key: Key,
    pub count: u64,
}

/// Which elements used an element, in the order of keys, where a plan looked at it.
#[derive(Drop)]
pub struct UsersLook {
    pub key: Key,
    pub users: Items<Key>,
}

/// Where a plan and a map differ.
#[derive(Clone, Copy, Drop)]
pub enum Look {
    /// An element had `planned` versions, and has `found`.
    Count { key: Key, planned: u64, found: u64 },
    /// `user` is the least that uses the element on one of the two maps alone.
    Users { key: Key, user: Key },
}

/// The first key that stands in one alone of two lists in rising order. It walks both once.
pub fn first_apart(one: &[Key], other: &[Key]) -> Option<Key>
    ensures { result ≡ first_apart one.now other.now }
{
    let both = one.len().min(other.len());
    for place in 0..both {
        if !one[place].is(other[place]) {
            return Some(lesser(one[place], other[place]));
        }
    }
    match one.get(both) {
        Some(key) => Some(*key),
        None => other.get(both).copied(),
    }
}

ghost use Rattle.std.specs.Prelude.{if◌then◌else◌};
ghost use Rattle.osm_base.specs.Key.{key_lt};

/// The one of two keys that comes first.
fn lesser(one: Key, other: Key) -> Key
    ensures { result ≡ if key_lt one other then one else other }
{
    if one.is_before(other) { one } else { other }
}
