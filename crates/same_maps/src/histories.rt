//! Whether the histories of both maps are the same.
use crate::same::{Same, are_same};
use osm_base::{Key, Kind};
use osm_element::{Elements, Held, Member, TagList, Version};
use osm_world::World;

const KINDS: [Kind; 3] = [Kind::Node, Kind::Way, Kind::Relation];

/// Of each id that was given, and of the two at the ends of these that weren't.
pub fn are_histories_same(elements: &Elements, world: &World) -> bool {
    for kind in KINDS {
        if !are_kinds_same(elements, world, kind) {
            return false;
        }
    }
    true
}

fn are_kinds_same(elements: &Elements, world: &World, kind: Kind) -> bool {
    let store = world.store();
    let next = elements.next_id(kind);
    if store.next_id(kind) != next {
        return false;
    }
    for id in 0..next {
        let key = Key { kind, id };
        if !are_same(elements.history(key), store.history(key)) {
            return false;
        }
    }
    store.history(Key { kind, id: next }).is_empty()
}

impl Same<Version> for Version {
    fn is_same(&self, other: &Version) -> bool {
        self.changeset() == other.changeset()
            && self.stamp() == other.stamp()
            && self.redaction() == other.redaction()
            && are_tags_same(&self.tags(), &other.tags())
            && is_content_same(&self.content(), &other.content())
    }
}

fn is_content_same(plain: &Option<Held<'_>>, came: &Option<Held<'_>>) -> bool {
    match (plain, came) {
        (None, None) => true,
        (Some(Held::Node(at)), Some(Held::Node(other))) => *at == *other,
        (Some(Held::Way(nodes)), Some(Held::Way(others))) => *nodes == *others,
        (Some(Held::Relation(members)), Some(Held::Relation(others))) => are_same(members, others),
        _ => false,
    }
}

impl Same<Member<u64>> for Member<u64> {
    fn is_same(&self, other: &Member<u64>) -> bool {
        self.kind.is(other.kind)
            && self.name == other.name
            && self.role.as_str() == other.role.as_str()
    }
}

pub fn are_tags_same(plain: &TagList<'_>, came: &TagList<'_>) -> bool {
    if plain.len() != came.len() {
        return false;
    }
    for place in 0..plain.len() {
        if plain.pair(place) != came.pair(place) {
            return false;
        }
    }
    true
}
