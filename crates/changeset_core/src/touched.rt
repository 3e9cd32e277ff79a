//! The box of what a new version touches, read off the lists of elements.
//!
//! The box of what a new content touches is found by one function over whatever tells contents and
//! places (`touched_area` over `Places`, changeset_core): the plain elements do, and the indexed
//! map does.
ghost use Rattle.std.specs.Prelude.{◌≡◌, [], ◌∷◌, map, None, option_to_list};
ghost use Rattle.osm_element.specs.Elements.{key, key_of_member, position_in, refs, refs_of};
ghost use Rattle.osm_element.specs.Held.{held_content};
ghost use Rattle.changeset_core.specs.Changeset.{touched_area, widen_all, widen_by};

use crate::areas::widened;
use crate::places::Places;
use osm_base::{Box7, Key, Kind};
use osm_element::{Content, Held, Member};

/// The least box of what a new content of an element touches, `None` where it touches nothing.
pub fn touched_area<P: Places>(places: &P, key: Key, new: &Option<Content<u64>>) -> Option<Box7>
    ensures { result ≡ touched_area (P.elements places.now) key new.now }
{
    let area = old_area(places, key);
    match new {
        Some(new) => with_content(places, area, &new.held()),
        None => area,
    }
}

/// The box of the place of an element, or of those of what it lists. It is looked up once.
fn old_area<P: Places>(places: &P, key: Key) -> Option<Box7>
    ensures { result ≡ widen_by (P.elements places.now) (widen_by (P.elements places.now) None (key ∷ [])) (refs_of (P.elements places.now) key) }
{
    match places.content_of(key) {
        Some(content) => with_content(places, None, &content),
        None => None,
    }
}

/// The box with the place of a content, or with those of what it lists.
fn with_content<P: Places>(places: &P, area: Option<Box7>, content: &Held<'_>) -> Option<Box7>
    ensures { result
        ≡ widen_all (widen_by (P.elements places.now) area (refs (held_content content.now))) (option_to_list (position_in (held_content content.now))) }
{
    match content {
        Held::Node(at) => widened(area, *at),
        Held::Way(nodes) => with_nodes(places, area, nodes),
        Held::Relation(members) => with_members(places, area, members),
    }
}

/// The box with the place of an element, if it is a visible node.
fn with_element<P: Places>(places: &P, area: Option<Box7>, key: Key) -> Option<Box7>
    ensures { result ≡ widen_by (P.elements places.now) area (key ∷ []) }
{
    match places.place_of(key) {
        Some(at) => widened(area, at),
        None => area,
    }
}

fn with_nodes<P: Places>(places: &P, mut area: Option<Box7>, nodes: &[u64]) -> Option<Box7>
    ensures { result ≡ widen_by (P.elements places.now) area (map (key Kind.Node) nodes.now) }
{
    for id in nodes {
        let node = Key {
            kind: Kind::Node,
            id: *id,
        };
        area = with_element(places, area, node);
    }
    area
}

fn with_members<P: Places>(
    places: &P,
    mut area: Option<Box7>,
    members: &[Member<u64>],
) -> Option<Box7>
    ensures { result ≡ widen_by (P.elements places.now) area (map key_of_member members.now) }
{
    for member in members {
        area = with_element(places, area, member.key());
    }
    area
}
