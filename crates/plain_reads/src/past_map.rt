//! The map of a box, of the elements alone that are visible and not marked.
ghost use Rattle.std.specs.Prelude.{◌≡◌, ◌⊎◌, ◌&&◌, ◌||◌, map, filter, IfOk, Err};
ghost use Rattle.std.specs.List.{list_any};
ghost use Rattle.osm_base.specs.Key.{lists_key};
ghost use Rattle.osm_element.specs.Elements.{keys, refs_of};
ghost use Rattle.osm_model.specs.Past.{is_last_shown};
ghost use Rattle.osm_model.specs.PastMap.{is_in, is_listed_by, is_on_map, keys_of, map_shown, nodes_in, users_among};
ghost use Rattle.osm_model.specs.Reads.{current_shown};

use crate::lists::{given_keys_once, shown_keys};
use crate::past::is_last_shown;
use osm_base::{AREA_LIMIT, Box7, Items, Key, Kind, MAP_NODE_LIMIT, Memory};
use osm_change::{MapFault, VersionId};
use osm_element::Elements;
use std::alloc::Global;

/// The nodes in a box, the ways that list one of them, all nodes of these ways, the relations that
/// list one of all these, and the relations that list one of those.
pub fn map_shown(
    alloc: Global,
    elements: &Elements,
    within: &Box7,
) -> Result<Items<VersionId>, MapFault>
    ensures { (result ≡ map_shown elements.now within.now) ⊎ (result ≡ Err MapFault.Memory) }
{
    let area = within.area();
    if area > AREA_LIMIT {
        return Err(MapFault::TooLarge { area });
    }
    let base = nodes_in(alloc, elements, within)?;
    let nodes = base.len() as u64;
    if nodes > MAP_NODE_LIMIT {
        return Err(MapFault::TooMany { nodes });
    }
    let shown = shown_with(alloc, elements, within, base.as_slice())?;
    Ok(shown)
}

/// What the nodes in the box bring with them.
fn shown_with(
    alloc: Global,
    elements: &Elements,
    within: &Box7,
    base: &[Key],
) -> Result<Items<VersionId>, Memory>
    requires { base.now ≡ nodes_in elements.now within.now }
    ensures { IfOk result (λ found. found ≡ map (current_shown elements.now) (filter (is_on_map elements.now within.now) (keys elements.now))) }
{
    let ways = users_among(alloc, elements, Kind::Way, base)?;
    let mut found = nodes_near(alloc, elements, within, ways.as_slice())?;
    found.extend_from_slice(ways.as_slice())?;
    let first = users_among(alloc, elements, Kind::Relation, found.as_slice())?;
    let more = users_among(alloc, elements, Kind::Relation, first.as_slice())?;
    found.extend_from_slice(first.as_slice())?;
    found.extend_from_slice(more.as_slice())?;
    let rising = given_keys_once(elements, found);
    let shown = shown_keys(alloc, elements, rising.as_slice())?;
    Ok(shown)
}

// ---- the elements of a kind that pass a test, by id

fn keys_of(alloc: Global, elements: &Elements, kind: Kind) -> Result<Vec<Key>, Memory>
    ensures { IfOk result (λ found. found.items ≡ keys_of elements.now kind) }
{
    let mut found = Vec::new(alloc);
    for place in 0..elements.histories(kind).len() {
        let id = place as u64 + 1;
        found.push(Key { kind, id })?;
    }
    Ok(found)
}

/// The nodes in a box.
fn nodes_in(alloc: Global, elements: &Elements, within: &Box7) -> Result<Vec<Key>, Memory>
    ensures { IfOk result (λ found. found.items ≡ nodes_in elements.now within.now) }
{
    let mut found = keys_of(alloc, elements, Kind::Node)?;
    found.retain(|key| is_last_shown(elements, *key) && is_in(elements, within, *key));
    Ok(found)
}

/// Those of a kind that list one of some.
fn users_among(
    alloc: Global,
    elements: &Elements,
    kind: Kind,
    among: &[Key],
) -> Result<Vec<Key>, Memory>
    ensures { IfOk result (λ found. found.items ≡ users_among elements.now kind among.now) }
{
    let mut found = keys_of(alloc, elements, kind)?;
    found.retain(|key| is_last_shown(elements, *key) && lists_one(elements, among, *key));
    Ok(found)
}

/// The nodes in a box, and those that one of some ways lists.
fn nodes_near(
    alloc: Global,
    elements: &Elements,
    within: &Box7,
    ways: &[Key],
) -> Result<Vec<Key>, Memory>
    ensures { IfOk result (λ found. found.items ≡ filter
        (λ k. is_last_shown elements.now k && (is_in elements.now within.now k || is_listed_by elements.now ways.now k))
        (keys_of elements.now Kind.Node)) }
{
    let mut found = keys_of(alloc, elements, Kind::Node)?;
    found.retain(|key| {
        is_last_shown(elements, *key)
            && (is_in(elements, within, *key) || is_listed_by(elements, ways, *key))
    });
    Ok(found)
}

// ---- the tests

fn is_in(elements: &Elements, within: &Box7, key: Key) -> bool
    ensures { result ≡ is_in elements.now within.now key }
{
    match elements.position(key) {
        Some(at) => within.holds(at),
        None => false,
    }
}

fn lists(elements: &Elements, user: Key, used: Key) -> bool
    ensures { result ≡ lists_key (refs_of elements.now user) used }
{
    match elements.content(user) {
        Some(content) => content.lists(used),
        None => false,
    }
}

/// Whether an element lists one of some.
fn lists_one(elements: &Elements, among: &[Key], key: Key) -> bool
    ensures { result ≡ list_any (λ used. lists_key (refs_of elements.now key) used) among.now }
{
    among.iter().any(|used| lists(elements, key, *used))
}

/// Whether one of some elements lists it.
fn is_listed_by(elements: &Elements, ways: &[Key], key: Key) -> bool
    ensures { result ≡ is_listed_by elements.now ways.now key }
{
    ways.iter().any(|way| lists(elements, *way, key))
}
