//! The map of a box as it was.
ghost use Rattle.std.specs.Prelude.{◌≡◌, ◌⊎◌, ◌||◌, ◌&&◌, ◌++◌, ◌∷◌, [], map, filter, IfOk, Err};
ghost use Rattle.std.specs.List.{flat_map};
ghost use Rattle.osm_base.specs.Key.{kind_eq, lists_key, IsRising};
ghost use Rattle.osm_base.specs.declared.keys.Key.{Key};
ghost use Rattle.osm_element.specs.Elements.{keys, refs_of};
ghost use Rattle.osm_model.specs.Past.{elements_by, is_last_shown};
ghost use Rattle.osm_model.specs.PastMap.{is_on_map, map_at, nodes_in};
ghost use Rattle.osm_model.specs.Reads.{current_shown};
ghost use Rattle.osm_world.specs.World.{state_of};
ghost use Rattle.attic_reads.specs.Attic.{AreInOrder};

use crate::elements::shown;
use crate::histories::ordered;
use crate::in_full::{refs_at, shown_of};
use crate::walks::{nodes_in, users_among};
use history_store::Store;
use osm_base::{AREA_LIMIT, Box7, Items, Key, Kind, MAP_NODE_LIMIT, Memory};
use osm_change::{MapFault, VersionId};
use osm_world::World;
use rising_lists::keys_sorted_once;
use std::alloc::Global;

/// The map of a box as it was at a stamp, of the elements that are shown: nodes, ways and relations,
/// each by id. It looks at the histories alone of nodes that ever lay in a cell that the box touches,
/// of what ever listed them, of what that listed, and so on.
pub fn map_at(
    alloc: Global,
    world: &World,
    within: Box7,
    at: u64,
) -> Result<Items<VersionId>, MapFault>
    ensures { (result ≡ map_at (state_of world.now) within at) ⊎ (result ≡ Err MapFault.Memory) }
{
    let area = within.area();
    if area > AREA_LIMIT {
        return Err(MapFault::TooLarge { area });
    }
    let base = nodes_in(alloc, world, at, &within)?;
    let nodes = base.len() as u64;
    if nodes > MAP_NODE_LIMIT {
        return Err(MapFault::TooMany { nodes });
    }
    let found = shown_with(alloc, world, at, &within, base)?;
    Ok(found)
}

/// What the nodes in a box bring with them, each as it was.
fn shown_with(
    alloc: Global,
    world: &World,
    at: u64,
    within: &Box7,
    base: Vec<Key>,
) -> Result<Items<VersionId>, Memory>
    requires rising { IsRising base.items }
    requires base { base.items ≡ nodes_in (elements_by at (state_of world.now).elements) within.now }
    ensures { IfOk result (λ found. found ≡ map (current_shown (elements_by at (state_of world.now).elements)) (filter
        (is_on_map (elements_by at (state_of world.now).elements) within.now) (keys (elements_by at (state_of world.now).elements)))) }
{
    let store = ordered(world);
    let ways = users_among(alloc, world, Kind::Way, at, base.as_slice())?;
    let listed = refs_of_all(alloc, store, ways.as_slice(), at)?;
    let candidates = united(base, listed.as_slice())?;
    let nodes = shown_nodes(alloc, store, candidates.as_slice(), at)?;
    let used = united(nodes, ways.as_slice())?;
    let first = users_among(alloc, world, Kind::Relation, at, used.as_slice())?;
    let more = users_among(alloc, world, Kind::Relation, at, first.as_slice())?;
    let near = joined(used, first.as_slice())?;
    let all = united(near, more.as_slice())?;
    let found = shown_of(alloc, store, all.as_slice(), at)?;
    Ok(found)
}

/// One list after the other.
fn joined(keys: Vec<Key>, others: &[Key]) -> Result<Vec<Key>, Memory>
    ensures { IfOk result (λ all. all.items ≡ keys.items ++ others.now) }
{
    let mut all = keys;
    all.extend_from_slice(others)?;
    Ok(all)
}

/// The keys of two lists, in order.
fn united(keys: Vec<Key>, others: &[Key]) -> Result<Vec<Key>, Memory>
    ensures rising { IfOk result (λ all. IsRising all.items) }
    ensures same { IfOk result (λ all. (x : Key) → lists_key all.items x ≡ lists_key keys.items x || lists_key others.now x) }
{
    let all = joined(keys, others)?;
    Ok(keys_sorted_once(all))
}

/// What some elements listed, in no order.
fn refs_of_all(alloc: Global, store: &Store, of: &[Key], at: u64) -> Result<Vec<Key>, Memory>
    requires { AreInOrder store.now.elements }
    ensures { IfOk result (λ found. found.items ≡ flat_map (refs_of (elements_by at store.now.elements)) of.now) }
{
    let mut found = Vec::new(alloc);
    for key in of {
        let listed = refs_at(alloc, store, *key, at)?;
        found.extend_from_slice(listed.as_slice())?;
    }
    Ok(found)
}

/// The nodes among some elements that are shown.
fn shown_nodes(alloc: Global, store: &Store, listed: &[Key], at: u64) -> Result<Vec<Key>, Memory>
    requires { AreInOrder store.now.elements }
    ensures { IfOk result (λ found. found.items
        ≡ filter (λ k. kind_eq k.kind Kind.Node && is_last_shown (elements_by at store.now.elements) k) listed.now) }
{
    let mut found = Vec::new(alloc);
    for key in listed {
        add_shown_node(store, *key, at, &mut found)?;
    }
    Ok(found)
}

/// Adds an element, if it is a node that is shown.
fn add_shown_node(store: &Store, key: Key, at: u64, found: &mut Vec<Key>) -> Result<(), Memory>
    requires { AreInOrder store.now.elements }
    ensures { IfOk result (λ _. found.new.items ≡ found.old.items ++ filter
        (λ k. kind_eq k.kind Kind.Node && is_last_shown (elements_by at store.now.elements) k) (key ∷ [])) }
{
    if is_shown_node(store, key, at) {
        found.push(key)?;
    }
    Ok(())
}

fn is_shown_node(store: &Store, key: Key, at: u64) -> bool
    requires { AreInOrder store.now.elements }
    ensures { result ≡ kind_eq key.kind Kind.Node && is_last_shown (elements_by at store.now.elements) key }
{
    key.kind.is(Kind::Node) && shown(store, key, at).is_some()
}
