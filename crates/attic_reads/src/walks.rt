//! What is found of the past by the indexes that never forget. They give elements some version of
//! which passed, so each one's history is cut and tested.
ghost use Rattle.std.specs.Prelude.{◌≡◌, ◌++◌, ◌∷◌, ◌&&◌, ◌||◌, [], map, filter, IfOk, OnOk};
ghost use Rattle.std.specs.List.{list_any};
ghost use Rattle.osm_base.specs.Key.{key_eq, kind_eq, lists_key, IsRising};
ghost use Rattle.osm_base.specs.Place.{IsArea};
ghost use Rattle.osm_base.specs.declared.keys.Key.{Key};
ghost use Rattle.osm_element.specs.Elements.{key};
ghost use Rattle.osm_model.specs.Past.{elements_by, is_last_shown};
ghost use Rattle.osm_model.specs.PastMap.{is_in, lists_one, nodes_in, users_among};
ghost use Rattle.osm_world.specs.World.{state_of};
ghost use Rattle.attic_reads.specs.Attic.{AreInOrder, is_candidate};

use crate::contents::{lay_in, listed_one};
use crate::histories::ordered;
use history_store::Store;
use indexed_map::nodes_that_lay_there_are_placed;
use osm_base::{Box7, Key, Kind, Memory};
use osm_world::World;
use rising_lists::keys_sorted_once;
use std::alloc::Global;
use tile_grid::boxes_touch_what_they_hold;

// ---- nodes

/// The nodes that are shown and lay in a box, by id. It looks at the histories alone of nodes that
/// ever lay in a cell that the box touches.
pub fn nodes_in(alloc: Global, world: &World, at: u64, within: &Box7) -> Result<Vec<Key>, Memory>
    requires { IsArea within.now.left within.now.bottom within.now.right within.now.top }
    ensures rising { IfOk result (λ found. IsRising found.items) }
    ensures found { IfOk result (λ found. found.items ≡ nodes_in (elements_by at (state_of world.now).elements) within.now) }
{
    boxes_touch_what_they_hold();
    nodes_that_lay_there_are_placed();
    let near = world.grid().rows_ever_of(alloc, within)?;
    let found = nodes_among(alloc, ordered(world), at, within, near.as_slice())?;
    Ok(found)
}

/// Those of some nodes that are shown and lay in a box.
fn nodes_among(
    alloc: Global,
    store: &Store,
    at: u64,
    within: &Box7,
    near: &[u64],
) -> Result<Vec<Key>, Memory>
    requires { AreInOrder store.now.elements }
    ensures { IfOk result (λ found. found.items ≡ filter
        (λ k. is_last_shown (elements_by at store.now.elements) k && is_in (elements_by at store.now.elements) within.now k)
        (map (key Kind.Node) near.now)) }
{
    let mut found = Vec::new(alloc);
    for id in near {
        add_node(store, *id, at, within, &mut found)?;
    }
    Ok(found)
}

/// Adds a node, if it is shown and lay in a box.
fn add_node(
    store: &Store,
    id: u64,
    at: u64,
    within: &Box7,
    found: &mut Vec<Key>,
) -> Result<(), Memory>
    requires { AreInOrder store.now.elements }
    ensures { IfOk result (λ _. found.new.items ≡ found.old.items ++ filter
        (λ k. is_last_shown (elements_by at store.now.elements) k && is_in (elements_by at store.now.elements) within.now k)
        (key Kind.Node id ∷ [])) }
{
    let node = Key {
        kind: Kind::Node,
        id,
    };
    if lay_in(store, node, at, within) {
        found.push(node)?;
    }
    Ok(())
}

// ---- users

/// The elements of a kind that are shown and listed one of some keys in order, by id. It looks at
/// the histories alone of these keys and of elements that ever listed one of them.
pub fn users_among(
    alloc: Global,
    world: &World,
    kind: Kind,
    at: u64,
    among: &[Key],
) -> Result<Vec<Key>, Memory>
    requires { IsRising among.now }
    ensures rising { IfOk result (λ found. IsRising found.items) }
    ensures found { IfOk result (λ found. found.items ≡ users_among (elements_by at (state_of world.now).elements) kind among.now) }
{
    let near = candidates(alloc, world, kind, among)?;
    let found = listing(alloc, ordered(world), at, near.as_slice(), among)?;
    Ok(found)
}

/// Those of some elements that are shown and listed one of some keys in order.
fn listing(
    alloc: Global,
    store: &Store,
    at: u64,
    near: &[Key],
    among: &[Key],
) -> Result<Vec<Key>, Memory>
    requires order { AreInOrder store.now.elements }
    requires rising { IsRising among.now }
    ensures { IfOk result (λ found. found.items ≡ filter
        (λ k. is_last_shown (elements_by at store.now.elements) k && lists_one (elements_by at store.now.elements) among.now k) near.now) }
{
    let mut found = Vec::new(alloc);
    for user in near {
        add_listing(store, *user, at, among, &mut found)?;
    }
    Ok(found)
}

/// Adds an element, if it is shown and listed one of some keys in order.
fn add_listing(
    store: &Store,
    user: Key,
    at: u64,
    among: &[Key],
    found: &mut Vec<Key>,
) -> Result<(), Memory>
    requires order { AreInOrder store.now.elements }
    requires rising { IsRising among.now }
    ensures { IfOk result (λ _. found.new.items ≡ found.old.items ++ filter
        (λ k. is_last_shown (elements_by at store.now.elements) k && lists_one (elements_by at store.now.elements) among.now k)
        (user ∷ [])) }
{
    if listed_one(store, user, at, among) {
        found.push(user)?;
    }
    Ok(())
}

/// Those of some keys that are of a kind, and the elements of the kind that ever listed one of them,
/// in order.
fn candidates(alloc: Global, world: &World, kind: Kind, among: &[Key]) -> Result<Vec<Key>, Memory>
    ensures rising { IfOk result (λ found. IsRising found.items) }
    ensures each { IfOk result (λ found. (x : Key) → lists_key found.items x ≡ list_any
        (λ b. is_candidate (state_of world.now).elements kind b x) among.now) }
{
    let mut found = Vec::new(alloc);
    add_candidates(world, kind, among, &mut found)?;
    Ok(keys_sorted_once(found))
}

fn add_candidates(
    world: &World,
    kind: Kind,
    among: &[Key],
    found: &mut Vec<Key>,
) -> Result<(), Memory>
    ensures { OnOk result ((x : Key) → lists_key found.new.items x ≡ lists_key found.old.items x || list_any
        (λ b. is_candidate (state_of world.now).elements kind b x) among.now) }
{
    for used in among {
        add_users(world, kind, *used, found)?;
    }
    Ok(())
}

/// Adds a key and the elements that ever listed it, where they are of a kind.
fn add_users(world: &World, kind: Kind, used: Key, found: &mut Vec<Key>) -> Result<(), Memory>
    ensures { OnOk result ((x : Key) → lists_key found.new.items x
        ≡ lists_key found.old.items x || is_candidate (state_of world.now).elements kind used x) }
{
    add_key(kind, used, found)?;
    let users = world.users(used);
    add_of_kind(kind, users.items(), found)?;
    let past = world.users_past(used);
    add_of_kind(kind, past.items(), found)?;
    Ok(())
}

/// Adds those of some keys that are of a kind.
fn add_of_kind(kind: Kind, keys: &[Key], found: &mut Vec<Key>) -> Result<(), Memory>
    ensures { OnOk result ((x : Key) → lists_key found.new.items x ≡ lists_key found.old.items x || list_any
        (λ k. kind_eq k.kind kind && key_eq k x) keys.now) }
{
    for listed in keys {
        add_key(kind, *listed, found)?;
    }
    Ok(())
}

fn add_key(kind: Kind, listed: Key, found: &mut Vec<Key>) -> Result<(), Memory>
    ensures { OnOk result ((x : Key) → lists_key found.new.items x
        ≡ lists_key found.old.items x || (kind_eq listed.kind kind && key_eq listed x)) }
{
    if listed.kind.is(kind) {
        found.push(listed)?;
    }
    Ok(())
}
