//! An element as it was, with what it listed.
ghost use Rattle.std.specs.Prelude.{◌≡◌, ◌++◌, ◌∷◌, ◌&&◌, [], map, filter, IfOk};
ghost use Rattle.osm_base.specs.Key.{lists_key};
ghost use Rattle.osm_base.specs.declared.keys.Key.{Key};
ghost use Rattle.osm_element.specs.Elements.{keys, refs_in, refs_of};
ghost use Rattle.osm_model.specs.Past.{elements_by, is_last_shown, in_full_unmarked, shown_way_refs, full_at};
ghost use Rattle.osm_model.specs.Reads.{current_shown};
ghost use Rattle.osm_world.specs.World.{state_of};
ghost use Rattle.attic_reads.specs.Attic.{AreInOrder, IsRead, held};

use crate::contents::held;
use crate::elements::{one, shown};
use crate::histories::content_at;
use history_store::Store;
use osm_base::{Items, Key, Kind, Memory};
use osm_change::{ReadFault, VersionId};
use osm_world::World;
use rising_lists::keys_sorted_once;
use std::alloc::Global;

/// An element as `one_at` shows it, with what it listed then and the nodes of the ways that it
/// listed, in the order of keys. Those of them that are hidden are left out, and so is what a way
/// had that is hidden.
pub fn full_at(
    alloc: Global,
    world: &World,
    key: Key,
    at: u64,
) -> Result<Items<VersionId>, ReadFault>
    ensures { IsRead (full_at (state_of world.now) key at) result }
{
    world.laws();
    let store = world.store();
    one(store, key, at)?;
    let found = with_listed(alloc, store, key, at)?;
    Ok(found)
}

/// The element with what it listed, each that is shown.
fn with_listed(alloc: Global, store: &Store, key: Key, at: u64) -> Result<Items<VersionId>, Memory>
    requires { AreInOrder store.now.elements }
    ensures { IfOk result (λ found. found ≡ map (current_shown (elements_by at store.now.elements)) (filter
        (λ x. in_full_unmarked (elements_by at store.now.elements) key x && is_last_shown (elements_by at store.now.elements) x)
        (keys (elements_by at store.now.elements)))) }
{
    let rising = keys_sorted_once(gathered(alloc, store, key, at)?);
    let found = shown_of(alloc, store, rising.as_slice(), at)?;
    Ok(found)
}

/// Each of some elements that is shown.
pub fn shown_of(
    alloc: Global,
    store: &Store,
    listed: &[Key],
    at: u64,
) -> Result<Items<VersionId>, Memory>
    requires { AreInOrder store.now.elements }
    ensures { IfOk result (λ found. found ≡ map (current_shown (elements_by at store.now.elements))
        (filter (is_last_shown (elements_by at store.now.elements)) listed.now)) }
{
    let mut found = Vec::with_capacity(alloc, listed.len())?;
    for key in listed {
        add_shown(store, *key, at, &mut found)?;
    }
    Ok(Items::of(found))
}

/// Adds an element as it was, if it is shown.
fn add_shown(store: &Store, key: Key, at: u64, found: &mut Vec<VersionId>) -> Result<(), Memory>
    requires { AreInOrder store.now.elements }
    ensures { IfOk result (λ _. found.new.items ≡ found.old.items ++ map (current_shown (elements_by at store.now.elements))
        (filter (is_last_shown (elements_by at store.now.elements)) (key ∷ []))) }
{
    if let Some(shown) = shown(store, key, at) {
        found.push(shown)?;
    }
    Ok(())
}

/// The element, what it listed, and what those ways that it listed listed that are shown, in no
/// order.
fn gathered(alloc: Global, store: &Store, key: Key, at: u64) -> Result<Vec<Key>, Memory>
    requires { AreInOrder store.now.elements }
    ensures { IfOk result (λ found. (x : Key) → lists_key found.items x ≡ in_full_unmarked (elements_by at store.now.elements) key x) }
{
    let mut found = refs_at(alloc, store, key, at)?;
    let listed = found.len();
    found.push(key)?;
    for place in 0..listed {
        let member = found[place];
        add_way_refs(alloc, store, member, at, &mut found)?;
    }
    Ok(found)
}

/// What an element listed, in list order.
pub fn refs_at(alloc: Global, store: &Store, key: Key, at: u64) -> Result<Vec<Key>, Memory>
    requires { AreInOrder store.now.elements }
    ensures { IfOk result (λ found. found.items ≡ refs_of (elements_by at store.now.elements) key) }
{
    match content_at(store, key, at) {
        Some(content) => content.refs(alloc),
        None => Ok(Vec::new(alloc)),
    }
}

/// Adds what a way listed that is shown, and nothing for another element.
fn add_way_refs(
    alloc: Global,
    store: &Store,
    key: Key,
    at: u64,
    found: &mut Vec<Key>,
) -> Result<(), Memory>
    requires { AreInOrder store.now.elements }
    ensures { IfOk result (λ _. found.new.items ≡ found.old.items ++ shown_way_refs (elements_by at store.now.elements) key) }
{
    if !key.kind.is(Kind::Way) {
        return Ok(());
    }
    let listed = shown_refs_at(alloc, store, key, at)?;
    found.extend_from_slice(listed.as_slice())?;
    Ok(())
}

/// What an element listed that is shown, in list order.
fn shown_refs_at(alloc: Global, store: &Store, key: Key, at: u64) -> Result<Vec<Key>, Memory>
    requires { AreInOrder store.now.elements }
    ensures { IfOk result (λ found. found.items ≡ refs_in (held (elements_by at store.now.elements) key)) }
{
    match held(store, key, at) {
        Some(content) => content.refs(alloc),
        None => Ok(Vec::new(alloc)),
    }
}
