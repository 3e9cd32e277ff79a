//! An element with what it lists.
//!
//! An element that lists itself is in its full read once, and isn't among its own users.
ghost use Rattle.std.specs.Prelude.{◌≡◌, ◌++◌, if◌then◌else◌, [], true, map, filter, IfOk};
ghost use Rattle.osm_base.specs.Key.{lists_key};
ghost use Rattle.osm_base.specs.declared.keys.Key.{Key};
ghost use Rattle.osm_element.specs.Elements.{key, key_of_member, keys, is_visible, refs, refs_of, IsConsistent};
ghost use Rattle.osm_element.specs.Held.{held_content};
ghost use Rattle.osm_model.specs.Reads.{current_shown, full, in_full, is_way, way_refs};
ghost use Rattle.osm_world.specs.World.{state_of};
ghost use Rattle.read_calls.specs.Read.{IsRead};

use crate::elements::{content, current, one};
use history_store::Store;
use osm_base::{Items, Key, Kind, Memory};
use osm_change::{ReadFault, VersionId};
use osm_element::{Held, Member};
use osm_world::World;
use rising_lists::keys_sorted_once;
use std::alloc::Global;

/// An element with what it lists, and with the nodes of the ways that it lists, in the order of
/// keys. It costs a sort of what these list.
#[tactic(auto, using(crate::proofs::Visible::one_visible))]
pub fn full(alloc: Global, world: &World, key: Key) -> Result<Items<VersionId>, ReadFault>
    ensures { IsRead (full (state_of world.now).elements key) result }
{
    world.laws();
    one(world, key)?;
    let shown = with_listed(alloc, world.store(), key)?;
    Ok(shown)
}

/// All that a visible element lists is there, so nothing is left out of what was gathered.
fn with_listed(alloc: Global, store: &Store, key: Key) -> Result<Items<VersionId>, Memory>
    requires consistent { IsConsistent store.now.elements }
    requires visible { is_visible store.now.elements key ≡ true }
    ensures { IfOk result (λ found. found
        ≡ map (current_shown store.now.elements) (filter (in_full store.now.elements key) (keys store.now.elements))) }
{
    let rising = keys_sorted_once(gathered(alloc, store, key)?);
    let shown = shown_keys(alloc, store, rising.as_slice())?;
    Ok(shown)
}

/// Each of some elements, as it is now.
fn shown_keys(alloc: Global, store: &Store, listed: &[Key]) -> Result<Items<VersionId>, Memory>
    ensures { IfOk result (λ found. found ≡ map (current_shown store.now.elements) listed.now) }
{
    let mut found = Vec::with_capacity(alloc, listed.len())?;
    for key in listed {
        found.push(current(store, *key))?;
    }
    Ok(Items::of(found))
}

/// The element, what it lists, and what the ways that it lists list, in no order.
fn gathered(alloc: Global, store: &Store, key: Key) -> Result<Vec<Key>, Memory>
    ensures { IfOk result (λ found. (x : Key) → lists_key found.items x ≡ in_full store.now.elements key x) }
{
    let mut found = refs_of(alloc, store, key)?;
    let listed = found.len();
    found.push(key)?;
    for place in 0..listed {
        let member = found[place];
        add_way_refs(store, member, &mut found)?;
    }
    Ok(found)
}

/// What an element lists, in list order.
fn refs_of(alloc: Global, store: &Store, key: Key) -> Result<Vec<Key>, Memory>
    ensures { IfOk result (λ found. found.items ≡ refs_of store.now.elements key) }
{
    let mut found = Vec::new(alloc);
    add_refs_of(store, key, &mut found)?;
    Ok(found)
}

/// Adds what a way lists, and nothing for another element.
fn add_way_refs(store: &Store, key: Key, found: &mut Vec<Key>) -> Result<(), Memory>
    ensures { IfOk result (λ _. found.new.items ≡ found.old.items ++ way_refs store.now.elements key) }
{
    if !key.kind.is(Kind::Way) {
        return Ok(());
    }
    add_refs_of(store, key, found)
}

/// Adds what an element lists.
fn add_refs_of(store: &Store, key: Key, found: &mut Vec<Key>) -> Result<(), Memory>
    ensures { IfOk result (λ _. found.new.items ≡ found.old.items ++ refs_of store.now.elements key) }
{
    match content(store, key) {
        Some(content) => add_refs(&content, found),
        None => Ok(()),
    }
}

fn add_refs(content: &Held<'_>, found: &mut Vec<Key>) -> Result<(), Memory>
    ensures { IfOk result (λ _. found.new.items ≡ found.old.items ++ refs (held_content content.now)) }
{
    match content {
        Held::Node(_) => Ok(()),
        Held::Way(nodes) => add_nodes(nodes, found),
        Held::Relation(members) => add_members(members, found),
    }
}

fn add_nodes(ids: &[u64], found: &mut Vec<Key>) -> Result<(), Memory>
    ensures { IfOk result (λ _. found.new.items ≡ found.old.items ++ map (key Kind.Node) ids.now) }
{
    found.reserve(ids.len())?;
    for id in ids {
        found.push(Key {
            kind: Kind::Node,
            id: *id,
        })?;
    }
    Ok(())
}

fn add_members(members: &[Member<u64>], found: &mut Vec<Key>) -> Result<(), Memory>
    ensures { IfOk result (λ _. found.new.items ≡ found.old.items ++ map key_of_member members.now) }
{
    found.reserve(members.len())?;
    for member in members {
        found.push(member.key())?;
    }
    Ok(())
}
