//! One element: as it is, at a version, its history.
ghost use Rattle.std.specs.Prelude.{◌≡◌, ◌++◌, ◌∷◌, [], filter, map, option_map, IfOk};
ghost use Rattle.osm_element.specs.Elements.{content_of};
ghost use Rattle.osm_element.specs.Held.{held_content};
ghost use Rattle.osm_model.specs.Reads.{one, numbered, hidden, is_shown, history_of, shown, current_shown};
ghost use Rattle.rising_lists.specs.Ids.{ids_to};
ghost use Rattle.osm_world.specs.World.{state_of};
ghost use Rattle.read_calls.specs.Read.{IsRead};

use history_store::Store;
use osm_base::{Items, Key, Memory};
use osm_change::{ReadFault, VersionId};
use osm_element::{Held, Version};
use osm_world::World;
use std::alloc::Global;

/// An element as it is now, also where it is deleted or never existed.
pub fn current(store: &Store, key: Key) -> VersionId
    ensures { result ≡ current_shown store.now.elements key }
{
    VersionId {
        key,
        number: store.count(key),
    }
}

/// What an element holds, where it is visible.
pub fn content(store: &Store, key: Key) -> Option<Held<'_>>
    ensures { option_map held_content result ≡ content_of store.now.elements key }
{
    match store.current(key) {
        Some(version) => version.content(),
        None => None,
    }
}

/// The current version of an element.
pub fn one(world: &World, key: Key) -> Result<VersionId, ReadFault>
    ensures { result ≡ one (state_of world.now).elements key }
{
    let store = world.store();
    let version = store.count(key);
    if version == 0 {
        return Err(ReadFault::NotFound { key, version });
    }
    if content(store, key).is_none() {
        return Err(ReadFault::Gone { key, version });
    }
    Ok(VersionId {
        key,
        number: version,
    })
}

/// The mark that hides a version from who doesn't ask to see everything.
fn hidden(version: &Version, show: bool) -> Option<u64>
    ensures { result ≡ hidden show version.now }
{
    if show { None } else { version.redaction() }
}

/// One version of an element, that of a deletion too. `show` asks to see marked versions.
pub fn version(world: &World, key: Key, number: u64, show: bool) -> Result<VersionId, ReadFault>
    ensures { result ≡ numbered (state_of world.now).elements key number show }
{
    let store = world.store();
    if store.count(key) == 0 {
        return Err(ReadFault::NotFound { key, version: 0 });
    }
    let Some(version) = store.version(key, number) else {
        return Err(ReadFault::NotFound {
            key,
            version: number,
        });
    };
    match hidden(version, show) {
        None => Ok(VersionId { key, number }),
        Some(redaction) => Err(ReadFault::Redacted {
            key,
            version: number,
            redaction,
        }),
    }
}

fn is_shown(store: &Store, key: Key, show: bool, number: u64) -> bool
    ensures { result ≡ is_shown store.now.elements key show number }
{
    match store.version(key, number) {
        Some(version) => hidden(version, show).is_none(),
        None => false,
    }
}

/// Adds a version, if it isn't hidden.
fn add_version(
    store: &Store,
    key: Key,
    show: bool,
    number: u64,
    found: &mut Vec<VersionId>,
) -> Result<(), Memory>
    ensures { IfOk result (λ _. found.new.items ≡ found.old.items
        ++ map (shown key) (filter (is_shown store.now.elements key show) (number ∷ []))) }
{
    if is_shown(store, key, show, number) {
        found.push(VersionId { key, number })?;
    }
    Ok(())
}

/// All versions of an element, the oldest first. `show` asks to see marked versions.
pub fn history(
    alloc: Global,
    world: &World,
    key: Key,
    show: bool,
) -> Result<Items<VersionId>, ReadFault>
    ensures { IsRead (history_of (state_of world.now).elements key show) result }
{
    let store = world.store();
    let count = store.count(key);
    if count == 0 {
        return Err(ReadFault::NotFound { key, version: 0 });
    }
    let shown = versions(alloc, store, key, show, count)?;
    Ok(shown)
}

/// The versions of an element up to a number that aren't hidden.
fn versions(
    alloc: Global,
    store: &Store,
    key: Key,
    show: bool,
    count: u64,
) -> Result<Items<VersionId>, Memory>
    ensures { IfOk result (λ found. found ≡ map (shown key) (filter (is_shown store.now.elements key show) (ids_to count))) }
{
    let mut found = Vec::with_capacity(alloc, count as usize)?;
    for place in 0..count {
        add_version(store, key, show, place + 1, &mut found)?;
    }
    Ok(Items::of(found))
}
