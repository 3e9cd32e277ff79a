//! Lists of ids and keys that were given, as they are now.
ghost use Rattle.std.specs.Prelude.{◌≡◌, ◌++◌, ◌∷◌, [], if◌then◌else◌, filter, map, IfOk};
ghost use Rattle.osm_base.specs.Key.{lists_key};
ghost use Rattle.osm_element.specs.Elements.{key, keys};
ghost use Rattle.osm_model.specs.Reads.{current_shown, ids_of};
ghost use Rattle.rising_lists.specs.Ids.{lists_id};

use crate::elements::current;
use osm_base::{Items, Key, Kind, Memory};
use osm_change::VersionId;
use osm_element::Elements;
use rising_lists::{keys_sorted_once, rising_ids_are_told, sorted_once};
use std::alloc::Global;

/// Adds an id that passes a test.
pub fn add_id(passes: bool, id: u64, ids: &mut Vec<u64>) -> Result<(), Memory>
    ensures { IfOk result (λ _. ids.new.items ≡ ids.old.items ++ (if passes then id ∷ [] else [])) }
{
    if passes {
        ids.push(id)?;
    }
    Ok(())
}

/// The ids of a list that were given, by id and each once. It takes no memory.
pub fn given_once(elements: &Elements, kind: Kind, ids: Vec<u64>) -> Vec<u64>
    ensures { result.items ≡ filter (lists_id ids.items) (ids_of elements.now kind) }
{
    rising_ids_are_told();
    let next = elements.next_id(kind);
    let mut rising = sorted_once(ids);
    rising.retain(|id| 0 < *id && *id < next);
    rising
}

#[tactic(auto, using(crate::proofs::AllKeys::keys_given))]
fn is_given(elements: &Elements, key: Key) -> bool
    ensures { result ≡ lists_key (keys elements.now) key }
{
    0 < key.id && key.id < elements.next_id(key.kind)
}

/// The keys of a list whose ids were given, in their order and each once. It takes no memory.
pub fn given_keys_once(elements: &Elements, listed: Vec<Key>) -> Vec<Key>
    ensures { result.items ≡ filter (lists_key listed.items) (keys elements.now) }
{
    let mut rising = keys_sorted_once(listed);
    rising.retain(|key| is_given(elements, *key));
    rising
}

/// Adds each of some elements of a kind, as it is now.
pub fn add_ids(
    elements: &Elements,
    kind: Kind,
    ids: &[u64],
    found: &mut Vec<VersionId>,
) -> Result<(), Memory>
    ensures { IfOk result (λ _. found.new.items ≡ found.old.items ++ map (λ id. current_shown elements.now (key kind id)) ids.now) }
{
    for id in ids {
        found.push(current(elements, Key { kind, id: *id }))?;
    }
    Ok(())
}

/// Each of some elements of a kind, as it is now.
pub fn shown_ids(
    alloc: Global,
    elements: &Elements,
    kind: Kind,
    ids: &[u64],
) -> Result<Items<VersionId>, Memory>
    ensures { IfOk result (λ found. found ≡ map (λ id. current_shown elements.now (key kind id)) ids.now) }
{
    let mut found = Vec::with_capacity(alloc, ids.len())?;
    add_ids(elements, kind, ids, &mut found)?;
    Ok(Items::of(found))
}

/// Each of some elements, as it is now.
pub fn shown_keys(
    alloc: Global,
    elements: &Elements,
    listed: &[Key],
) -> Result<Items<VersionId>, Memory>
    ensures { IfOk result (λ found. found ≡ map (current_shown elements.now) listed.now) }
{
    let mut found = Vec::with_capacity(alloc, listed.len())?;
    for key in listed {
        found.push(current(elements, *key))?;
    }
    Ok(Items::of(found))
}
