//! Several elements in one call.
ghost use Rattle.std.specs.Prelude.{◌≡◌, None, map, IfOk};
ghost use Rattle.osm_element.specs.Elements.{key};
ghost use Rattle.osm_model.specs.Reads.{current_shown, first_unknown, listed_of, many};
ghost use Rattle.osm_world.specs.World.{state_of};
ghost use Rattle.read_calls.specs.Read.{IsRead};

use crate::elements::current;
use history_store::Store;
use osm_base::{Items, Key, Kind, Memory};
use osm_change::{ReadFault, VersionId};
use osm_world::World;
use rising_lists::{rising_ids_are_told, sorted_once};
use std::alloc::Global;

/// Some elements of a kind, each once and by id, deleted ones too. The first that never existed is
/// told in the order of the list.
pub fn many(
    alloc: Global,
    world: &World,
    kind: Kind,
    ids: &[u64],
) -> Result<Items<VersionId>, ReadFault>
    ensures { IsRead (many (state_of world.now).elements kind ids.now) result }
{
    let store = world.store();
    if let Some(id) = first_unknown(store, kind, ids) {
        let key = Key { kind, id };
        return Err(ReadFault::NotFound { key, version: 0 });
    }
    let found = listed(alloc, store, kind, ids)?;
    Ok(found)
}

/// The first of the list that never existed.
#[tactic(auto, using(crate::proofs::Firsts::none_more))]
fn first_unknown(store: &Store, kind: Kind, ids: &[u64]) -> Option<u64>
    ensures { result ≡ first_unknown store.now.elements kind ids.now }
{
    for id in ids {
        if store.count(Key { kind, id: *id }) == 0 {
            return Some(*id);
        }
    }
    None
}

/// The elements of a list of which each exists.
fn listed(alloc: Global, store: &Store, kind: Kind, ids: &[u64]) -> Result<Items<VersionId>, Memory>
    requires { first_unknown store.now.elements kind ids.now ≡ None }
    ensures { IfOk result (λ found. found ≡ listed_of store.now.elements kind ids.now) }
{
    rising_ids_are_told();
    let rising = sorted_once(ids.to_vec(alloc)?);
    let shown = shown_ids(alloc, store, kind, rising.as_slice())?;
    Ok(shown)
}

/// Each of some elements of a kind, as it is now.
fn shown_ids(
    alloc: Global,
    store: &Store,
    kind: Kind,
    ids: &[u64],
) -> Result<Items<VersionId>, Memory>
    ensures { IfOk result (λ found. found ≡ map (λ id. current_shown store.now.elements (key kind id)) ids.now) }
{
    let mut found = Vec::with_capacity(alloc, ids.len())?;
    for id in ids {
        found.push(current(store, Key { kind, id: *id }))?;
    }
    Ok(Items::of(found))
}
