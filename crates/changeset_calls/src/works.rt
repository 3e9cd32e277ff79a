//! The download of a changeset: what it made.
ghost use Rattle.std.specs.Prelude.{◌≡◌, ◌++◌, ◌∷◌, [], filter, map, IfOk};
ghost use Rattle.osm_model.specs.ChangesetReads.{is_unmarked, download};
ghost use Rattle.osm_model.specs.Reads.{shown};
ghost use Rattle.osm_world.specs.World.{state_of};
ghost use Rattle.changeset_calls.specs.Found.{IsFound};

use crate::faults::ChangesetFault;
use changeset_core::Work;
use history_store::Store;
use osm_base::{Items, Memory};
use osm_change::VersionId;
use osm_world::World;
use std::alloc::Global;

fn is_unmarked(store: &Store, work: &Work) -> bool
    ensures { result ≡ is_unmarked store.now.elements work.now }
{
    match store.version(work.key, work.version) {
        Some(version) => version.redaction().is_none(),
        None => false,
    }
}

/// Adds a version that was made, if it has no mark.
fn add_work(store: &Store, work: &Work, found: &mut Vec<VersionId>) -> Result<(), Memory>
    ensures { IfOk result (λ _. found.new.items ≡ found.old.items ++ map
        (λ w. shown w.key w.version) (filter (is_unmarked store.now.elements) (work.now ∷ []))) }
{
    if is_unmarked(store, work) {
        found.push(VersionId {
            key: work.key,
            number: work.version,
        })?;
    }
    Ok(())
}

fn unmarked(alloc: Global, store: &Store, works: &[Work]) -> Result<Items<VersionId>, Memory>
    ensures { IfOk result (λ found. found ≡ map (λ w. shown w.key w.version) (filter (is_unmarked store.now.elements) works.now)) }
{
    let mut found = Vec::with_capacity(alloc, works.len())?;
    for work in works {
        add_work(store, work, &mut found)?;
    }
    Ok(Items::of(found))
}

/// The versions that a changeset made, deletions too, in that order. Redacted ones are left out.
pub fn download(alloc: Global, world: &World, id: u64) -> Result<Items<VersionId>, ChangesetFault>
    ensures { IsFound (download (state_of world.now) id) result }
{
    match world.changeset(id) {
        Some(kept) => {
            let did = kept.did(alloc)?;
            Ok(unmarked(alloc, world.store(), did.as_slice())?)
        }
        None => Err(ChangesetFault::NoChangeset { id }),
    }
}
