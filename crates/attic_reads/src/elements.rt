//! One element as it was.
ghost use Rattle.std.specs.Prelude.{◌≡◌, Some, None, length, if◌then◌else◌};
ghost use Rattle.osm_model.specs.Past.{elements_by, is_last_shown, one_at, one_unmarked};
ghost use Rattle.osm_model.specs.Reads.{current_shown};
ghost use Rattle.osm_world.specs.World.{state_of};
ghost use Rattle.attic_reads.specs.Attic.{AreInOrder, last_in, last_shown};

use crate::histories::versions_at;
use history_store::Store;
use osm_base::Key;
use osm_change::{ReadFault, VersionId};
use osm_element::Version;
use osm_world::World;

/// The last of the versions that an element had by a stamp of `at`. A mark of now hides it from
/// everybody.
pub fn one_at(world: &World, key: Key, at: u64) -> Result<VersionId, ReadFault>
    ensures { result ≡ one_at (state_of world.now) key at }
{
    world.laws();
    one(world.store(), key, at)
}

/// The same of a store.
pub fn one(store: &Store, key: Key, at: u64) -> Result<VersionId, ReadFault>
    requires { AreInOrder store.now.elements }
    ensures { result ≡ one_unmarked (elements_by at store.now.elements) key }
{
    last_in(key, versions_at(store, key, at))
}

/// The last of an element's versions, if it is visible and not marked.
fn last_in(key: Key, versions: &[Version]) -> Result<VersionId, ReadFault>
    ensures { result ≡ last_in key versions.now }
{
    let number = versions.len() as u64;
    match versions.last() {
        Some(version) => shown_or_not(key, number, version),
        None => Err(ReadFault::NotFound { key, version: 0 }),
    }
}

/// A version, if it is visible and not marked.
fn shown_or_not(key: Key, number: u64, version: &Version) -> Result<VersionId, ReadFault>
    ensures { result ≡ last_shown key number version.now }
{
    if version.content().is_none() {
        return Err(ReadFault::Gone {
            key,
            version: number,
        });
    }
    match version.redaction() {
        None => Ok(VersionId { key, number }),
        Some(redaction) => Err(ReadFault::Redacted {
            key,
            version: number,
            redaction,
        }),
    }
}

/// An element as it was, if it is shown.
pub fn shown(store: &Store, key: Key, at: u64) -> Option<VersionId>
    requires { AreInOrder store.now.elements }
    ensures { result ≡ (if is_last_shown (elements_by at store.now.elements) key
        then Some (current_shown (elements_by at store.now.elements) key) else None) }
{
    match one(store, key, at) {
        Ok(shown) => Some(shown),
        Err(_) => None,
    }
}
