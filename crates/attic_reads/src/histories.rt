//! Elements as they were: their histories up to a stamp, found by halving.
//!
//! A history is cut by halving, so a world keeps that the stamps of a history never go back and
//! that none is past the last one (`IsKept`). Every entry keeps this, taken or not, since no stamp
//! is before the map's last.
ghost use Rattle.std.specs.Prelude.{◌≡◌, length, option_copied, option_map};
ghost use Rattle.std.specs.List.Sorted.{IsNonDecreasingBy};
ghost use Rattle.osm_element.specs.Elements.{history, version_in, content_of};
ghost use Rattle.osm_element.specs.Held.{held_content};
ghost use Rattle.osm_model.specs.Past.{made_by, elements_by};
ghost use Rattle.osm_model.specs.Stamped.{stamp_of};
ghost use Rattle.osm_world.specs.World.{state_of};
ghost use Rattle.attic_reads.specs.Attic.{AreInOrder};

use history_store::Store;
use osm_base::Key;
use osm_element::{Held, Version};
use osm_world::World;

/// The histories of a world, whose stamps never go back.
pub fn ordered(world: &World) -> &Store
    ensures same { result.now.elements ≡ (state_of world.now).elements }
    ensures order { AreInOrder result.now.elements }
{
    world.laws();
    world.store()
}

/// The versions of a history with a stamp of `at` at most.
fn made_by(history: &[Version], at: u64) -> &[Version]
    requires { IsNonDecreasingBy stamp_of history.now }
    ensures { result.now ≡ made_by at history.now }
{
    let made = history.partition_point(|version| version.stamp().seconds() <= at);
    &history[..made]
}

/// The versions of an element with a stamp of `at` at most, the oldest first.
pub fn versions_at(store: &Store, key: Key, at: u64) -> &[Version]
    requires { AreInOrder store.now.elements }
    ensures { result.now ≡ history (elements_by at store.now.elements) key }
{
    made_by(store.history(key), at)
}

/// The last of some versions.
pub fn last_of(versions: &[Version]) -> Option<&Version>
    ensures { option_copied result ≡ version_in versions.now (length versions.now) }
{
    versions.last()
}

/// What an element held at a stamp, where it was visible.
pub fn content_at(store: &Store, key: Key, at: u64) -> Option<Held<'_>>
    requires { AreInOrder store.now.elements }
    ensures { option_map held_content result ≡ content_of (elements_by at store.now.elements) key }
{
    match last_of(versions_at(store, key, at)) {
        Some(version) => version.content(),
        None => None,
    }
}
