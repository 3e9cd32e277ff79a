//! The users of an element.
ghost use Rattle.std.specs.Prelude.{◌≡◌, ◌++◌, ◌∷◌, [], filter, map, IfOk};
ghost use Rattle.osm_base.specs.Key.{kind_eq};
ghost use Rattle.osm_model.specs.Reads.{current_shown, users_of_kind, ways_of, relations_of};
ghost use Rattle.osm_world.specs.World.{state_of};

use crate::elements::current;
use history_store::Store;
use osm_base::{Items, Key, Kind, Memory};
use osm_change::VersionId;
use osm_world::World;
use std::alloc::Global;

/// The visible ways that list a node, by id.
pub fn ways_of(alloc: Global, world: &World, id: u64) -> Result<Items<VersionId>, Memory>
    ensures { IfOk result (λ found. found ≡ ways_of (state_of world.now).elements id) }
{
    let node = Key {
        kind: Kind::Node,
        id,
    };
    users_of_kind(alloc, world, Kind::Way, node)
}

/// The visible relations that list an element, by id, itself left out.
pub fn relations_of(alloc: Global, world: &World, key: Key) -> Result<Items<VersionId>, Memory>
    ensures { IfOk result (λ found. found ≡ relations_of (state_of world.now).elements key) }
{
    users_of_kind(alloc, world, Kind::Relation, key)
}

/// The users of an element that are of one kind. It looks at the element's users alone.
fn users_of_kind(
    alloc: Global,
    world: &World,
    kind: Kind,
    used: Key,
) -> Result<Items<VersionId>, Memory>
    ensures { IfOk result (λ found. found ≡ users_of_kind (state_of world.now).elements kind used) }
{
    let users = world.users(used);
    let shown = of_kind(alloc, world.store(), kind, users.items())?;
    Ok(shown)
}

/// Those elements of a list that are of one kind, as they are now.
fn of_kind(
    alloc: Global,
    store: &Store,
    kind: Kind,
    users: &[Key],
) -> Result<Items<VersionId>, Memory>
    ensures { IfOk result (λ found. found ≡ map (current_shown store.now.elements) (filter (λ a. kind_eq a.kind kind) users.now)) }
{
    let mut found = Vec::new(alloc);
    for user in users {
        add_user(store, kind, *user, &mut found)?;
    }
    Ok(Items::of(found))
}

/// Adds an element as it is now, if it is of the kind.
fn add_user(store: &Store, kind: Kind, user: Key, found: &mut Vec<VersionId>) -> Result<(), Memory>
    ensures { IfOk result (λ _. found.new.items ≡ found.old.items ++ map (current_shown store.now.elements) (filter
        (λ a. kind_eq a.kind kind) (user ∷ []))) }
{
    if user.kind.is(kind) {
        found.push(current(store, user))?;
    }
    Ok(())
}
