//! What elements are like, as a plan keeps it.
ghost use Rattle.std.specs.Prelude.{◌≡◌, ◌++◌, ◌∷◌, [], map, IfOk, OnOk};
ghost use Rattle.osm_later.specs.Plan.{count_look, users_look};
ghost use Rattle.osm_world.specs.World.{state_of};

use osm_base::{Items, Key, Memory};
use osm_later::{CountLook, UsersLook};
use osm_world::World;
use std::alloc::Global;

fn count_look(world: &World, key: Key) -> CountLook
    ensures { result ≡ count_look (state_of world.now).elements key }
{
    CountLook {
        key,
        count: world.store().count(key),
    }
}

fn users_look(alloc: Global, world: &World, key: Key) -> Result<UsersLook, Memory>
    ensures { IfOk result (λ look. look ≡ users_look (state_of world.now).elements key) }
{
    let mut users = Items::none(alloc);
    let listed = world.users(key);
    users.extend(listed.items())?;
    Ok(UsersLook { key, users })
}

/// How many versions some elements have.
pub fn count_looks(alloc: Global, world: &World, keys: &[Key]) -> Result<Items<CountLook>, Memory>
    ensures { IfOk result (λ looks. looks ≡ map (count_look (state_of world.now).elements) keys.now) }
{
    let mut looks = Vec::with_capacity(alloc, keys.len())?;
    for key in keys {
        looks.push(count_look(world, *key))?;
    }
    Ok(Items::of(looks))
}

/// Which elements use some elements.
pub fn users_looks(alloc: Global, world: &World, keys: &[Key]) -> Result<Items<UsersLook>, Memory>
    ensures { IfOk result (λ looks. looks ≡ map (users_look (state_of world.now).elements) keys.now) }
{
    let mut looks = Vec::with_capacity(alloc, keys.len())?;
    for key in keys {
        let look = users_look(alloc, world, *key)?;
        looks.push(look)?;
    }
    Ok(Items::of(looks))
}
