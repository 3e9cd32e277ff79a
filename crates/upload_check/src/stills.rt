//! Whether a plan stands.
ghost use Rattle.std.specs.Prelude.{◌≡◌};
ghost use Rattle.osm_later.specs.Still.{still, still_counted, still_used};
ghost use Rattle.osm_world.specs.World.{state_of};
ghost use Rattle.upload_check.specs.Planned.{IsStill, plan_of};

use crate::plans::Plan;
use osm_later::{CountLook, Look, UsersLook, first_apart, stills_say_where_they_differ};
use osm_world::World;

/// Whether a plan stands on a world, or else the first look at which they differ, counts before lists
/// of users. It takes no memory, and walks the plan's looks once.
pub fn still(world: &World, plan: &Plan) -> Result<(), Look>
    ensures { IsStill result plan.now (state_of world.now).elements }
{
    plan.laws();
    stills_say_where_they_differ();
    first_difference(world, plan)
}

fn first_difference(world: &World, plan: &Plan) -> Result<(), Look>
    ensures { result ≡ still (plan_of plan.now) (state_of world.now).elements }
{
    match still_counted(world, plan.counts.items()) {
        Ok(()) => still_used(world, plan.users.items()),
        Err(look) => Err(look),
    }
}

/// The first count that differs.
fn still_counted(world: &World, looks: &[CountLook]) -> Result<(), Look>
    ensures { result ≡ still_counted (state_of world.now).elements looks.now }
{
    for look in looks {
        let found = world.store().count(look.key);
        if found != look.count {
            return Err(Look::Count {
                key: look.key,
                planned: look.count,
                found,
            });
        }
    }
    Ok(())
}

/// The first list of users that differs.
fn still_used(world: &World, looks: &[UsersLook]) -> Result<(), Look>
    ensures { result ≡ still_used (state_of world.now).elements looks.now }
{
    for look in looks {
        let users = world.users(look.key);
        if let Some(user) = first_apart(look.users.items(), users.items()) {
            return Err(Look::Users {
                key: look.key,
                user,
            });
        }
    }
    Ok(())
}
