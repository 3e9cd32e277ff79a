//! What a version more of an element makes of where elements stand: how many versions it has, what
//! it holds, and how many users others have.
//!
//! Users are counted, not listed. An operation takes its element's old references from their
//! numbers and adds the new ones; whether an element is used is all that a delete asks. The least
//! user is looked for only where a refusal names it, and that ends the upload.
ghost use Rattle.std.specs.Prelude.{◌≡◌, ◌+◌, ◌<◌, true, if◌then◌else◌, IfOk, OnOk, OnErr};
ghost use Rattle.osm_base.specs.Key.{key_eq, IsRising};
ghost use Rattle.osm_base.specs.declared.keys.Key.{Key};
ghost use Rattle.osm_element.specs.declared.elements.Elements.{Elements};
ghost use Rattle.osm_world.specs.World.{state_of};
ghost use Rattle.upload_check.specs.Effects.{user_counts, AreAsBefore, StayNoted, IsRevised, IsMade};
ghost use Rattle.upload_check.specs.Overlay.{standing_in};
ghost use Rattle.upload_check.specs.Shifts.{AreShifted, apart};
ghost use Rattle.upload_check.specs.Users.{others};
ghost use Rattle.upload_check.specs.declared.shifts.Shift.TheVariants.{More};

use crate::shifts::{Shift, shift_all, shift_ready};
use crate::standings::{Holds, Standing, Standings};
use osm_base::{Key, Memory};
use osm_world::World;

/// The next number. No map that fits a memory has so many elements or versions that there is none.
pub fn increased(number: u64) -> Result<u64, Memory>
    ensures { IfOk result (λ next. next ≡ number + 1) }
{
    match number.checked_add(1) {
        Some(next) => Ok(next),
        None => Err(Memory),
    }
}

/// A version more of an element that stood there, which then holds what is given.
pub fn revise(
    standings: &mut Standings,
    key: Key,
    stood: Standing,
    holds: Holds,
) -> Result<(), Memory>
    ensures revised { OnOk result ((E : Elements) → stood ≡ standing_in E standings.old key → IsRevised E key holds standings.old standings.new) }
    ensures memory { OnErr result (standings.new ≡ standings.old) }
{
    let versions = increased(stood.versions)?;
    standings.set(
        key,
        Standing {
            versions,
            holds,
            users: stood.users,
        },
    )
}

/// A version more of an element that stood there, once each that it lists anew has a user more. After
/// `Memory` each element stands as before.
fn raise_and_revise(
    world: &World,
    standings: &mut Standings,
    key: Key,
    stood: Standing,
    holds: Holds,
    ended: &[Key],
    begun: &[Key],
) -> Result<(), Memory>
    requires stood { stood ≡ standing_in (state_of world.now).elements standings.old key }
    requires ended { IsRising ended.now }
    requires begun { IsRising begun.now }
    ensures raised { OnOk result (AreShifted More (apart key begun.now ended.now) (user_counts (state_of world.now).elements standings.old) (user_counts (state_of world.now).elements standings.new)) }
    ensures versions { OnOk result ((b : Key) → (standing_in (state_of world.now).elements standings.new b).versions
        ≡ (if key_eq b key then (standing_in (state_of world.now).elements standings.old b).versions + 1 else (standing_in (state_of world.now).elements standings.old b).versions)) }
    ensures held { OnOk result ((b : Key) → (standing_in (state_of world.now).elements standings.new b).holds
        ≡ (if key_eq b key then holds else (standing_in (state_of world.now).elements standings.old b).holds)) }
    ensures stay { OnErr result (StayNoted standings.old standings.new) }
    ensures memory { OnErr result (AreAsBefore (state_of world.now).elements standings.old standings.new) }
{
    shift_all(world, standings, key, begun, ended, Shift::More)?;
    match revise(standings, key, stood, holds) {
        Ok(()) => Ok(()),
        Err(Memory) => {
            shift_ready(world, standings, key, begun, ended, Shift::Less);
            Err(Memory)
        }
    }
}

/// A version more of an element that stood there, which then holds what is given: each that it listed
/// has a user less, and each that it lists a user more. Those that it listed and still lists stay as
/// they are, and so does the element, so it isn't looked for. After `Memory` each stands as before.
pub fn make(
    world: &World,
    standings: &mut Standings,
    key: Key,
    stood: Standing,
    holds: Holds,
    ended: &[Key],
    begun: &[Key],
) -> Result<(), Memory>
    requires stood { stood ≡ standing_in (state_of world.now).elements standings.old key }
    requires ended { IsRising ended.now }
    requires begun { IsRising begun.now }
    requires used { (b : Key) → others key ended.now b ≡ true → 0 < user_counts (state_of world.now).elements standings.old b }
    ensures made { OnOk result (IsMade (state_of world.now).elements key holds ended.now begun.now standings.old standings.new) }
    ensures memory { OnErr result (AreAsBefore (state_of world.now).elements standings.old standings.new) }
{
    shift_all(world, standings, key, ended, begun, Shift::Less)?;
    match raise_and_revise(world, standings, key, stood, holds, ended, begun) {
        Ok(()) => Ok(()),
        Err(Memory) => {
            shift_ready(world, standings, key, ended, begun, Shift::More);
            Err(Memory)
        }
    }
}
