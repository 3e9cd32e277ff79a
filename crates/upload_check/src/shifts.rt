//! One user more, or one less, of each of some elements. What another list has as well stays as it
//! is. Where memory runs out, what was done is taken back, which takes none.
ghost use Rattle.std.specs.Prelude.{◌≡◌, ◌≤◌, ◌||◌, true, false, None, Some, length, take, IfOk, IfErr, IsOk, OnOk, OnErr};
ghost use Rattle.osm_base.specs.Key.{key_eq, lists_key, IsRising};
ghost use Rattle.osm_base.specs.declared.keys.Key.{Key};
ghost use Rattle.osm_later.specs.Still.{first_apart};
ghost use Rattle.osm_world.specs.World.{state_of};
ghost use Rattle.upload_check.specs.Effects.{user_counts, AreAsBefore, StayNoted};
ghost use Rattle.upload_check.specs.Overlay.{noted};
ghost use Rattle.upload_check.specs.Shifts.{opposite, Goes, HasOne, Fits, IsReady, AreReady, IsShifted, apart, unless};

use crate::standings::{Standing, Standings, standing_before};
use osm_base::{Key, Memory, is_listed};
use osm_later::first_apart;
use osm_world::World;

/// One user more, or one less.
#[derive(Clone, Copy)]
pub enum Shift {
    More,
    Less,
}

impl Shift {
    /// What takes it back.
    fn back(self) -> Shift
        ensures { result ≡ opposite self }
    {
        match self {
            Shift::More => Shift::Less,
            Shift::Less => Shift::More,
        }
    }

    /// What a number of users comes to. No map that fits a memory has so many that there is no next.
    fn of(self, users: u64) -> Result<u64, Memory>
        requires { HasOne self users }
        ensures goes { IfOk result (λ next. Goes self 1 users next) }
        ensures back { IfOk result (λ next. Fits (opposite self) next) }
        ensures sure { Fits self users → IsOk result }
    {
        match self {
            Shift::More => match users.checked_add(1) {
                Some(next) => Ok(next),
                None => Err(Memory),
            },
            Shift::Less => Ok(users - 1),
        }
    }
}

/// One user more or less of an element of which this is noted. It takes no memory; `Memory` only says
/// that the number has no next.
fn shift_noted(
    world: &World,
    standings: &mut Standings,
    used: Key,
    standing: Standing,
    shift: Shift,
) -> Result<(), Memory>
    requires noted { noted standings.old used ≡ Some standing }
    requires some { HasOne shift standing.users }
    ensures shifted { OnOk result (IsShifted shift (λ b. key_eq b used) (state_of world.now).elements standings.old standings.new) }
    ensures sure { Fits shift standing.users → IsOk result }
    ensures memory { OnErr result (standings.new ≡ standings.old) }
{
    let users = shift.of(standing.users)?;
    standings.change(used, Standing { users, ..standing });
    Ok(())
}

/// The same of an element of which nothing is noted.
fn shift_first(
    world: &World,
    standings: &mut Standings,
    used: Key,
    shift: Shift,
) -> Result<(), Memory>
    requires noted { noted standings.old used ≡ None }
    requires some { HasOne shift (user_counts (state_of world.now).elements standings.old used) }
    ensures shifted { OnOk result (IsShifted shift (λ b. key_eq b used) (state_of world.now).elements standings.old standings.new) }
    ensures memory { OnErr result (standings.new ≡ standings.old) }
{
    let standing = standing_before(world, used);
    let users = shift.of(standing.users)?;
    standings.set(used, Standing { users, ..standing })
}

/// One user more or less of an element. It takes no memory where something is noted of it.
fn shift_one(
    world: &World,
    standings: &mut Standings,
    used: Key,
    shift: Shift,
) -> Result<(), Memory>
    requires { HasOne shift (user_counts (state_of world.now).elements standings.old used) }
    ensures shifted { OnOk result (IsShifted shift (λ b. key_eq b used) (state_of world.now).elements standings.old standings.new) }
    ensures sure { IsReady shift (state_of world.now).elements standings.old used → IsOk result }
    ensures memory { OnErr result (standings.new ≡ standings.old) }
{
    match standings.look(used) {
        Some(standing) => shift_noted(world, standings, used, standing, shift),
        None => shift_first(world, standings, used, shift),
    }
}

/// The same, unless the element stays as it is.
fn shift_unless(
    world: &World,
    standings: &mut Standings,
    used: Key,
    stays: bool,
    shift: Shift,
) -> Result<(), Memory>
    requires { stays ≡ false → HasOne shift (user_counts (state_of world.now).elements standings.old used) }
    ensures shifted { OnOk result (IsShifted shift (unless stays used) (state_of world.now).elements standings.old standings.new) }
    ensures sure { (stays ≡ false → IsReady shift (state_of world.now).elements standings.old used) → IsOk result }
    ensures memory { OnErr result (standings.new ≡ standings.old) }
{
    if stays {
        return Ok(());
    }
    shift_one(world, standings, used, shift)
}

/// The first place from one on whose key doesn't come before this one. It only makes `is_near` fast:
/// nothing rests on where it stops.
fn skip(sorted: &[Key], from: usize, key: Key) -> usize {
    let mut place = from;
    while place < sorted.len() && sorted[place].is_before(key) {
        place += 1;
    }
    place
}

pub fn is_at(keys: &[Key], place: usize, key: Key) -> bool
    ensures { result ≡ true → lists_key keys.now key ≡ true }
{
    place < keys.len() && keys[place].is(key)
}

/// Whether a key is in a list in order. It is looked for at a place first.
fn is_near(sorted: &[Key], place: usize, key: Key) -> bool
    requires { IsRising sorted.now }
    ensures { result ≡ lists_key sorted.now key }
{
    if is_at(sorted, place, key) {
        return true;
    }
    is_listed(sorted, key)
}

/// Whether an element stays as it is: it is the user itself, or among those that are left.
fn is_kept(user: Key, left: &[Key], near: usize, used: Key) -> bool
    requires { IsRising left.now }
    ensures { result ≡ lists_key left.now used || key_eq user used }
{
    is_near(left, near, used) || user.is(used)
}

/// One user more or less of each of a list, the user itself left out, and what is left as it is.
/// Both lists are walked once. Where memory runs out, `Err` has the place of the first that isn't
/// done.
fn shift_each(
    world: &World,
    standings: &mut Standings,
    user: Key,
    listed: &[Key],
    left: &[Key],
    shift: Shift,
) -> Result<(), usize>
    requires rising { IsRising listed.now }
    requires left { IsRising left.now }
    requires some { (b : Key) → apart user listed.now left.now b ≡ true → HasOne shift (user_counts (state_of world.now).elements standings.old b) }
    ensures shifted { OnOk result (IsShifted shift (apart user listed.now left.now) (state_of world.now).elements standings.old standings.new) }
    ensures partly { IfErr result (λ place. IsShifted shift (apart user (take place listed.now) left.now) (state_of world.now).elements standings.old standings.new) }
    ensures within { IfErr result (λ place. place ≤ length listed.now) }
    ensures sure { AreReady shift (apart user listed.now left.now) (state_of world.now).elements standings.old → IsOk result }
{
    let mut near = 0;
    for (place, used) in listed.iter().enumerate() {
        near = skip(left, near, *used);
        let stays = is_kept(user, left, near, *used);
        match shift_unless(world, standings, *used, stays, shift) {
            Ok(()) => {}
            Err(Memory) => return Err(place),
        }
    }
    Ok(())
}

/// The same, where it takes no memory.
pub fn shift_ready(
    world: &World,
    standings: &mut Standings,
    user: Key,
    listed: &[Key],
    left: &[Key],
    shift: Shift,
)
    requires rising { IsRising listed.now }
    requires left { IsRising left.now }
    requires ready { AreReady shift (apart user listed.now left.now) (state_of world.now).elements standings.old }
    ensures { IsShifted shift (apart user listed.now left.now) (state_of world.now).elements standings.old standings.new }
{
    let _always = shift_each(world, standings, user, listed, left, shift).is_ok();
}

/// Whether an element lists what it listed, so that none of them has a user more or less.
fn are_same(listed: &[Key], left: &[Key]) -> bool
    ensures { result ≡ true → first_apart listed.now left.now ≡ None }
{
    first_apart(listed, left).is_none()
}

/// The same of all, or of none. After `Memory` each element stands as before.
pub fn shift_all(
    world: &World,
    standings: &mut Standings,
    user: Key,
    listed: &[Key],
    left: &[Key],
    shift: Shift,
) -> Result<(), Memory>
    requires rising { IsRising listed.now }
    requires left { IsRising left.now }
    requires some { (b : Key) → apart user listed.now left.now b ≡ true → HasOne shift (user_counts (state_of world.now).elements standings.old b) }
    ensures shifted { OnOk result (IsShifted shift (apart user listed.now left.now) (state_of world.now).elements standings.old standings.new) }
    ensures stay { OnErr result (StayNoted standings.old standings.new) }
    ensures memory { OnErr result (AreAsBefore (state_of world.now).elements standings.old standings.new) }
{
    if listed.is_empty() {
        return Ok(());
    }
    if are_same(listed, left) {
        return Ok(());
    }
    match shift_each(world, standings, user, listed, left, shift) {
        Ok(()) => Ok(()),
        Err(place) => {
            shift_ready(world, standings, user, &listed[..place], left, shift.back());
            Err(Memory)
        }
    }
}
