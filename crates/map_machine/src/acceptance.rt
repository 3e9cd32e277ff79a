//! Whether the map takes an entry that comes next.
ghost use Rattle.std.specs.Prelude.{◌≡◌, ◌<◌, IfOk, is_ok};
ghost use Rattle.osm_base.specs.Stamp.{stamp_after};
ghost use Rattle.osm_model.specs.Act.{judge};
ghost use Rattle.osm_model.specs.Fold.{upload};
ghost use Rattle.osm_model.specs.Journal.{takes};
ghost use Rattle.osm_world.specs.World.{state_of};
ghost use Rattle.upload_check.specs.Commands.{IsOther};

use crate::judging::judge_on;
use osm_base::{Memory, Stamp, Steps, User};
use osm_change::Change;
use osm_model::{Command, Entry, Fault};
use osm_world::World;
use std::alloc::Global;
use std::marker::Brand;
use std::sync::ledger::{Blank, Ledger};
use upload_check::{UploadAt, accepts_upload};

/// Whether an entry may come next: its command is accepted at its stamp, and that is no earlier
/// than the last one.
pub fn takes(alloc: Global, world: &World, entry: &Entry) -> Result<bool, Memory>
    ensures { IfOk result (λ b. b ≡ takes (state_of world.now) entry.now) }
{
    if Stamp::after(world.last_stamp(), entry.stamp.seconds()) != entry.stamp {
        return Ok(false);
    }
    is_accepted(alloc, world, &entry.user, entry.stamp, &entry.command)
}

/// Whether the rules accept a command of a user at a stamp, which may come next.
fn is_accepted(
    alloc: Global,
    world: &World,
    user: &User,
    at: Stamp,
    command: &Command,
) -> Result<bool, Memory>
    requires { stamp_after (state_of world.now).last at ≡ at }
    ensures { IfOk result (λ b. b ≡ is_ok (judge (state_of world.now) user.now at command.now)) }
{
    match command {
        Command::Upload { changeset, change } => {
            is_change_accepted(alloc, world, &upload_at(user, at, *changeset, change))
        }
        Command::Single { changeset, change } => {
            is_change_accepted(
                alloc,
                world,
                &upload_at(user, at, *changeset, change.change()),
            )
        }
        other => is_other_accepted(alloc, world, user, at, other),
    }
}

/// The same of a command that is no upload.
fn is_other_accepted(
    alloc: Global,
    world: &World,
    user: &User,
    at: Stamp,
    command: &Command,
) -> Result<bool, Memory>
    requires { IsOther command.now }
    ensures { IfOk result (λ b. b ≡ is_ok (judge (state_of world.now) user.now at command.now)) }
{
    match judge_on(alloc, world, user, at, command) {
        Ok(_) => Ok(true),
        Err(Fault::Refused(_)) => Ok(false),
        Err(Fault::Memory) => Err(Memory),
    }
}

/// An upload at a stamp.
fn upload_at<'a>(user: &'a User, at: Stamp, changeset: u64, change: &'a Change) -> UploadAt<'a>
    ensures user { result.user.now ≡ user.now }
    ensures changeset { result.changeset ≡ changeset }
    ensures change { result.change.now ≡ change.now }
    ensures moment { result.moment ≡ at }
{
    UploadAt {
        user,
        changeset,
        change,
        moment: at.seconds(),
    }
}

/// The same of an upload. Its steps are counted in the ledger, for nobody.
fn count_accepted<L: Ledger>(
    blank: Blank,
    alloc: Global,
    world: &World,
    asked: &UploadAt<'_>,
) -> Result<bool, Memory>
    requires stamped { stamp_after (state_of world.now).last asked.now.moment ≡ asked.now.moment }
    requires name { blank.name ≡ L.name }
    requires parts { blank.parts ≡ L.parts }
    requires some { 0 < blank.parts }
    ensures { IfOk result (λ b. b ≡ is_ok (upload (state_of world.now) asked.now.user.now asked.now.moment asked.now.changeset asked.now.change.now)) }
{
    let (book, share) = blank.open::<L>();
    let mut steps = Steps::of(book, share);
    accepts_upload(alloc, world, asked, &mut steps)
}

/// The same over a ledger of its own.
fn is_change_accepted(alloc: Global, world: &World, asked: &UploadAt<'_>) -> Result<bool, Memory>
    requires { stamp_after (state_of world.now).last asked.now.moment ≡ asked.now.moment }
    ensures { IfOk result (λ b. b ≡ is_ok (upload (state_of world.now) asked.now.user.now asked.now.moment asked.now.changeset asked.now.change.now)) }
{
    count_accepted::<Brand>(Blank::new(1), alloc, world, asked)
}
