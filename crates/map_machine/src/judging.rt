//! What a command that is no upload comes to on a world, before anything of the world is changed.
ghost use Rattle.std.specs.Prelude.{◌≡◌, true, IfOk, IfErr};
ghost use Rattle.osm_change.specs.Moments.{HasShownLife, RefusalHasShownEnd};
ghost use Rattle.changeset_core.specs.Changeset.{is_open, retagged};
ghost use Rattle.changeset_core.specs.Timely.{IsTimelyRecord};
ghost use Rattle.osm_model.specs.Act.{judge, retag, close_changeset, known_version, known_redaction, old_version, redact, unredact};
ghost use Rattle.osm_model.specs.Changeset.{changeset_row};
ghost use Rattle.osm_model.specs.Outcome.{Gives};
ghost use Rattle.osm_world.specs.World.{state_of};
ghost use Rattle.upload_check.specs.Commands.{IsOther};
ghost use Rattle.map_machine.specs.Judging.{Judges, IsShown, told};

use changeset_core::Changeset;
use osm_base::{Key, Memory, Stamp, TryCopy, User};
use osm_change::{Answer, ChangesetRow, Refusal, Said};
use osm_element::Tags;
use osm_model::{Command, Fault};
use osm_world::World;
use std::alloc::Global;

/// A changeset as the client is told who gives it other tags at a stamp. That is activity, so it
/// stays open.
fn retagged_row(
    alloc: Global,
    id: u64,
    found: &Changeset,
    tags: &Tags,
    at: Stamp,
) -> Result<ChangesetRow, Memory>
    requires open { is_open found.now.kept at ≡ true }
    requires timely { IsTimelyRecord found.now.kept }
    ensures row { IfOk result (λ row. row ≡ changeset_row id (retagged found.now.kept tags.now at) at) }
    ensures shown { IfOk result HasShownLife }
{
    let owner = found.owner().copy(alloc)?;
    let tags = tags.copy(alloc)?;
    Ok(ChangesetRow {
        id,
        owner,
        tags,
        created: found.created(),
        closes: None,
        count: found.count(),
        touched: found.touched(),
    })
}

fn retag(
    alloc: Global,
    world: &World,
    user: &User,
    at: Stamp,
    id: u64,
    tags: &Tags,
) -> Result<Answer<'static>, Fault>
    ensures gives { Gives (told (retag (state_of world.now) user.now at id tags.now)) result }
    ensures shown { IsShown result }
{
    let found = world.own_changeset(user, at, id)?;
    let row = retagged_row(alloc, id, found, tags, at)?;
    Ok(Answer::Changeset(row))
}

fn close_changeset(world: &World, user: &User, at: Stamp, id: u64) -> Result<Answer<'static>, Fault>
    ensures gives { Gives (told (close_changeset (state_of world.now) user.now at id)) result }
    ensures shown { IsShown result }
{
    world.own_changeset(user, at, id)?;
    Ok(Answer::Nothing)
}

/// The version exists.
fn known_version(world: &World, key: Key, number: u64) -> Result<(), Refusal>
    ensures value { result ≡ known_version (state_of world.now) key number }
    ensures shown { IfErr result RefusalHasShownEnd }
{
    if world.store().count(key) == 0 {
        return Err(Refusal::NoElement {
            id: Said::Id(key.id),
            op: None,
            kind: key.kind,
        });
    }
    if world.store().version(key, number).is_none() {
        return Err(Refusal::NoSuchVersion {
            id: Said::Id(key.id),
            kind: key.kind,
            version: number,
        });
    }
    Ok(())
}

/// The redaction exists.
fn known_redaction(world: &World, redaction: u64) -> Result<(), Refusal>
    ensures value { result ≡ known_redaction (state_of world.now) redaction }
    ensures shown { IfErr result RefusalHasShownEnd }
{
    if world.redactions().known(redaction) {
        Ok(())
    } else {
        Err(Refusal::NoRedaction { id: redaction })
    }
}

/// The version isn't the current one.
fn old_version(world: &World, key: Key, number: u64) -> Result<(), Refusal>
    ensures value { result ≡ old_version (state_of world.now) key number }
    ensures shown { IfErr result RefusalHasShownEnd }
{
    if number == world.store().count(key) {
        Err(Refusal::RedactCurrent {
            id: Said::Id(key.id),
            kind: key.kind,
            version: number,
        })
    } else {
        Ok(())
    }
}

fn redact(world: &World, key: Key, number: u64, redaction: u64) -> Result<Answer<'static>, Fault>
    ensures gives { Gives (told (redact (state_of world.now) key number redaction)) result }
    ensures shown { IsShown result }
{
    known_version(world, key, number)?;
    known_redaction(world, redaction)?;
    old_version(world, key, number)?;
    Ok(Answer::Nothing)
}

fn unredact(world: &World, key: Key, number: u64) -> Result<Answer<'static>, Fault>
    ensures gives { Gives (told (unredact (state_of world.now) key number)) result }
    ensures shown { IsShown result }
{
    known_version(world, key, number)?;
    Ok(Answer::Nothing)
}

/// What a command of a user that is no upload is answered at a stamp, or why it is refused. Of the
/// world nothing is copied but what the answer holds.
#[tactic(auto, using(crate::proofs::Told::judges))]
pub(crate) fn judge_on(
    alloc: Global,
    world: &World,
    user: &User,
    at: Stamp,
    command: &Command,
) -> Result<Answer<'static>, Fault>
    requires { IsOther command.now }
    ensures judged { Judges (judge (state_of world.now) user.now at command.now) result }
    ensures shown { IsShown result }
{
    match command {
        Command::CreateChangeset { .. } => {
            let id = world.changesets().len() as u64 + 1;
            Ok(Answer::Number(id))
        }
        Command::Retag { changeset, tags } => retag(alloc, world, user, at, *changeset, tags),
        Command::CloseChangeset { changeset } => close_changeset(world, user, at, *changeset),
        Command::Upload { .. } | Command::Single { .. } => unreachable!(),
        Command::MakeRedaction { .. } => {
            let id = world.redactions().titles().len() as u64 + 1;
            Ok(Answer::Number(id))
        }
        Command::Redact {
            key,
            version,
            redaction,
        } => redact(world, *key, *version, *redaction),
        Command::Unredact { key, version } => unredact(world, *key, *version),
    }
}
