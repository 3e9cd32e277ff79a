//! Each command, judged before it changes anything.
ghost use Rattle.std.specs.Prelude.{◌≡◌, Ok, Err, ◌<◌, ◌≤◌, OnOk, IfOk};
ghost use Rattle.osm_element.specs.Elements.{count};
ghost use Rattle.plain_model.specs.declared.alterations.Alteration.TheVariants.{EnterWork};
ghost use Rattle.osm_model.specs.Act.{judge, retag, close_changeset, upload_change, number_of, single_number, single_change, known_version, known_redaction, old_version, redact, unredact};
ghost use Rattle.plain_model.specs.Alteration.{StepsTo};
ghost use Rattle.osm_model.specs.Fold.{works};

use crate::alterations::Alteration;
use crate::changesets::{new_changeset, own_changeset, retagged_row};
use crate::fold::upload;
use crate::uploads::works;
use osm_base::{Items, Key, Memory, Stamp, TryCopy, User};
use osm_change::{Answer, Change, Op, OpDone, Refusal, Said};
use osm_element::Tags;
use osm_model::{Command, Fault, Progress, State};
use std::alloc::Global;

fn retag(
    alloc: Global,
    state: &State,
    user: &User,
    at: Stamp,
    id: u64,
    tags: &Tags,
) -> Result<(Alteration, Answer<'static>), Fault>
    ensures { StepsTo state.now (retag state.now user.now at id tags.now) result }
{
    let kept = own_changeset(state, user, at, id)?;
    let told = retagged_row(alloc, id, kept, tags, at)?;
    let tags = tags.copy(alloc)?;
    let alteration = Alteration::SetTags {
        changeset: id,
        tags,
        at,
    };
    Ok((alteration, Answer::Changeset(told)))
}

fn close_changeset(
    state: &State,
    user: &User,
    at: Stamp,
    id: u64,
) -> Result<(Alteration, Answer<'static>), Fault>
    ensures { StepsTo state.now (close_changeset state.now user.now at id) result }
{
    own_changeset(state, user, at, id)?;
    Ok((Alteration::SetEnd { changeset: id, at }, Answer::Nothing))
}

/// What an upload leaves, as an alteration.
fn work_of(alloc: Global, id: u64, at: Stamp, progress: Progress) -> Result<Alteration, Memory>
    ensures { IfOk result (λ alteration. alteration
        ≡ EnterWork id at progress.elements (works progress.keys progress.done) progress.touched) }
{
    let made = works(alloc, progress.keys.items(), progress.done.items())?;
    Ok(Alteration::EnterWork {
        changeset: id,
        at,
        elements: progress.elements,
        works: Items::of(made),
        touched: progress.touched,
    })
}

fn upload_change(
    alloc: Global,
    state: &State,
    user: &User,
    at: Stamp,
    id: u64,
    change: &Change,
) -> Result<(Alteration, Answer<'static>), Fault>
    ensures { StepsTo state.now (upload_change state.now user.now at id change.now) result }
{
    let progress = upload(alloc, state, user, at, id, change)?;
    let rows = change.rows(alloc, progress.keys.items(), progress.done.items())?;
    let alteration = work_of(alloc, id, at, progress)?;
    Ok((alteration, Answer::Diff(rows)))
}

fn number_of(operation: &Op, key: Key, done: OpDone) -> u64
    ensures { result ≡ number_of operation.now key done }
{
    match operation {
        Op::Create { .. } => key.id,
        Op::Modify { .. } | Op::Delete { .. } => done.version(),
    }
}

/// The number that a change with one operation answers. It has a key and an outcome.
fn single_number(operations: &[Op], keys: &[Key], done: &[OpDone]) -> u64
    ensures { result ≡ single_number operations.now keys.now done.now }
{
    match (operations, keys, done) {
        ([operation, ..], [key, ..], [done, ..]) => number_of(operation, *key, *done),
        _ => 0,
    }
}

fn single_change(
    alloc: Global,
    state: &State,
    user: &User,
    at: Stamp,
    id: u64,
    change: &Change,
) -> Result<(Alteration, Answer<'static>), Fault>
    ensures { StepsTo state.now (single_change state.now user.now at id change.now) result }
{
    let progress = upload(alloc, state, user, at, id, change)?;
    let number = single_number(
        change.operations(),
        progress.keys.items(),
        progress.done.items(),
    );
    let alteration = work_of(alloc, id, at, progress)?;
    Ok((alteration, Answer::Number(number)))
}

/// The version exists.
fn known_version(state: &State, key: Key, number: u64) -> Result<(), Refusal>
    ensures value { result ≡ known_version state.now key number }
    ensures there { OnOk result ((0 < number) × (number ≤ count state.now.elements key)) }
{
    if state.elements.count(key) == 0 {
        return Err(Refusal::NoElement {
            id: Said::Id(key.id),
            op: None,
            kind: key.kind,
        });
    }
    if state.elements.version(key, number).is_none() {
        return Err(Refusal::NoSuchVersion {
            id: Said::Id(key.id),
            kind: key.kind,
            version: number,
        });
    }
    Ok(())
}

/// The redaction exists.
fn known_redaction(state: &State, redaction: u64) -> Result<(), Refusal>
    ensures { result ≡ known_redaction state.now redaction }
{
    if redaction == 0 || redaction > state.redactions.items().len() as u64 {
        Err(Refusal::NoRedaction { id: redaction })
    } else {
        Ok(())
    }
}

/// The version isn't the current one.
fn old_version(state: &State, key: Key, number: u64) -> Result<(), Refusal>
    ensures { result ≡ old_version state.now key number }
{
    if number == state.elements.count(key) {
        Err(Refusal::RedactCurrent {
            id: Said::Id(key.id),
            kind: key.kind,
            version: number,
        })
    } else {
        Ok(())
    }
}

fn redact(
    state: &State,
    key: Key,
    number: u64,
    redaction: u64,
) -> Result<(Alteration, Answer<'static>), Fault>
    ensures { StepsTo state.now (redact state.now key number redaction) result }
{
    known_version(state, key, number)?;
    known_redaction(state, redaction)?;
    old_version(state, key, number)?;
    let alteration = Alteration::Mark {
        key,
        version: number,
        redaction: Some(redaction),
    };
    Ok((alteration, Answer::Nothing))
}

fn unredact(state: &State, key: Key, number: u64) -> Result<(Alteration, Answer<'static>), Fault>
    ensures { StepsTo state.now (unredact state.now key number) result }
{
    known_version(state, key, number)?;
    let alteration = Alteration::Mark {
        key,
        version: number,
        redaction: None,
    };
    Ok((alteration, Answer::Nothing))
}

/// What a command changes and answers at a stamp. The state stays as it is.
pub fn judge(
    alloc: Global,
    state: &State,
    user: &User,
    at: Stamp,
    command: &Command,
) -> Result<(Alteration, Answer<'static>), Fault>
    ensures { StepsTo state.now (judge state.now user.now at command.now) result }
{
    match command {
        Command::CreateChangeset { tags, large_from } => {
            let made = new_changeset(alloc, user, at, tags, *large_from)?;
            let id = state.changesets.items().len() as u64 + 1;
            Ok((Alteration::AddChangeset(made), Answer::Number(id)))
        }
        Command::Retag { changeset, tags } => retag(alloc, state, user, at, *changeset, tags),
        Command::CloseChangeset { changeset } => close_changeset(state, user, at, *changeset),
        Command::Upload { changeset, change } => {
            upload_change(alloc, state, user, at, *changeset, change)
        }
        Command::Single { changeset, change } => {
            single_change(alloc, state, user, at, *changeset, change.change())
        }
        Command::MakeRedaction { title } => {
            let id = state.redactions.items().len() as u64 + 1;
            Ok((
                Alteration::AddRedaction(title.copy(alloc)?),
                Answer::Number(id),
            ))
        }
        Command::Redact {
            key,
            version,
            redaction,
        } => redact(state, *key, *version, *redaction),
        Command::Unredact { key, version } => unredact(state, *key, *version),
    }
}
