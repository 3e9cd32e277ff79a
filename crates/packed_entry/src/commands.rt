//! Commands: a byte for which, and its fields.
ghost use Rattle.std.specs.Prelude.{◌≡◌, ◌++◌, OnOk};
ghost use Rattle.packed_entry.specs.Kept.{Reads};
ghost use Rattle.packed_entry.specs.Packed.{packed_command, packed_fields, packed_key, command_code};
ghost use Rattle.packed_entry.specs.Read.{Gives, create_changeset_at, retag_at, close_at, upload_at, single_at, title_at, key_at, redact_at, unredact_at, command_by, command_at};
ghost use Rattle.packed_entry.specs.Typed.{Fits64, IsCommand};

use crate::faults::Fault;
use crate::names::{kind, kind_code};
use crate::numbers::{optional, put_number, put_optional};
use crate::operations::{operations, put_change};
use crate::reader::Reader;
use crate::tags::{put_tags, tags};
use crate::texts::{put_text, text};
use osm_base::{Key, Memory};
use osm_change::{Change, OneOp};
use osm_model::Command;
use std::alloc::Global;

#[tactic(auto, unfolding(crate::specs::Packed::packed_key))]
fn put_key(out: &mut Vec<u8>, key: Key) -> Result<(), Memory>
    ensures bytes { OnOk result (out.new.items ≡ out.old.items ++ packed_key key) }
    ensures typed { Fits64 key.id }
{
    out.push(kind_code(key.kind))?;
    put_number(out, key.id)
}

fn code_of(command: &Command) -> u8
    ensures { result ≡ command_code command.now }
{
    match command {
        Command::CreateChangeset { .. } => 0,
        Command::Retag { .. } => 1,
        Command::CloseChangeset { .. } => 2,
        Command::Upload { .. } => 3,
        Command::Single { .. } => 4,
        Command::MakeRedaction { .. } => 5,
        Command::Redact { .. } => 6,
        Command::Unredact { .. } => 7,
    }
}

fn put_fields(out: &mut Vec<u8>, command: &Command) -> Result<(), Memory>
    ensures bytes { OnOk result (out.new.items ≡ out.old.items ++ packed_fields command.now) }
    ensures typed { OnOk result (IsCommand command.now) }
{
    match command {
        Command::CreateChangeset { tags, large_from } => {
            put_optional(out, *large_from)?;
            put_tags(out, tags)
        }
        Command::Retag { changeset, tags } => {
            put_number(out, *changeset)?;
            put_tags(out, tags)
        }
        Command::CloseChangeset { changeset } => put_number(out, *changeset),
        Command::Upload { changeset, change } => {
            put_number(out, *changeset)?;
            put_change(out, change)
        }
        Command::Single { changeset, change } => {
            put_number(out, *changeset)?;
            put_change(out, change.change())
        }
        Command::MakeRedaction { title } => put_text(out, title.as_str()),
        Command::Redact {
            key,
            version,
            redaction,
        } => {
            put_key(out, *key)?;
            put_number(out, *version)?;
            put_number(out, *redaction)
        }
        Command::Unredact { key, version } => {
            put_key(out, *key)?;
            put_number(out, *version)
        }
    }
}

#[tactic(auto, unfolding(crate::specs::Packed::packed_command))]
pub(crate) fn put_command(out: &mut Vec<u8>, command: &Command) -> Result<(), Memory>
    ensures bytes { OnOk result (out.new.items ≡ out.old.items ++ packed_command command.now) }
    ensures typed { OnOk result (IsCommand command.now) }
{
    out.push(code_of(command))?;
    put_fields(out, command)
}

#[tactic(auto, unfolding(crate::specs::Read::create_changeset_at))]
fn create_changeset(alloc: Global, reader: &mut Reader<'_>) -> Result<Command, Fault>
    ensures { Gives (λ x. x) result (create_changeset_at reader.old) reader.new }
{
    let large_from = optional(reader)?;
    let tags = tags(alloc, reader)?;
    Ok(Command::CreateChangeset { tags, large_from })
}

#[tactic(auto, unfolding(crate::specs::Read::retag_at))]
fn retag(alloc: Global, reader: &mut Reader<'_>) -> Result<Command, Fault>
    ensures { Gives (λ x. x) result (retag_at reader.old) reader.new }
{
    let changeset = reader.number()?;
    let tags = tags(alloc, reader)?;
    Ok(Command::Retag { changeset, tags })
}

#[tactic(auto, unfolding(crate::specs::Read::close_at))]
fn close(reader: &mut Reader<'_>) -> Result<Command, Fault>
    ensures { Gives (λ x. x) result (close_at reader.old) reader.new }
{
    let changeset = reader.number()?;
    Ok(Command::CloseChangeset { changeset })
}

#[tactic(auto, unfolding(crate::specs::Read::upload_at))]
fn upload(alloc: Global, reader: &mut Reader<'_>) -> Result<Command, Fault>
    requires { Reads (upload_at reader.old) }
    ensures { Gives (λ x. x) result (upload_at reader.old) reader.new }
{
    let changeset = reader.number()?;
    let change = Change::of(operations(alloc, reader)?);
    Ok(Command::Upload { changeset, change })
}

#[tactic(auto, unfolding(crate::specs::Read::single_at))]
fn single(alloc: Global, reader: &mut Reader<'_>) -> Result<Command, Fault>
    requires { Reads (single_at reader.old) }
    ensures { Gives (λ x. x) result (single_at reader.old) reader.new }
{
    let changeset = reader.number()?;
    let change = Change::of(operations(alloc, reader)?);
    match OneOp::of(change) {
        Ok(change) => Ok(Command::Single { changeset, change }),
        Err(_) => Err(Fault::Malformed),
    }
}

#[tactic(auto, unfolding(crate::specs::Read::title_at))]
fn title(alloc: Global, reader: &mut Reader<'_>) -> Result<Command, Fault>
    ensures { Gives (λ x. x) result (title_at reader.old) reader.new }
{
    let title = text(alloc, reader)?;
    Ok(Command::MakeRedaction { title })
}

#[tactic(auto, unfolding(crate::specs::Read::key_at))]
fn key(reader: &mut Reader<'_>) -> Result<Key, Fault>
    ensures { Gives (λ x. x) result (key_at reader.old) reader.new }
{
    let kind = kind(reader)?;
    let id = reader.number()?;
    Ok(Key { kind, id })
}

#[tactic(auto, unfolding(crate::specs::Read::redact_at))]
fn redact(reader: &mut Reader<'_>) -> Result<Command, Fault>
    ensures { Gives (λ x. x) result (redact_at reader.old) reader.new }
{
    let key = key(reader)?;
    let version = reader.number()?;
    let redaction = reader.number()?;
    Ok(Command::Redact {
        key,
        version,
        redaction,
    })
}

#[tactic(auto, unfolding(crate::specs::Read::unredact_at))]
fn unredact(reader: &mut Reader<'_>) -> Result<Command, Fault>
    ensures { Gives (λ x. x) result (unredact_at reader.old) reader.new }
{
    let key = key(reader)?;
    let version = reader.number()?;
    Ok(Command::Unredact { key, version })
}

#[tactic(auto, unfolding(crate::specs::Read::command_by))]
fn command_by(alloc: Global, code: u8, reader: &mut Reader<'_>) -> Result<Command, Fault>
    requires { Reads (command_by code reader.old) }
    ensures { Gives (λ x. x) result (command_by code reader.old) reader.new }
{
    if code == 0 {
        create_changeset(alloc, reader)
    } else if code == 1 {
        retag(alloc, reader)
    } else if code == 2 {
        close(reader)
    } else if code == 3 {
        upload(alloc, reader)
    } else if code == 4 {
        single(alloc, reader)
    } else if code == 5 {
        title(alloc, reader)
    } else if code == 6 {
        redact(reader)
    } else if code == 7 {
        unredact(reader)
    } else {
        Err(Fault::Malformed)
    }
}

#[tactic(auto, unfolding(crate::specs::Read::command_at))]
pub(crate) fn command(alloc: Global, reader: &mut Reader<'_>) -> Result<Command, Fault>
    requires { Reads (command_at reader.old) }
    ensures { Gives (λ x. x) result (command_at reader.old) reader.new }
{
    let code = reader.byte()?;
    command_by(alloc, code, reader)
}
