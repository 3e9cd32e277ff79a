//! The parts of a line, read token by token.
ghost use Rattle.std.specs.Prelude.{◌≡◌, ◌<◌, ◌^◌, length, codes, Some, IfOk};
ghost use Rattle.serde_json.specs.Find.{as_bool, as_str};
ghost use Rattle.osm_change.specs.Build.{IsRaw};
ghost use Rattle.osm_json.specs.Again.{natural_of, next_as, ops_of};
ghost use Rattle.osm_json.specs.Reading.{kind_of, tags_of};
ghost use Rattle.json_line.specs.Heard.{Hears};
ghost use Rattle.json_line.specs.Read.{◌>>=◌ as bind, end_next, key_next, member_next, session_next};
ghost use Rattle.journal_text.specs.Read.{user_next, change_next, number_next, optional_next, create_next, retag_next, close_next, upload_next, single_next, title_next, redact_next, unredact_next, by_act, command_next, entry_next};

use json::{Reader, Token};
use json_line::{begin, end, heard, key, lent_text, natural, session};
use line_text::LineFault;
use osm_base::{Key, Kind, Stamp, Text, User};
use osm_change::{Cause, Change, OneOp, RawOp};
use osm_element::Tags;
use osm_json::{next_change, next_flag, next_kind, next_natural, next_tags};
use osm_model::{Command, Entry};
use std::alloc::Global;

// Members.

/// A value whose name was read already.
#[tactic(auto, using(json_line::proofs::Hearing::hears_value))]
fn natural_value(reader: &mut Reader<'_>) -> Result<u64, LineFault>
    ensures { Hears (λ n. n) result (next_as natural_of reader.old) reader.new }
{
    heard(next_natural(reader))
}

#[tactic(auto, using(json_line::proofs::Hearing::hears_value))]
fn flag_value(reader: &mut Reader<'_>) -> Result<bool, LineFault>
    ensures { Hears (λ b. b) result (next_as as_bool reader.old) reader.new }
{
    heard(next_flag(reader))
}

#[tactic(auto, using(json_line::proofs::Hearing::hears_value))]
fn tags_value(alloc: Global, reader: &mut Reader<'_>) -> Result<Tags, LineFault>
    ensures { Hears (λ t. t) result (next_as tags_of reader.old) reader.new }
{
    heard(next_tags(alloc, reader))
}

/// The number of a member, and then the name of the member behind it.
fn number(reader: &mut Reader<'_>, behind: &str) -> Result<Option<u64>, LineFault>
    ensures { Hears (λ n. n) result (number_next behind.now reader.old) reader.new }
{
    let number = natural_value(reader)?;
    key(reader, behind)?;
    Ok(Some(number))
}

/// The number of a member that may be left out, and then the name of the member behind it.
#[tactic(auto, unfolding(crate::specs::Read::optional_next))]
fn optional(reader: &mut Reader<'_>, name: &str, behind: &str) -> Result<Option<u64>, LineFault>
    ensures { Hears (λ n. n) result (optional_next name.now behind.now reader.old) reader.new }
{
    match reader.next() {
        Some(Token::Key(found)) => if found == name {
            number(reader, behind)
        } else if found == behind {
            Ok(None)
        } else {
            Err(LineFault::NotLine)
        },
        _ => Err(LineFault::NotLine),
    }
}

#[tactic(auto, using(json_line::proofs::Hearing::hears))]
fn kind(reader: &mut Reader<'_>) -> Result<Kind, LineFault>
    ensures { Hears (λ k. k) result (member_next (codes "type") kind_of reader.old) reader.new }
{
    key(reader, "type")?;
    heard(next_kind(reader))
}

#[tactic(auto, using(json_line::proofs::Hearing::hears))]
fn tags(alloc: Global, reader: &mut Reader<'_>) -> Result<Tags, LineFault>
    ensures { Hears (λ t. t) result (member_next (codes "tags") tags_of reader.old) reader.new }
{
    key(reader, "tags")?;
    heard(next_tags(alloc, reader))
}

#[tactic(auto, using(json_line::proofs::Hearing::hears))]
fn operations(alloc: Global, reader: &mut Reader<'_>) -> Result<Vec<RawOp>, LineFault>
    ensures value { Hears (λ v. v.items) result (member_next (codes "osmChange") ops_of reader.old) reader.new }
    ensures raw { IfOk result (λ v. IsRaw v.items) }
{
    key(reader, "osmChange")?;
    heard(next_change(alloc, reader))
}

#[tactic(auto, unfolding(crate::specs::Read::change_next))]
fn change(alloc: Global, reader: &mut Reader<'_>, changeset: u64) -> Result<Change, LineFault>
    ensures { Hears (λ c. c) result (change_next changeset reader.old) reader.new }
{
    let raw = operations(alloc, reader)?;
    match Change::build(alloc, changeset, raw) {
        Ok(change) => Ok(change),
        Err(fault) => match fault.cause {
            Cause::Memory => Err(LineFault::Memory),
            _ => Err(LineFault::NotLine),
        },
    }
}

#[tactic(auto, unfolding(crate::specs::Read::user_next))]
fn user(alloc: Global, reader: &mut Reader<'_>) -> Result<User, LineFault>
    ensures { Hears (λ u. u) result (user_next reader.old) reader.new }
{
    begin(reader)?;
    let id = natural(reader, "id")?;
    let limit = optional(reader, "limit", "moderator")?;
    let moderator = flag_value(reader)?;
    let name = lent_text(reader, "name")?;
    end(reader)?;
    let name = Text::of(alloc, name)?;
    Ok(User {
        id,
        name,
        moderator,
        limit,
    })
}

// Commands, from behind their act.

#[tactic(auto, unfolding(crate::specs::Read::create_next))]
fn create(alloc: Global, reader: &mut Reader<'_>) -> Result<Command, LineFault>
    ensures { Hears (λ c. c) result (create_next reader.old) reader.new }
{
    let large_from = optional(reader, "large_from", "tags")?;
    let tags = tags_value(alloc, reader)?;
    Ok(Command::CreateChangeset { tags, large_from })
}

#[tactic(auto, unfolding(crate::specs::Read::retag_next))]
fn retag(alloc: Global, reader: &mut Reader<'_>) -> Result<Command, LineFault>
    ensures { Hears (λ c. c) result (retag_next reader.old) reader.new }
{
    let changeset = natural(reader, "changeset")?;
    let tags = tags(alloc, reader)?;
    Ok(Command::Retag { changeset, tags })
}

#[tactic(auto, unfolding(crate::specs::Read::close_next))]
fn close(reader: &mut Reader<'_>) -> Result<Command, LineFault>
    ensures { Hears (λ c. c) result (close_next reader.old) reader.new }
{
    let changeset = natural(reader, "changeset")?;
    Ok(Command::CloseChangeset { changeset })
}

#[tactic(auto, unfolding(crate::specs::Read::upload_next))]
fn upload(alloc: Global, reader: &mut Reader<'_>) -> Result<Command, LineFault>
    ensures { Hears (λ c. c) result (upload_next reader.old) reader.new }
{
    let changeset = natural(reader, "changeset")?;
    let change = change(alloc, reader, changeset)?;
    Ok(Command::Upload { changeset, change })
}

#[tactic(auto, unfolding(crate::specs::Read::single_next))]
fn single(alloc: Global, reader: &mut Reader<'_>) -> Result<Command, LineFault>
    ensures { Hears (λ c. c) result (single_next reader.old) reader.new }
{
    let changeset = natural(reader, "changeset")?;
    let change = change(alloc, reader, changeset)?;
    match OneOp::of(change) {
        Ok(change) => Ok(Command::Single { changeset, change }),
        Err(_) => Err(LineFault::NotLine),
    }
}

#[tactic(auto, unfolding(crate::specs::Read::title_next))]
fn title(alloc: Global, reader: &mut Reader<'_>) -> Result<Command, LineFault>
    ensures { Hears (λ c. c) result (title_next reader.old) reader.new }
{
    let title = lent_text(reader, "title")?;
    let title = Text::of(alloc, title)?;
    Ok(Command::MakeRedaction { title })
}

#[tactic(auto, unfolding(crate::specs::Read::redact_next))]
fn redact(reader: &mut Reader<'_>) -> Result<Command, LineFault>
    ensures { Hears (λ c. c) result (redact_next reader.old) reader.new }
{
    let id = natural(reader, "id")?;
    let redaction = natural(reader, "redaction")?;
    let kind = kind(reader)?;
    let version = natural(reader, "version")?;
    Ok(Command::Redact {
        key: Key { kind, id },
        version,
        redaction,
    })
}

#[tactic(auto, unfolding(crate::specs::Read::unredact_next))]
fn unredact(reader: &mut Reader<'_>) -> Result<Command, LineFault>
    ensures { Hears (λ c. c) result (unredact_next reader.old) reader.new }
{
    let id = natural(reader, "id")?;
    let kind = kind(reader)?;
    let version = natural(reader, "version")?;
    Ok(Command::Unredact {
        key: Key { kind, id },
        version,
    })
}

#[tactic(auto, unfolding(crate::specs::Read::by_act))]
fn by_act(alloc: Global, reader: &mut Reader<'_>, act: &str) -> Result<Command, LineFault>
    ensures { Hears (λ c. c) result (by_act act.now reader.old) reader.new }
{
    if act == "create_changeset" {
        create(alloc, reader)
    } else if act == "retag" {
        retag(alloc, reader)
    } else if act == "close" {
        close(reader)
    } else if act == "upload" {
        upload(alloc, reader)
    } else if act == "single" {
        single(alloc, reader)
    } else if act == "make_redaction" {
        title(alloc, reader)
    } else if act == "redact" {
        redact(reader)
    } else if act == "unredact" {
        unredact(reader)
    } else {
        Err(LineFault::NotLine)
    }
}

#[tactic(auto, unfolding(crate::specs::Read::command_next))]
fn command(alloc: Global, reader: &mut Reader<'_>) -> Result<Command, LineFault>
    ensures { Hears (λ c. c) result (command_next reader.old) reader.new }
{
    begin(reader)?;
    let act = lent_text(reader, "act")?;
    let command = by_act(alloc, reader, act)?;
    end(reader)?;
    Ok(command)
}

// An entry.

/// What stands behind the command of an entry: its session and its user.
fn behind_command(alloc: Global, reader: &mut Reader<'_>) -> Result<(u32, User), LineFault>
    ensures { Hears (λ p. p) result (bind (session_next reader.old)
        (λ session ts. bind (key_next (codes "user") ts)
        (λ _ ts. bind (user_next ts) (λ user ts. bind (end_next ts) (λ _ ts. Some ((session, user), ts)))))) reader.new }
{
    let session = session(reader)?;
    key(reader, "user")?;
    let user = user(alloc, reader)?;
    end(reader)?;
    Ok((session, user))
}

/// The object of an entry, each member in its place and no other one.
#[tactic(auto, unfolding(crate::specs::Read::entry_next))]
pub(crate) fn entry(alloc: Global, reader: &mut Reader<'_>) -> Result<Entry, LineFault>
    ensures { Hears (λ e. e) result (entry_next reader.old) reader.new }
{
    begin(reader)?;
    let at = natural(reader, "at")?;
    let call = natural(reader, "call")?;
    key(reader, "command")?;
    let command = command(alloc, reader)?;
    let (session, user) = behind_command(alloc, reader)?;
    Ok(Entry {
        session,
        call,
        user,
        stamp: Stamp(at),
        command,
    })
}
