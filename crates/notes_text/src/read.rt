//! The parts of a line, read token by token.
ghost use Rattle.std.specs.Prelude.{Some};
ghost use Rattle.serde_json.specs.Find.{as_str};
ghost use Rattle.json_line.specs.Heard.{Hears};
ghost use Rattle.json_line.specs.Read.{member_next};
ghost use Rattle.notes_text.specs.Read.{units_next, coordinate_next, position_next, opening_next, comment_next, closing_next, reopening_next, by_act, command_next, user_next, known_next, caller_next, entry_next};

use crate::units::{place, read_units};
use json::{Reader, Token};
use json_line::{begin, end, key, lent_text, natural, session};
use line_text::LineFault;
use notes_core::{NoteCommand, NoteEntry};
use osm_base::{Coord, Owner, Stamp, Text};
use std::alloc::Global;

// Members.

fn text(alloc: Global, reader: &mut Reader<'_>, name: &str) -> Result<Text, LineFault>
    ensures { Hears (λ t. t) result (member_next name.now as_str reader.old) reader.new }
{
    let lent = lent_text(reader, name)?;
    let text = Text::of(alloc, lent)?;
    Ok(text)
}

fn units(reader: &mut Reader<'_>) -> Result<i32, LineFault>
    ensures { Hears (λ z. z) result (units_next reader.old) reader.new }
{
    match reader.next() {
        Some(Token::Number(text)) => match read_units(text) {
            Some(units) => Ok(units),
            None => Err(LineFault::NotLine),
        },
        _ => Err(LineFault::NotLine),
    }
}

fn coordinate(reader: &mut Reader<'_>, name: &str) -> Result<i32, LineFault>
    ensures { Hears (λ z. z) result (coordinate_next name.now reader.old) reader.new }
{
    key(reader, name)?;
    units(reader)
}

#[tactic(auto, unfolding(crate::specs::Read::position_next))]
fn position(reader: &mut Reader<'_>) -> Result<Coord, LineFault>
    ensures { Hears (λ c. c) result (position_next reader.old) reader.new }
{
    let lat7 = coordinate(reader, "lat7")?;
    let lon7 = coordinate(reader, "lon7")?;
    place(lat7, lon7)
}

// Commands, from behind their act.

#[tactic(auto, unfolding(crate::specs::Read::opening_next))]
fn opening(alloc: Global, reader: &mut Reader<'_>) -> Result<NoteCommand, LineFault>
    ensures { Hears (λ c. c) result (opening_next reader.old) reader.new }
{
    let at = position(reader)?;
    let text = text(alloc, reader, "text")?;
    Ok(NoteCommand::OpenNote { at, text })
}

#[tactic(auto, unfolding(crate::specs::Read::comment_next))]
fn comment(alloc: Global, reader: &mut Reader<'_>) -> Result<NoteCommand, LineFault>
    ensures { Hears (λ c. c) result (comment_next reader.old) reader.new }
{
    let id = natural(reader, "id")?;
    let text = text(alloc, reader, "text")?;
    Ok(NoteCommand::Comment { id, text })
}

#[tactic(auto, unfolding(crate::specs::Read::closing_next))]
fn closing(alloc: Global, reader: &mut Reader<'_>) -> Result<NoteCommand, LineFault>
    ensures { Hears (λ c. c) result (closing_next reader.old) reader.new }
{
    let id = natural(reader, "id")?;
    let text = text(alloc, reader, "text")?;
    Ok(NoteCommand::CloseNote { id, text })
}

#[tactic(auto, unfolding(crate::specs::Read::reopening_next))]
fn reopening(alloc: Global, reader: &mut Reader<'_>) -> Result<NoteCommand, LineFault>
    ensures { Hears (λ c. c) result (reopening_next reader.old) reader.new }
{
    let id = natural(reader, "id")?;
    let text = text(alloc, reader, "text")?;
    Ok(NoteCommand::Reopen { id, text })
}

#[tactic(auto, unfolding(crate::specs::Read::by_act))]
fn by_act(alloc: Global, reader: &mut Reader<'_>, act: &str) -> Result<NoteCommand, LineFault>
    ensures { Hears (λ c. c) result (by_act act.now reader.old) reader.new }
{
    if act == "open" {
        opening(alloc, reader)
    } else if act == "comment" {
        comment(alloc, reader)
    } else if act == "close" {
        closing(alloc, reader)
    } else if act == "reopen" {
        reopening(alloc, reader)
    } else {
        Err(LineFault::NotLine)
    }
}

#[tactic(auto, unfolding(crate::specs::Read::command_next))]
fn command(alloc: Global, reader: &mut Reader<'_>) -> Result<NoteCommand, LineFault>
    ensures { Hears (λ c. c) result (command_next reader.old) reader.new }
{
    begin(reader)?;
    let act = lent_text(reader, "act")?;
    let command = by_act(alloc, reader, act)?;
    end(reader)?;
    Ok(command)
}

// An entry.

#[tactic(auto, unfolding(crate::specs::Read::user_next))]
fn user(alloc: Global, reader: &mut Reader<'_>) -> Result<Owner, LineFault>
    ensures { Hears (λ o. o) result (user_next reader.old) reader.new }
{
    begin(reader)?;
    let id = natural(reader, "id")?;
    let name = text(alloc, reader, "name")?;
    end(reader)?;
    Ok(Owner { id, name })
}

/// A user, and the end of the entry.
fn known(alloc: Global, reader: &mut Reader<'_>) -> Result<Option<Owner>, LineFault>
    ensures { Hears (λ c. c) result (known_next reader.old) reader.new }
{
    let user = user(alloc, reader)?;
    end(reader)?;
    Ok(Some(user))
}

/// The end of the entry, with a user before it or none.
#[tactic(auto, unfolding(crate::specs::Read::caller_next))]
fn caller(alloc: Global, reader: &mut Reader<'_>) -> Result<Option<Owner>, LineFault>
    ensures { Hears (λ c. c) result (caller_next reader.old) reader.new }
{
    match reader.next() {
        Some(Token::EndObject) => Ok(None),
        Some(Token::Key(found)) => if found == "user" {
            known(alloc, reader)
        } else {
            Err(LineFault::NotLine)
        },
        _ => Err(LineFault::NotLine),
    }
}

/// The object of an entry, each member in its place and no other one.
#[tactic(auto, unfolding(crate::specs::Read::entry_next))]
pub(crate) fn entry(alloc: Global, reader: &mut Reader<'_>) -> Result<NoteEntry, LineFault>
    ensures { Hears (λ e. e) result (entry_next reader.old) reader.new }
{
    begin(reader)?;
    let at = natural(reader, "at")?;
    let call = natural(reader, "call")?;
    key(reader, "command")?;
    let command = command(alloc, reader)?;
    let session = session(reader)?;
    let caller = caller(alloc, reader)?;
    Ok(NoteEntry {
        session,
        call,
        caller,
        stamp: Stamp(at),
        command,
    })
}
