//! The parts of a line, written one after another.
ghost use Rattle.std.specs.Prelude.{◌≡◌, ◌∷◌, [], codes};
ghost use Rattle.osm_json.specs.Fields.{IsMember};
ghost use Rattle.osm_json.specs.Sent.{Sends, SendsFields, tokens_of};
ghost use Rattle.osm_json.specs.Shown.{field, field_if, record_of, integer};
ghost use Rattle.notes_text.specs.Line.{said_fields, command as command_data, user as user_data, line_data};

use json::Writer;
use notes_core::{NoteCommand, NoteEntry};
use osm_base::{Coord, Owner, Text};
use osm_json::{FieldValue, write_members, write_record};
use std::alloc::AllocError;

/// A coordinate, in units of 1e-7 degrees.
fn units(at: i32) -> FieldValue<'static>
    ensures { IsMember result (λ name. field name (integer at)) }
{
    FieldValue::Integer(at as i64)
}

#[tactic(auto, unfolding(crate::specs::Line::command))]
fn opening(out: &mut Writer, at: Coord, text: &Text) -> Result<(), AllocError>
    ensures { Sends result out.old out.new (tokens_of (command_data (NoteCommand.OpenNote at text.now))) }
{
    write_record(
        out,
        &[
            ("act", FieldValue::Text("open")),
            ("lat7", units(at.lat7())),
            ("lon7", units(at.lon7())),
            ("text", FieldValue::Text(text.as_str())),
        ],
    )
}

/// What is done to a note that has a number.
fn said<'a>(out: &mut Writer, act: &'a str, id: u64, text: &'a Text) -> Result<(), AllocError>
    ensures { Sends result out.old out.new (tokens_of (record_of (said_fields act.now id text.now))) }
{
    write_record(
        out,
        &[
            ("act", FieldValue::Text(act)),
            ("id", FieldValue::Natural(id)),
            ("text", FieldValue::Text(text.as_str())),
        ],
    )
}

#[tactic(auto, unfolding(crate::specs::Line::command))]
fn command(out: &mut Writer, command: &NoteCommand) -> Result<(), AllocError>
    ensures { Sends result out.old out.new (tokens_of (command_data command.now)) }
{
    match command {
        NoteCommand::OpenNote { at, text } => opening(out, *at, text),
        NoteCommand::Comment { id, text } => said(out, "comment", *id, text),
        NoteCommand::CloseNote { id, text } => said(out, "close", *id, text),
        NoteCommand::Reopen { id, text } => said(out, "reopen", *id, text),
    }
}

#[tactic(auto, unfolding(crate::specs::Line::user))]
fn user(out: &mut Writer, user: &Owner) -> Result<(), AllocError>
    ensures { Sends result out.old out.new (tokens_of (user_data user.now)) }
{
    write_record(
        out,
        &[
            ("id", FieldValue::Natural(user.id)),
            ("name", FieldValue::Text(user.name.as_str())),
        ],
    )
}

fn known(out: &mut Writer, owner: &Owner) -> Result<(), AllocError>
    ensures { SendsFields result out.old out.new (field (codes "user") (user_data owner.now) ∷ []) }
{
    out.key("user")?;
    user(out, owner)
}

/// The member of a caller who is known, and else none.
fn caller(out: &mut Writer, caller: &Option<Owner>) -> Result<(), AllocError>
    ensures { SendsFields result out.old out.new (field_if (codes "user") user_data caller.now ∷ []) }
{
    match caller {
        Some(owner) => known(out, owner),
        None => write_members(out, &[("user", FieldValue::Absent)]),
    }
}

#[tactic(auto, unfolding(crate::specs::Line::line_data))]
pub(crate) fn entry(out: &mut Writer, entry: &NoteEntry) -> Result<(), AllocError>
    ensures { Sends result out.old out.new (tokens_of (line_data entry.now)) }
{
    out.begin_object()?;
    write_members(
        out,
        &[
            ("at", FieldValue::Natural(entry.stamp.seconds())),
            ("call", FieldValue::Natural(entry.call)),
        ],
    )?;
    out.key("command")?;
    command(out, &entry.command)?;
    write_members(
        out,
        &[("session", FieldValue::Natural(entry.session as u64))],
    )?;
    caller(out, &entry.caller)?;
    out.end_object()
}
