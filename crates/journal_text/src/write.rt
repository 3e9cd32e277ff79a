//! The parts of a line, written one after another.
ghost use Rattle.std.specs.Prelude.{◌≡◌, ◌∷◌, [], ◌++◌, codes};
ghost use Rattle.serde_json.specs.Data.{string};
ghost use Rattle.osm_json.specs.Fields.{shown_fields, IsMember};
ghost use Rattle.osm_json.specs.Rows.{tags as tags_data};
ghost use Rattle.osm_json.specs.Sent.{Sends, tokens_of};
ghost use Rattle.osm_json.specs.Shown.{field, field_if, record_of, natural};
ghost use Rattle.osm_json.specs.Uploads.{change as change_data};
ghost use Rattle.journal_text.specs.Line.{command as command_data, user as user_data, line_data};

use json::Writer;
use osm_base::{Key, User};
use osm_change::Change;
use osm_element::Tags;
use osm_json::{FieldValue, kind_name, write_change, write_members, write_record, write_tags};
use osm_model::{Command, Entry};
use std::alloc::AllocError;

/// A number that is left out where there is none.
fn optional(number: Option<u64>) -> FieldValue<'static>
    ensures { IsMember result (λ name. field_if name natural number) }
{
    match number {
        Some(n) => FieldValue::Natural(n),
        None => FieldValue::Absent,
    }
}

#[tactic(auto, unfolding(crate::specs::Line::user))]
fn user(out: &mut Writer, user: &User) -> Result<(), AllocError>
    ensures { Sends result out.old out.new (tokens_of (user_data user.now)) }
{
    write_record(
        out,
        &[
            ("id", FieldValue::Natural(user.id)),
            ("limit", optional(user.limit)),
            ("moderator", FieldValue::Flag(user.moderator)),
            ("name", FieldValue::Text(user.name.as_str())),
        ],
    )
}

fn with_tags(
    out: &mut Writer,
    front: &[(&str, FieldValue<'_>)],
    tags: &Tags,
) -> Result<(), AllocError>
    ensures { Sends result out.old out.new (tokens_of (record_of (shown_fields front.now ++ field (codes "tags") (tags_data tags.now) ∷ []))) }
{
    out.begin_object()?;
    write_members(out, front)?;
    out.key("tags")?;
    write_tags(out, tags)?;
    out.end_object()
}

#[tactic(auto, unfolding(crate::specs::Line::command))]
fn create(out: &mut Writer, tags: &Tags, large_from: Option<u64>) -> Result<(), AllocError>
    ensures { Sends result out.old out.new (tokens_of (command_data (Command.CreateChangeset tags.now large_from))) }
{
    with_tags(
        out,
        &[
            ("act", FieldValue::Text("create_changeset")),
            ("large_from", optional(large_from)),
        ],
        tags,
    )
}

fn with_change(
    out: &mut Writer,
    act: &str,
    changeset: u64,
    change: &Change,
) -> Result<(), AllocError>
    ensures { Sends result out.old out.new (tokens_of (record_of (
        field (codes "act") (string act.now)
        ∷ field (codes "changeset") (natural changeset)
        ∷ field (codes "osmChange") (change_data change.now) ∷ []))) }
{
    out.begin_object()?;
    write_members(
        out,
        &[
            ("act", FieldValue::Text(act)),
            ("changeset", FieldValue::Natural(changeset)),
        ],
    )?;
    out.key("osmChange")?;
    write_change(out, change)?;
    out.end_object()
}

#[tactic(auto, unfolding(crate::specs::Line::command))]
fn redact(out: &mut Writer, key: Key, version: u64, redaction: u64) -> Result<(), AllocError>
    ensures { Sends result out.old out.new (tokens_of (command_data (Command.Redact key version redaction))) }
{
    write_record(
        out,
        &[
            ("act", FieldValue::Text("redact")),
            ("id", FieldValue::Natural(key.id)),
            ("redaction", FieldValue::Natural(redaction)),
            ("type", FieldValue::Text(kind_name(key.kind))),
            ("version", FieldValue::Natural(version)),
        ],
    )
}

#[tactic(auto, unfolding(crate::specs::Line::command))]
fn unredact(out: &mut Writer, key: Key, version: u64) -> Result<(), AllocError>
    ensures { Sends result out.old out.new (tokens_of (command_data (Command.Unredact key version))) }
{
    write_record(
        out,
        &[
            ("act", FieldValue::Text("unredact")),
            ("id", FieldValue::Natural(key.id)),
            ("type", FieldValue::Text(kind_name(key.kind))),
            ("version", FieldValue::Natural(version)),
        ],
    )
}

#[tactic(auto, unfolding(crate::specs::Line::command))]
fn command(out: &mut Writer, command: &Command) -> Result<(), AllocError>
    ensures { Sends result out.old out.new (tokens_of (command_data command.now)) }
{
    match command {
        Command::CreateChangeset { tags, large_from } => create(out, tags, *large_from),
        Command::Retag { changeset, tags } => with_tags(
            out,
            &[
                ("act", FieldValue::Text("retag")),
                ("changeset", FieldValue::Natural(*changeset)),
            ],
            tags,
        ),
        Command::CloseChangeset { changeset } => write_record(
            out,
            &[
                ("act", FieldValue::Text("close")),
                ("changeset", FieldValue::Natural(*changeset)),
            ],
        ),
        Command::Upload { changeset, change } => with_change(out, "upload", *changeset, change),
        Command::Single { changeset, change } => {
            with_change(out, "single", *changeset, change.change())
        }
        Command::MakeRedaction { title } => write_record(
            out,
            &[
                ("act", FieldValue::Text("make_redaction")),
                ("title", FieldValue::Text(title.as_str())),
            ],
        ),
        Command::Redact {
            key,
            version,
            redaction,
        } => redact(out, *key, *version, *redaction),
        Command::Unredact { key, version } => unredact(out, *key, *version),
    }
}

#[tactic(auto, unfolding(crate::specs::Line::line_data))]
pub(crate) fn entry(out: &mut Writer, entry: &Entry) -> Result<(), AllocError>
    ensures { Sends result out.old out.new (tokens_of (line_data entry.now)) }
{
    out.begin_object()?;
    write_members(
        out,
        &[
            ("at", FieldValue::Natural(entry.stamp.seconds())),
            ("call", FieldValue::Natural(entry.call)),
        ],
    )?;
    out.key("command")?;
    command(out, &entry.command)?;
    write_members(
        out,
        &[("session", FieldValue::Natural(entry.session as u64))],
    )?;
    out.key("user")?;
    user(out, &entry.user)?;
    out.end_object()
}
