//! Notes and refusals, written as JSON (RFC 8259).
ghost use Rattle.std.specs.Prelude.{◌≡◌, ◌∷◌, [], ◌++◌, All, codes, flat_map, option_copied};
ghost use Rattle.std.specs.Option.{ForSome};
ghost use Rattle.serde_json.specs.Data.{string};
ghost use Rattle.osm_base.specs.declared.people.Owner.{Owner};
ghost use Rattle.osm_json.specs.Fields.{IsMember};
ghost use Rattle.osm_json.specs.Sent.{Sends, SendsFields, tokens_of};
ghost use Rattle.osm_json.specs.Shown.{field, field_if, record_of, integer, natural, moment, version_field};
ghost use Rattle.notes_core.specs.Act.{comment_of};
ghost use Rattle.notes_core.specs.Sent.{said_before, said_by, note_with, HasTimelyEnd};
ghost use Rattle.notes_core.specs.Shown.{action_name as name_of_action, status_name as name_of_status, comment_data, life_fields, note_data, refusal_data};
ghost use Rattle.notes_core.specs.World.{IsTimelyComment, IsTimelyMoment};
ghost use Rattle.notes_core.specs.declared.notes.NoteRefusal.{NoteRefusal};

use crate::commands::NoteEntry;
use crate::kept::KeptNote;
use crate::limits::NOTES_AREA_LIMIT;
use crate::notes::{NoteAction, NoteComment, NoteRefusal};
use json::Writer;
use osm_base::{COMMENT_LIMIT, Coord, Memory, Owner, Stamp, Text};
use osm_json::{FieldValue, stamp_text, write_members, write_record};
use std::alloc::Global;

fn action_name(action: NoteAction) -> &'static str
    ensures { result.now ≡ name_of_action action }
{
    match action {
        NoteAction::Opened => "opened",
        NoteAction::Commented => "commented",
        NoteAction::Closed => "closed",
        NoteAction::Reopened => "reopened",
    }
}

fn status_name(closed: Option<Stamp>) -> &'static str
    ensures { result.now ≡ name_of_status closed }
{
    match closed {
        Some(_) => "closed",
        None => "open",
    }
}

fn uid(caller: &Option<Owner>) -> FieldValue<'_>
    ensures { IsMember result (λ name. field_if name (λ (o : Owner). natural o.id) caller.now) }
{
    match caller {
        Some(owner) => FieldValue::Natural(owner.id),
        None => FieldValue::Absent,
    }
}

fn user(caller: &Option<Owner>) -> FieldValue<'_>
    ensures { IsMember result (λ name. field_if name (λ (o : Owner). string o.name) caller.now) }
{
    match caller {
        Some(owner) => FieldValue::Text(owner.name.as_str()),
        None => FieldValue::Absent,
    }
}

/// A member that is a moment. Its text lives no longer than the call.
fn write_date(alloc: Global, out: &mut Writer, name: &str, at: Stamp) -> Result<(), Memory>
    requires { IsTimelyMoment at }
    ensures { SendsFields result out.old out.new (field name.now (moment at) ∷ []) }
{
    let date = stamp_text(alloc, at)?;
    write_members(out, &[(name, FieldValue::Text(date.as_str()))])?;
    Ok(())
}

fn write_comment(
    alloc: Global,
    out: &mut Writer,
    caller: &Option<Owner>,
    at: Stamp,
    action: NoteAction,
    text: &Text,
) -> Result<(), Memory>
    requires { IsTimelyMoment at }
    ensures { Sends result out.old out.new (tokens_of (comment_data
        (record { caller = caller.now; stamp = at; action = action; text = text.now }))) }
{
    out.begin_object()?;
    write_members(out, &[("action", FieldValue::Text(action_name(action)))])?;
    write_date(alloc, out, "date", at)?;
    write_members(out, &[("text", FieldValue::Text(text.as_str()))])?;
    write_members(out, &[("uid", uid(caller)), ("user", user(caller))])?;
    out.end_object()?;
    Ok(())
}

fn write_said(alloc: Global, out: &mut Writer, comment: &NoteComment) -> Result<(), Memory>
    requires { IsTimelyComment comment.now }
    ensures { Sends result out.old out.new (tokens_of (comment_data comment.now)) }
{
    write_comment(
        alloc,
        out,
        &comment.caller,
        comment.stamp,
        comment.action,
        &comment.text,
    )
}

fn write_comments(alloc: Global, out: &mut Writer, comments: &[NoteComment]) -> Result<(), Memory>
    requires { All IsTimelyComment comments.now }
    ensures { Sends result out.old out.new (flat_map (λ c. tokens_of (comment_data c)) comments.now) }
{
    for comment in comments {
        write_said(alloc, out, comment)?;
    }
    Ok(())
}

fn write_kept(alloc: Global, out: &mut Writer, kept: &KeptNote) -> Result<(), Memory>
    ensures { Sends result out.old out.new (flat_map (λ c. tokens_of (comment_data c)) kept.now.note.comments) }
{
    let (first, later) = kept.comments();
    write_said(alloc, out, first)?;
    write_comments(alloc, out, later)?;
    Ok(())
}

/// The comments that a note has.
fn write_before(alloc: Global, out: &mut Writer, before: Option<&KeptNote>) -> Result<(), Memory>
    ensures { Sends result out.old out.new
        (flat_map (λ c. tokens_of (comment_data c)) (said_before (option_copied before.entry))) }
{
    match before {
        Some(kept) => write_kept(alloc, out, kept),
        None => Ok(()),
    }
}

fn write_entry(alloc: Global, out: &mut Writer, entry: &NoteEntry) -> Result<(), Memory>
    requires { IsTimelyMoment entry.now.stamp }
    ensures { Sends result out.old out.new (flat_map (λ c. tokens_of (comment_data c))
        (comment_of entry.now.caller entry.now.stamp entry.now.command ∷ [])) }
{
    let command = &entry.command;
    write_comment(
        alloc,
        out,
        &entry.caller,
        entry.stamp,
        command.action(),
        command.text(),
    )?;
    Ok(())
}

/// The comment that an entry makes.
fn write_next(alloc: Global, out: &mut Writer, next: Option<&NoteEntry>) -> Result<(), Memory>
    requires { ForSome (option_copied next) (λ e. IsTimelyMoment e.stamp) }
    ensures { Sends result out.old out.new
        (flat_map (λ c. tokens_of (comment_data c)) (said_by (option_copied next.entry))) }
{
    match next {
        Some(entry) => write_entry(alloc, out, entry),
        None => Ok(()),
    }
}

fn write_end(alloc: Global, out: &mut Writer, closed: Option<Stamp>) -> Result<(), Memory>
    requires { ForSome closed IsTimelyMoment }
    ensures { SendsFields result out.old out.new (field_if (codes "closed_at") moment closed ∷ []) }
{
    match closed {
        Some(at) => write_date(alloc, out, "closed_at", at),
        None => {
            write_members(out, &[("closed_at", FieldValue::Absent)])?;
            Ok(())
        }
    }
}

/// What is told of a note besides its comments.
#[derive(Clone, Copy)]
pub(crate) struct Head {
    pub(crate) id: u64,
    pub(crate) at: Coord,
    pub(crate) created: Stamp,
    pub(crate) closed: Option<Stamp>,
}

/// A coordinate, in units of 1e-7 degrees.
fn units(at: i32) -> FieldValue<'static>
    ensures { IsMember result (λ name. field name (integer at)) }
{
    FieldValue::Integer(at as i64)
}

fn write_position(out: &mut Writer, at: Coord) -> Result<(), Memory>
    ensures { SendsFields result out.old out.new (field (codes "lat7") (integer at.lat7) ∷ field (codes "lon7") (integer at.lon7) ∷ []) }
{
    write_members(
        out,
        &[("lat7", units(at.lat7())), ("lon7", units(at.lon7()))],
    )?;
    Ok(())
}

fn write_life(alloc: Global, out: &mut Writer, head: Head) -> Result<(), Memory>
    requires { IsTimelyMoment head.created }
    ensures { SendsFields result out.old out.new (life_fields head.id (note_with head.at head.created head.closed [])) }
{
    write_date(alloc, out, "date_created", head.created)?;
    write_members(out, &[("id", FieldValue::Natural(head.id))])?;
    write_position(out, head.at)?;
    write_members(
        out,
        &[("status", FieldValue::Text(status_name(head.closed)))],
    )?;
    Ok(())
}

/// A note: the comments that it has, and behind them the one that an entry makes.
pub(crate) fn write_note(
    alloc: Global,
    out: &mut Writer,
    head: Head,
    before: Option<&KeptNote>,
    next: Option<&NoteEntry>,
) -> Result<(), Memory>
    requires created { IsTimelyMoment head.created }
    requires closed { ForSome head.closed IsTimelyMoment }
    requires next { ForSome (option_copied next) (λ e. IsTimelyMoment e.stamp) }
    ensures { Sends result out.old out.new (tokens_of (note_data head.id
        (note_with head.at head.created head.closed (said_before (option_copied before.entry) ++ said_by (option_copied next.entry))))) }
{
    out.begin_object()?;
    write_end(alloc, out, head.closed)?;
    out.key("comments")?;
    out.begin_array()?;
    write_before(alloc, out, before)?;
    write_next(alloc, out, next)?;
    out.end_array()?;
    write_life(alloc, out, head)?;
    out.end_object()?;
    Ok(())
}

/// The version of the interface, which ends each document.
pub(crate) fn write_version(out: &mut Writer) -> Result<(), Memory>
    ensures { SendsFields result out.old out.new (version_field ∷ []) }
{
    write_members(out, &[("version", FieldValue::Text("0.6"))])?;
    Ok(())
}

fn write_closed(alloc: Global, out: &mut Writer, closed_at: Stamp, id: u64) -> Result<(), Memory>
    requires { IsTimelyMoment closed_at }
    ensures { Sends result out.old out.new (tokens_of (refusal_data (NoteRefusal.NoteClosed closed_at id))) }
{
    out.begin_object()?;
    write_date(alloc, out, "closed_at", closed_at)?;
    write_members(
        out,
        &[
            ("error", FieldValue::Text("note_closed")),
            ("id", FieldValue::Natural(id)),
        ],
    )?;
    out.end_object()?;
    Ok(())
}

/// Why a command or a query is refused.
#[tactic(auto, unfolding(crate::specs::Shown::refusal_data))]
pub(crate) fn write_refusal(
    alloc: Global,
    out: &mut Writer,
    refusal: &NoteRefusal,
) -> Result<(), Memory>
    requires { HasTimelyEnd refusal.now }
    ensures { Sends result out.old out.new (tokens_of (refusal_data refusal.now)) }
{
    match refusal {
        NoteRefusal::NoNote { id } => write_named(out, "no_note", *id),
        NoteRefusal::NoteClosed { closed_at, id } => write_closed(alloc, out, *closed_at, *id),
        NoteRefusal::NoteOpen { id } => write_named(out, "note_open", *id),
        NoteRefusal::NoteFull { id } => write_full(out, *id),
        NoteRefusal::NotesArea { area } => write_area(out, *area),
    }
}

/// An error that names a note.
fn write_named(out: &mut Writer, error: &str, id: u64) -> Result<(), Memory>
    ensures { Sends result out.old out.new (tokens_of (record_of
        (field (codes "error") (string error.now) ∷ field (codes "id") (natural id) ∷ []))) }
{
    write_record(
        out,
        &[
            ("error", FieldValue::Text(error)),
            ("id", FieldValue::Natural(id)),
        ],
    )?;
    Ok(())
}

#[tactic(auto, unfolding(crate::specs::Shown::refusal_data))]
fn write_full(out: &mut Writer, id: u64) -> Result<(), Memory>
    ensures { Sends result out.old out.new (tokens_of (refusal_data (NoteRefusal.NoteFull id))) }
{
    write_record(
        out,
        &[
            ("error", FieldValue::Text("note_full")),
            ("id", FieldValue::Natural(id)),
            ("limit", FieldValue::Natural(COMMENT_LIMIT as u64)),
        ],
    )?;
    Ok(())
}

#[tactic(auto, unfolding(crate::specs::Shown::refusal_data))]
fn write_area(out: &mut Writer, area: u64) -> Result<(), Memory>
    ensures { Sends result out.old out.new (tokens_of (refusal_data (NoteRefusal.NotesArea area))) }
{
    write_record(
        out,
        &[
            ("area", FieldValue::Natural(area)),
            ("error", FieldValue::Text("notes_area")),
            ("limit", FieldValue::Natural(NOTES_AREA_LIMIT)),
        ],
    )?;
    Ok(())
}
