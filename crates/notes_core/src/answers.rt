//! The bytes of answers: the two of the status, high byte first, and then the body.
ghost use Rattle.std.specs.Prelude.{◌≡◌, ◌/◌, ◌%◌, ◌∷◌, [], ◌++◌, IfOk, IsOk, codes, flat_map, option_copied};
ghost use Rattle.std.specs.Option.{ForSome};
ghost use Rattle.osm_json.specs.Sent.{Sends, tokens_of};
ghost use Rattle.osm_json.specs.Shown.{document, list_of};
ghost use Rattle.notes_core.specs.Act.{judge, commented, comment_of};
ghost use Rattle.notes_core.specs.Search.{numbered};
ghost use Rattle.notes_core.specs.Sent.{said_before, said_by, note_with, HasTimelyEnd};
ghost use Rattle.notes_core.specs.Shown.{note_data, row_data, refusal_status, refusal_bytes, note_bytes, notes_bytes, effect_bytes};
ghost use Rattle.notes_core.specs.World.{state_of, IsTimelyMoment};

use crate::commands::{NoteEntry, NoteSubject};
use crate::kept::{KeptNote, closed_by};
use crate::notes::NoteRefusal;
use crate::send::{Head, write_note, write_refusal, write_version};
use crate::worlds::NotesWorld;
use json::Writer;
use osm_base::{Bytes, Memory};
use std::alloc::Global;

/// The two bytes of a status.
fn status_bytes(alloc: Global, status: u16) -> Result<Vec<u8>, Memory>
    ensures { IfOk result (λ bytes. bytes.items ≡ (status / 256) ∷ (status % 256) ∷ []) }
{
    let mut bytes = Vec::with_capacity(alloc, 256)?;
    bytes.push((status / 256) as u8)?;
    bytes.push((status % 256) as u8)?;
    Ok(bytes)
}

fn status_of(refusal: &NoteRefusal) -> u16
    ensures { result ≡ refusal_status refusal.now }
{
    match refusal {
        NoteRefusal::NoNote { .. } => 404,
        NoteRefusal::NoteClosed { .. }
        | NoteRefusal::NoteOpen { .. }
        | NoteRefusal::NoteFull { .. } => 409,
        NoteRefusal::NotesArea { .. } => 400,
    }
}

/// The bytes of a refusal.
pub(crate) fn refusal_answer(alloc: Global, refusal: &NoteRefusal) -> Result<Bytes, Memory>
    requires { HasTimelyEnd refusal.now }
    ensures { IfOk result (λ bytes. bytes ≡ refusal_bytes refusal.now) }
{
    let mut out = Writer::new(status_bytes(alloc, status_of(refusal))?);
    write_refusal(alloc, &mut out, refusal)?;
    Ok(Bytes::from_vec(out.into_inner()))
}

fn write_one(
    alloc: Global,
    out: &mut Writer,
    head: Head,
    before: Option<&KeptNote>,
    next: Option<&NoteEntry>,
) -> Result<(), Memory>
    requires created { IsTimelyMoment head.created }
    requires closed { ForSome head.closed IsTimelyMoment }
    requires next { ForSome (option_copied next) (λ e. IsTimelyMoment e.stamp) }
    ensures { Sends result out.old out.new (tokens_of (document (codes "note") (note_data head.id
        (note_with head.at head.created head.closed (said_before (option_copied before.entry) ++ said_by (option_copied next.entry)))))) }
{
    out.begin_object()?;
    out.key("note")?;
    write_note(alloc, out, head, before, next)?;
    write_version(out)?;
    out.end_object()?;
    Ok(())
}

/// The bytes of one note: with the comments that it has, and behind them the one that an entry makes.
fn note_answer(
    alloc: Global,
    head: Head,
    before: Option<&KeptNote>,
    next: Option<&NoteEntry>,
) -> Result<Bytes, Memory>
    requires created { IsTimelyMoment head.created }
    requires closed { ForSome head.closed IsTimelyMoment }
    requires next { ForSome (option_copied next) (λ e. IsTimelyMoment e.stamp) }
    ensures { IfOk result (λ bytes. bytes ≡ note_bytes head.id
        (note_with head.at head.created head.closed (said_before (option_copied before.entry) ++ said_by (option_copied next.entry)))) }
{
    let mut out = Writer::new(status_bytes(alloc, 200)?);
    write_one(alloc, &mut out, head, before, next)?;
    Ok(Bytes::from_vec(out.into_inner()))
}

fn head_of(id: u64, kept: &KeptNote) -> Head
    ensures id { result.id ≡ id }
    ensures at { result.at ≡ kept.now.note.at }
    ensures created { result.created ≡ kept.now.note.created }
    ensures closed { result.closed ≡ kept.now.note.closed }
    ensures timely { IsTimelyMoment result.created × ForSome result.closed IsTimelyMoment }
{
    Head {
        id,
        at: kept.at(),
        created: kept.created(),
        closed: kept.closed(),
    }
}

/// The bytes of a note as it is.
pub(crate) fn kept_answer(alloc: Global, id: u64, kept: &KeptNote) -> Result<Bytes, Memory>
    ensures { IfOk result (λ bytes. bytes ≡ note_bytes id kept.now.note) }
{
    note_answer(alloc, head_of(id, kept), Some(kept), None)
}

/// The bytes of the note that an accepted entry leaves. Nothing is changed, and of the note nothing
/// is copied.
pub(crate) fn entry_answer(
    alloc: Global,
    world: &NotesWorld,
    entry: &NoteEntry,
) -> Result<Bytes, Memory>
    requires accepted { IsOk (judge (state_of world.now) entry.now.caller entry.now.stamp entry.now.command) }
    requires timely { IsTimelyMoment entry.now.stamp }
    ensures { IfOk result (λ bytes. bytes ≡ effect_bytes (judge (state_of world.now) entry.now.caller entry.now.stamp entry.now.command)) }
{
    match entry.command.subject() {
        NoteSubject::New(at) => {
            let head = Head {
                id: world.next_number(),
                at,
                created: entry.stamp,
                closed: None,
            };
            note_answer(alloc, head, None, Some(entry))
        }
        NoteSubject::Known(id) => changed_answer(alloc, id, world.known_note(id), entry),
    }
}

/// The bytes of a note with the comment that an entry makes.
fn changed_answer(
    alloc: Global,
    id: u64,
    kept: &KeptNote,
    entry: &NoteEntry,
) -> Result<Bytes, Memory>
    requires { IsTimelyMoment entry.now.stamp }
    ensures { IfOk result (λ bytes. bytes ≡ note_bytes id
        (commented kept.now.note (comment_of entry.now.caller entry.now.stamp entry.now.command))) }
{
    let head = Head {
        id,
        at: kept.at(),
        created: kept.created(),
        closed: closed_by(entry.command.action(), entry.stamp),
    };
    note_answer(alloc, head, Some(kept), Some(entry))
}

fn write_whole(alloc: Global, out: &mut Writer, id: u64, kept: &KeptNote) -> Result<(), Memory>
    ensures { Sends result out.old out.new (tokens_of (note_data id kept.now.note)) }
{
    write_note(alloc, out, head_of(id, kept), Some(kept), None)
}

fn write_row(alloc: Global, out: &mut Writer, world: &NotesWorld, id: u64) -> Result<(), Memory>
    ensures { Sends result out.old out.new (flat_map (λ r. tokens_of (row_data r)) (numbered (state_of world.now) id)) }
{
    match world.note(id) {
        Some(kept) => write_whole(alloc, out, id, kept),
        None => Ok(()),
    }
}

fn write_rows(
    alloc: Global,
    out: &mut Writer,
    world: &NotesWorld,
    ids: &[u64],
) -> Result<(), Memory>
    ensures { Sends result out.old out.new (flat_map (λ id. flat_map (λ r. tokens_of (row_data r)) (numbered (state_of world.now) id)) ids.now) }
{
    for id in ids {
        write_row(alloc, out, world, *id)?;
    }
    Ok(())
}

fn write_list(
    alloc: Global,
    out: &mut Writer,
    world: &NotesWorld,
    ids: &[u64],
) -> Result<(), Memory>
    ensures { Sends result out.old out.new (tokens_of (document (codes "notes") (list_of row_data (flat_map (numbered (state_of world.now)) ids.now)))) }
{
    out.begin_object()?;
    out.key("notes")?;
    out.begin_array()?;
    write_rows(alloc, out, world, ids)?;
    out.end_array()?;
    write_version(out)?;
    out.end_object()?;
    Ok(())
}

/// The bytes of some notes, in this order.
pub(crate) fn list_answer(alloc: Global, world: &NotesWorld, ids: &[u64]) -> Result<Bytes, Memory>
    ensures { IfOk result (λ bytes. bytes ≡ notes_bytes (flat_map (numbered (state_of world.now)) ids.now)) }
{
    let mut out = Writer::new(status_bytes(alloc, 200)?);
    write_list(alloc, &mut out, world, ids)?;
    Ok(Bytes::from_vec(out.into_inner()))
}
