//! A note that has as many comments as it may have.
use notes_core::{NoteCommand, NoteEntry, NoteRefusal, NotesWorld};
use osm_base::{COMMENT_LIMIT, Coord, Memory, Text};
use std::alloc::Global;

/// What is done to the first note.
#[derive(Clone, Copy)]
enum Deed {
    Comment,
    Close,
    Reopen,
}

fn command(alloc: Global, deed: Deed) -> Result<NoteCommand, Memory> {
    let text = Text::of(alloc, "gate")?;
    Ok(match deed {
        Deed::Comment => NoteCommand::Comment { id: 1, text },
        Deed::Close => NoteCommand::CloseNote { id: 1, text },
        Deed::Reopen => NoteCommand::Reopen { id: 1, text },
    })
}

/// Does a command where it is accepted, and answers whether it was.
fn is_done(alloc: Global, world: &mut NotesWorld, command: NoteCommand) -> Result<bool, Memory> {
    let entry = NoteEntry {
        session: 0,
        call: 1,
        caller: None,
        stamp: world.last_stamp(),
        command,
    };
    if !world.takes(&entry) {
        return Ok(false);
    }
    world.make_room(alloc, &entry)?;
    world.apply(entry);
    Ok(true)
}

/// Whether it is refused since the first note is full.
fn is_full(alloc: Global, world: &NotesWorld, deed: Deed) -> Result<bool, Memory> {
    let command = command(alloc, deed)?;
    Ok(matches!(world.judge(&command), Err(NoteRefusal::NoteFull { id: 1 })))
}

/// Opens a note, and comments on it until it has that many comments. Each comment is accepted.
fn fill(alloc: Global, world: &mut NotesWorld, count: usize) -> Result<bool, Memory> {
    let Some(at) = Coord::new(1, 2) else {
        return Ok(false);
    };
    let text = Text::of(alloc, "gate")?;
    let mut is_right = is_done(alloc, world, NoteCommand::OpenNote { at, text })?;
    for _ in 1..count {
        is_right = is_done(alloc, world, command(alloc, Deed::Comment)?)? && is_right;
    }
    Ok(is_right && world.comments_of(1) == count as u64)
}

/// A full note takes no comment, is closed all the same, and then stays closed.
pub fn a_full_note(alloc: Global) -> Result<bool, Memory> {
    let mut world = NotesWorld::empty(alloc);
    let is_filled = fill(alloc, &mut world, COMMENT_LIMIT)?;
    let is_left = is_full(alloc, &world, Deed::Comment)?;
    let is_closed = is_done(alloc, &mut world, command(alloc, Deed::Close)?)?;
    let stays = is_full(alloc, &world, Deed::Reopen)?;
    Ok(is_filled && is_left && is_closed && stays && world.comments_of(1) == 10_001)
}

/// With one comment less a note takes one more, and one that was closed is opened again.
pub fn a_note_with_room(alloc: Global) -> Result<bool, Memory> {
    let mut world = NotesWorld::empty(alloc);
    let is_filled = fill(alloc, &mut world, 9_998)?;
    let is_closed = is_done(alloc, &mut world, command(alloc, Deed::Close)?)?;
    let is_opened = is_done(alloc, &mut world, command(alloc, Deed::Reopen)?)?;
    let is_left = is_full(alloc, &world, Deed::Comment)?;
    Ok(is_filled && is_closed && is_opened && is_left && world.comments_of(1) == 10_000)
}
