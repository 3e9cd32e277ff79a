//! A note with room for its comments.
ghost use Rattle.std.specs.Prelude.{◌≡◌, ◌<◌, ◌∷◌, length, All, OnOk};
ghost use Rattle.std.specs.Option.{ForSome};
ghost use Rattle.notes_core.specs.Act.{opened, commented, closed_at};
ghost use Rattle.notes_core.specs.World.{IsTimelyComment, IsTimelyMoment};

use crate::notes::{NoteAction, NoteComment};
use osm_base::{Coord, Memory, Stamp};
use std::alloc::Global;
use std::marker::Model;

/// A note whose next comment needs no memory where `room` was taken for it. The comment that opened
/// it stands by itself, so that a new note takes none. Contracts see the note, and for how many
/// more comments there is room.
#[derive(Drop)]
pub struct KeptNote {
    at: Coord,
    closed: Option<Stamp>,
    first: NoteComment,
    later: Vec<NoteComment>,
}

impl Model for KeptNote {
    ghost use Rattle.std.specs.Prelude.{◌-◌, ◌∷◌, vec_len, vec_capacity, All};
    ghost use Rattle.std.specs.Option.{ForSome};
    ghost use Rattle.notes_core.specs.World.{Kept, IsTimelyMoment, IsTimelyComment};

    ghost Value = { Kept };

    ghost view = { λ k. record { note = record { at = k.at; created = k.first.stamp; closed = k.closed; comments = k.first ∷ k.later.items }; spare = vec_capacity k.later - vec_len k.later } };

    ghost invariant = { λ k. IsTimelyComment k.first × (ForSome k.closed IsTimelyMoment × All IsTimelyComment k.later.items) };
}

impl KeptNote {
    /// A note with the comment that opens it. It takes no memory.
    pub fn open(alloc: Global, at: Coord, first: NoteComment) -> KeptNote
        requires { IsTimelyComment first }
        ensures { result.note ≡ opened at first }
    {
        KeptNote {
            at,
            closed: None,
            first,
            later: Vec::new(alloc),
        }
    }

    /// Where it is.
    pub fn at(&self) -> Coord
        ensures { result ≡ self.now.note.at }
    {
        self.at
    }

    /// When it was opened.
    pub fn created(&self) -> Stamp
        ensures value { result ≡ self.now.note.created }
        ensures timely { IsTimelyMoment result }
    {
        self.first.stamp
    }

    /// When it was closed, where it is.
    pub fn closed(&self) -> Option<Stamp>
        ensures value { result ≡ self.now.note.closed }
        ensures timely { ForSome result IsTimelyMoment }
    {
        self.closed
    }

    /// The comment that opened it, and the later ones in order.
    pub fn comments(&self) -> (&NoteComment, &[NoteComment])
        ensures all { result.0.now ∷ result.1.now ≡ self.now.note.comments }
        ensures timely { IsTimelyComment result.0.now × All IsTimelyComment result.1.now }
    {
        (&self.first, self.later.as_slice())
    }

    /// How many comments it has, the one that opened it included.
    pub fn count(&self) -> u64
        ensures { result ≡ length self.now.note.comments }
    {
        self.later.len() as u64 + 1
    }

    /// Takes the memory of one more comment. `Memory` leaves the note as it was.
    pub fn room(&mut self) -> Result<(), Memory>
        ensures note { self.new.note ≡ self.old.note }
        ensures ok { OnOk result (0 < self.new.spare) }
    {
        self.later.reserve(1)?;
        Ok(())
    }

    /// Adds a comment, on the room that was taken for it: the note is closed after a closing one,
    /// and open after any other.
    pub fn add(&mut self, comment: NoteComment)
        requires room { 0 < self.old.spare }
        requires timely { IsTimelyComment comment }
        ensures { self.new.note ≡ commented self.old.note comment }
    {
        self.closed = closed_by(comment.action, comment.stamp);
        self.later.push_reserved(comment);
    }
}

/// When a note was closed, after a comment: a closing one closes it, and any other leaves it open.
pub(crate) fn closed_by(action: NoteAction, at: Stamp) -> Option<Stamp>
    ensures value { result ≡ closed_at action at }
    ensures timely { IsTimelyMoment at → ForSome result IsTimelyMoment }
{
    match action {
        NoteAction::Closed => Some(at),
        NoteAction::Opened | NoteAction::Commented | NoteAction::Reopened => None,
    }
}
