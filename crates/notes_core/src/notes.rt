//! Notes with their comments, and why a command or a query of them is refused.
//!
//! A note's author is kept with each comment, as id and name at that time, since notes have no
//! changeset that would say it. Moderators have no rights of their own: nothing of a note is
//! hidden.
use osm_base::{Coord, Items, Owner, Stamp, Text};

/// What a comment did to its note.
#[derive(Clone, Copy, PartialEq, Eq)]
pub enum NoteAction {
    Opened,
    Commented,
    Closed,
    Reopened,
}

/// What somebody said about a note, and did to it. `caller` is missing where the server didn't know
/// who it was.
#[derive(Drop)]
pub struct NoteComment {
    pub caller: Option<Owner>,
    pub stamp: Stamp,
    pub action: NoteAction,
    pub text: Text,
}

/// A note at a position, with its comments in the order in which they were made. It is closed where
/// `closed` has the stamp of that.
#[derive(Drop)]
pub struct Note {
    pub at: Coord,
    pub created: Stamp,
    pub closed: Option<Stamp>,
    pub comments: Items<NoteComment>,
}

/// All notes, and the stamp of the last entry. Note 1 is the first.
#[derive(Drop)]
pub struct Notes {
    pub notes: Items<Note>,
    pub last: Stamp,
}

/// Why a command or a query of notes is refused.
#[derive(Clone, Copy)]
pub enum NoteRefusal {
    /// There never was such a note.
    NoNote { id: u64 },
    /// A closed note takes no comment, and isn't closed again.
    NoteClosed { closed_at: Stamp, id: u64 },
    /// A note that is open isn't reopened.
    NoteOpen { id: u64 },
    /// A note of `COMMENT_LIMIT` comments takes no further one, but for one that closes it.
    NoteFull { id: u64 },
    /// The area of the box, in square units of 1e-7 degrees, is above `NOTES_AREA_LIMIT`.
    NotesArea { area: u64 },
}
