//! The notes of a server, for its callers: a message as a request of notes, and a desk that answers
//! such requests over a hub (OpenStreetMap wiki, API v0.6, "Map notes API").
#![tactic(auto)]

mod bodies;
mod calls;
mod desk;
mod limits;
mod places;
mod requests;

pub use calls::{NoteCall, NoteEdit};
pub use desk::{NotesDesk, NotesHub, NotesSession};
pub use limits::NOTE_TEXT_LIMIT;
pub use requests::{NoteRequest, notes_request_of};
