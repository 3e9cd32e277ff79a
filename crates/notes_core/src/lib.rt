//! Notes that anybody leaves on the map (OpenStreetMap wiki, API v0.6, "Map notes API"), as a
//! machine of their own: opened, commented, closed and reopened, found by their place.
#![tactic(auto)]

mod answers;
mod commands;
mod kept;
mod limits;
mod machine;
mod notes;
mod search;
mod send;
mod worlds;

pub use commands::{NoteAsked, NoteCommand, NoteEntry, NoteLook, NotePlan, NoteQuery, NoteSubject};
pub use limits::{NOTES_AREA_LIMIT, NOTES_LIMIT};
pub use machine::NotesMachine;
pub use notes::{Note, NoteAction, NoteComment, NoteRefusal, Notes};
pub use worlds::NotesWorld;
