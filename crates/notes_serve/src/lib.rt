//! The server of notes: the standard link by the one session of a new hub, or the links of many
//! ports by as many workers.
#![tactic(auto)]

mod makers;
mod pipe;
mod server;
mod workers;

pub use pipe::serve_notes;
pub use server::{NotesServer, run_serve_notes};
pub use workers::notes_all;
