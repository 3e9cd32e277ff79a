//! The server of notes whose journal is kept in a file: how its entries are written there and read
//! again. Links are served by the sessions of a hub that goes on from that journal, and no reply is
//! sent before the file holds what it tells of.
#![tactic(auto)]

mod desk;
mod lines;
mod makers;
mod ports;
mod server;

pub use desk::NotesKeptDesk;
pub use ports::serve_kept_ports;
pub use server::run_serve_notes_kept;
