//! The map server whose journal is kept in a file, as what a program runs: the journal is taken up,
//! links are served on from there, and no reply is sent before the file holds what it tells of.
#![tactic(auto)]

mod desk;
mod ports;
mod server;

pub use desk::MapKeptDesk;
pub use server::run_serve_kept;
