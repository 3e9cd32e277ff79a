//! What the players of rows share. The language of rows: how their lines are written, and which bytes a
//! line's request and reply have. And how many rows were tried, and how many of them were wrong. Test
//! programs alone stand on this crate. docs/ROWS.md has the format.
#![tactic(auto)]

mod escapes;
mod faults;
mod lines;
mod tally;
mod wire;

pub use escapes::add_unescaped;
pub use faults::RowFault;
pub use lines::{add_marked, add_numbered, add_written_out, number, word_of};
pub use tally::Tally;
pub use wire::{add_reply, add_request};
