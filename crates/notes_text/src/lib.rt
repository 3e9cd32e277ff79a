//! The journal of notes as a text: a header, and a line of JSON for each entry.
//!
//! It has the form of the map's journal, with acts of its own.
#![tactic(auto)]

mod entries;
mod law;
mod line;
mod read;
mod texts;
mod typed;
mod units;
mod write;

pub use entries::read_entry;
pub use law::{lines_are_plain, lines_tell_entries};
pub use line::entry_line;
pub use texts::{HEADER, lines_behind};
