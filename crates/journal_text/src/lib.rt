//! The journal as a text, for audit and exchange: a header, and a line of JSON for each entry.
//!
//! The part of an upload goes through the code of requests: its blocks are read as a body's are,
//! and the change is built of them.
#![tactic(auto)]

mod entries;
mod faults;
mod journals;
mod keepers;
mod law;
mod limits;
mod line;
mod read;
mod typed;
mod versions;
mod write;

pub use entries::read_entry;
pub use faults::JournalFault;
pub use journals::{journal_text, lines_behind, read_line};
pub use keepers::Keeper;
pub use law::{legal_journals_grow, lines_are_plain, lines_are_read_in_turn, lines_tell_entries};
pub use limits::TEXT_LIMIT;
pub use line::entry_line;
pub use versions::{HEADER, Version, split_header};
