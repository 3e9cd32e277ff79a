//! A line that is a record of JSON: its members are read token by token, each by its name and in its
//! place, and what was written of it one after another is the record.
#![tactic(auto)]

mod read;

pub use read::{begin, end, heard, key, lent_text, natural, session};
