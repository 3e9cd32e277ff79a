//! Entries of the journal in few bytes.
//!
//! An entry is one block of bytes without spare room. A number takes one byte, three, five or nine,
//! and a position eight. Nobody but this crate reads the bytes.
#![tactic(auto)]

mod commands;
mod contents;
mod entries;
mod faults;
mod fronts;
mod names;
mod numbers;
mod operations;
mod packed;
mod reader;
mod tags;
mod texts;

pub use packed::PackedEntry;
