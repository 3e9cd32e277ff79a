//! The file of the map's journal: how its entries are written, and how they are read again.
#![tactic(auto)]

mod keeping;
mod lines;
mod reading;

pub use keeping::keep_all;
pub use lines::EntryLines;
