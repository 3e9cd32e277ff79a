//! The elements with their indexes: who uses each of them, and where the visible nodes lie; and, for
//! reads of the past, who used each of them before, and where nodes ever lay. One version at a time
//! is added, without memory, on room that was promised before.
//!
//! The indexes of elements are one crate, kept in step by one call, `revise`; the world above adds
//! changesets, redactions and the last stamp.
#![tactic(auto)]

mod law;
mod maps;
mod moves;
mod promises;
mod usage;

pub use law::nodes_that_lay_there_are_placed;
pub use maps::IndexedMap;
