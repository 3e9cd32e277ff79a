//! Whether the indexed map is the plain one, part by part, and a map that takes a journal's entries
//! anew. Test programs alone stand on this crate.
#![tactic(auto)]

mod anew;
mod cells;
mod changesets;
mod compared;
mod histories;
mod maps;
mod same;
mod users;

pub use anew::difference_anew;
pub use compared::difference;
