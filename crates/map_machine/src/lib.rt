//! The map as a machine: how a user's command is planned, judged, settled and kept as an entry, and how a query is
//! answered in bytes; and a book of it, as the keeper of entries that were made before. What asks these things, and
//! how their answers are told, is no part of it.
#![tactic(auto)]

mod acceptance;
mod answers;
mod books;
mod copied;
mod found;
mod judging;
mod keeper;
mod law;
mod machine;
mod planning;
mod plans;
mod world_asks;
mod world_rows;

pub use books::{book_law, next_call};
pub use found::Found;
pub use keeper::BookKeeper;
pub use law::{commits_are_the_maps, fronts_are_the_maps, journals_are_the_maps};
pub use machine::{MapMachine, MapWorld};
pub use plans::{Asked, MapPlan};
pub use world_asks::world_ask;
