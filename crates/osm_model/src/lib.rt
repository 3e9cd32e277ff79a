//! The rules of the map as definitions, the types that they name, and laws of the journals and maps
//! that they make.
//!
//! "Answered" speaks of answers, not of bytes. A row has the answer or none (want of memory); the
//! desk ties each answer to the bytes of its reply. So the definition stands with the map and
//! knows nothing of HTTP or JSON.
//!
//! A session's place counts its debts (commands whose publication found no memory) already, though
//! a desk on one thread has none: the shape is that of every later desk.
//!
//! A map accepts an entry by a truth value (`takes`), a list of entries is legal by recursion over
//! it, and the numbering of calls stands apart, since a book keeps the counts of sessions beside
//! its map.
#![tactic(auto)]

mod boxes;
mod commands;
mod faults;
mod law;
mod queries;
mod states;
mod uploads;

pub use boxes::box_allowed;
pub use commands::{Command, Entry};
pub use faults::Fault;
pub use law::{
    accepted_entries_are_taken, answers_have_moments, entries_keep_maps, later_maps_keep,
    moments_are_bounded, past_boxes_are_as_told, past_maps_are_replayed, past_reads_are_as_told,
    points_are_consistent, uploads_push_what_they_made, versions_are_attributed,
    versions_are_stamped_in_order,
};
pub use queries::Query;
pub use states::State;
pub use uploads::Progress;
