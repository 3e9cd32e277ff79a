//! A list that grows without moving what stands in it.
#![tactic(auto)]

mod segments;

pub use segments::Segments;
