//! The map with its indexes: entries are applied to it without memory, after room was made.
//!
//! What the map's rules call consistent is all that maps keep (`IsKept` of osm_world): elements
//! that refer to visible ones, moments within the limit, versions with their changesets. The two
//! laws that say so cite lemmas of osm_model's laws, since a law of a machine can call no
//! function.
#![tactic(auto)]

mod beds;
mod plans;
mod records;
mod stores;
mod uploads;
mod worlds;

pub use worlds::World;
