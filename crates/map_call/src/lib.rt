//! The map call on the indexed map (OpenStreetMap wiki, API v0.6, "Retrieving map data by bounding
//! box").
//!
//! A map call's relations are those that list something, not those that use it: the two differ
//! only at a relation that lists itself, and that one is selected by what else it lists.
//!
//! Counts of steps are told by contracts alone. A counter takes no bytes, and a program that could
//! read it would pay for it; so that a map call looks at few positions is a clause of `map`
//! (map_call), with `small_map_is_as_told` for a small map, and no row.
#![tactic(auto)]

mod calls;
mod law;
mod lists;
mod met;
mod within;

pub use calls::map;
pub use law::small_map_is_as_told;
pub use osm_change::{MapFault, Selection};
