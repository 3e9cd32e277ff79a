//! Reads of the map as it was at a stamp. Rows are keys with version numbers; nothing is copied from
//! the map.
#![tactic(auto)]

mod contents;
mod elements;
mod histories;
mod in_full;
mod maps;
mod walks;

pub use elements::one_at;
pub use in_full::full_at;
pub use maps::map_at;
pub use osm_change::{MapFault, ReadFault, VersionId};
