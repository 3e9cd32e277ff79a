//! Reading elements by id on the indexed world (OpenStreetMap wiki, API v0.6, "Elements"). Rows are
//! keys with version numbers; nothing is copied from the map.
#![tactic(auto)]

mod elements;
mod in_full;
mod several;
mod users;

pub use elements::{history, one, version};
pub use in_full::full;
pub use osm_change::{ReadFault, VersionId};
pub use several::many;
pub use users::{relations_of, ways_of};
