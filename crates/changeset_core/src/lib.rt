//! One changeset (OpenStreetMap wiki, "Changesets"): its record, the box of what it touched, and
//! when it is open. `ChangesetRecord` is the plain record, `Changeset` one that takes memory ahead
//! of its work. Redactions, which are made and numbered in the same way, stand beside it.
#![tactic(auto)]

mod areas;
mod changesets;
mod law;
mod lives;
mod places;
mod records;
mod redactions;
mod touched;
mod works;

pub use areas::{first_limit, join_boxes, past_limit};
pub use changesets::Changeset;
pub use law::{boxes_are_joined, ends_are_bounded, records_stay_timely};
pub use places::Places;
pub use records::{ChangesetRecord, Work};
pub use redactions::Redactions;
pub use touched::touched_area;
