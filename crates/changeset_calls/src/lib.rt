//! Reading changesets on the indexed world (OpenStreetMap wiki, API v0.6, "Changesets").
//!
//! A changeset query looks at changesets from the newest down and ends at its hundredth row; rows
//! that are left out are looked at, and not made.
#![tactic(auto)]

mod faults;
mod filters;
mod rows;
mod works;

pub use faults::ChangesetFault;
pub use filters::query;
pub use rows::read;
pub use works::download;
