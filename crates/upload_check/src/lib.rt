//! Uploads on the map with its indexes, without a copy or a change of it (OpenStreetMap wiki, API
//! v0.6, "Diff upload"): judged once, when they are planned, and settled on a later map as long as
//! nothing that they looked at has changed.
//!
//! A command is judged at a stamp that the map gives: the stamp of a moment, or that of an entry
//! which may come next.
#![tactic(auto)]

mod acceptance;
mod boxes;
mod checks;
mod counts;
mod creations;
mod judged;
mod key_runs;
mod kind_standings;
mod law;
mod look_keys;
mod looks;
mod names;
mod older_standings;
mod overlays;
mod planning;
mod plans;
mod references;
mod settles;
mod shifts;
mod sights;
mod standings;
mod stills;
mod witnesses;

pub use acceptance::{UploadAt, accepts_upload};
pub use judged::{Judged, check_op};
pub use law::stills_tell_what_changed;
pub use osm_later::Look;
pub use overlays::Overlay;
pub use planning::{plan_again, plan_upload};
pub use plans::{Plan, UploadCmd};
pub use settles::{Outcome, SettledUpload, settle};
pub use stills::still;
