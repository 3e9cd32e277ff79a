//! The placeholders under which an upload creates elements (OpenStreetMap wiki, API v0.6,
//! "Diff upload").
//!
//! Placeholders are kept in one map for each kind, so that counting them takes constant time.
#![tactic(auto)]

mod maps;

pub use maps::PlaceholderMap;
