//! What an accepted upload did, as the client is told (OpenStreetMap wiki, API v0.6,
//! "Diff upload").
#![tactic(auto)]

mod diff_rows;
mod keys;
mod law;

pub use diff_rows::rows;
pub use law::keys_are_counted;
