//! A read-only mirror: what a message asks of it, what it answers, and a desk over one follower of
//! the server's journal.
//!
//! The reads of a mirror are the server's own functions, over the book that its follower keeps.
//!
//! What a mirror tells of pieces stands in its own definition, beside the answers of the map,
//! which no mirror widens.
#![tactic(auto)]

mod answers;
mod desk;
mod law;
mod level;
mod lines;
mod pieces;
mod replies;
mod requests;
mod setting;

pub use answers::answer_mirrored;
pub use desk::MirrorDesk;
pub use law::{links_follow_journals, mirror_serves};
pub use level::Level;
pub use setting::MirrorSetting;
