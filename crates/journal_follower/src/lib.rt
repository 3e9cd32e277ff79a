//! A follower of a journal's feed: it takes pieces in any order, with losses and repeats, and keeps a
//! beginning of the journal with its map.
#![tactic(auto)]

mod answers;
mod followers;
mod law;

pub use answers::Taken;
pub use followers::Follower;
pub use law::{answers_say_why, calls_append, feeds_are_followed};
