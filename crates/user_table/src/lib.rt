//! The users of the server, and who sent a request.
//!
//! The users text is read in its full form from the start, with comments, empty lines, names
//! beyond ASCII and the fault's line, since the crate stands where it will stay.
#![tactic(auto)]

mod drafts;
mod faults;
mod headers;
mod lines;
mod tables;

pub use faults::UsersFault;
pub use tables::{UserTable, Who};
