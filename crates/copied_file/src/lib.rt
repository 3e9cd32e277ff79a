//! A file of the system and its copy, which a keeper holds on another machine: each call asks both, and
//! none succeeds where either failed. So what is told behind a sync is on two machines.
//!
//! By its contract a crash at any moment, of this machine or of both, leaves of the file and of the copy
//! alike what a device owes. What the keeper does with what it is sent is trusted, as the system's calls are.
//!
//! The server sends `hegunsap-copy-1` and a line's end, the count of the bytes that the file has, and
//! those bytes, and then its calls: `W`, the place, the count and the bytes of a write; `Z`, the end and
//! the count of zeros that are laid by there; `C` and the length of a cut. Each number takes 8 bytes, the highest
//! first. The keeper answers each, and the first bytes too, by `+` once it is on its disk, and by `-` where it
//! isn't, and closes then.
#![tactic(auto)]

mod copied;
mod keeper;
mod trace;

pub use copied::CopiedFile;
pub use keeper::{CopyFault, CopyLink};
