//! The journal of a machine, alone and beside the world after it, commits to it, and what any list
//! of events of its sessions gives.
#![tactic(auto)]

mod books;
mod counted;
mod dones;
mod entries;
mod events;
mod law;
mod list_outlet;
mod outlets;
mod running;

pub use books::Book;
pub use counted::CountedJournal;
pub use dones::{Done, Judged, Path};
pub use entries::Entries;
pub use events::{Event, Seen};
pub use law::core_law;
pub use list_outlet::ListOutlet;
pub use outlets::{LastOutlet, NoOutlet, Outlet};
pub use running::{Run, interleave};
