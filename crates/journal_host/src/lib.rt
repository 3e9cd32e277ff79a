//! What gives the files of journals and takes them back: what it owes, and one whose files are in
//! memory.
#![tactic(auto)]

mod journals;
mod memory;
mod trace;

pub use journal_file::{Device, DiskFault};
pub use journals::Journals;
pub use memory::MemJournals;
pub use trace::JournalTrace;
