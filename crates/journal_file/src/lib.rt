//! The file in which a journal's text is kept: lines are on the disk before `append` answers, a crash
//! at any moment leaves the text and a beginning of the last call's lines, each whole or not there, and
//! opening finds it.
//!
//! A file is a header line, whole lines that each begin with `{`, with empty lines among them, and zeros,
//! which are laid by and synced before anything is written over them. The lines of a call and an empty one
//! behind them are a batch: one write and one sync. A write that a crash cuts short leaves at each place
//! the zero or the byte that was written, and a line with a zero in it doesn't count, nor what stands
//! behind it. Two bytes 10 stand side by side at the end of each batch and nowhere else. So where they
//! stand behind the text, and something is written behind them, no crash has left that: the file is damaged.
#![tactic(auto)]

mod chronicle;
mod damage;
mod device;
mod disk;
mod faults;
mod file;
mod laws;
mod memory;
mod text;
mod write;

pub use damage::is_damaged;
pub use device::{Device, DeviceFailed};
pub use disk::{DiskFault, DiskFile, create, open};
pub use faults::{AppendFault, OpenFault};
pub use file::JournalFile;
pub use laws::{batch_law, lost_bytes_are_told};
pub use memory::{Deed, MemFile};
pub use text::raw_text;
