//! A journal's text read from a source piece by piece, its entries kept line by line.
//!
//! Lines are counted by whoever cuts them, so that a text can be read from a stream with room for
//! one line.
//!
//! Reading a text as it comes is a crate of its own, over any source and any keeper: the lines
//! behind the header are judged in the piece in which they were read, and only a line that a piece
//! cuts is copied. What it says of a text doesn't depend on the pieces.
//!
//! A file of a journal has its text before a closed gate, a byte `#` at a line's beginning, and is
//! read as that text.
#![tactic(auto)]

mod faults;
mod front;
mod gate;
mod input;
mod law;
mod lines;
mod pieces;
mod refusal;
mod rest;

pub use faults::InputFault;
pub use input::read_entries;
pub use law::kept_files_are_read;
