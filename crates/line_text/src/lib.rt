//! The lines of a text, each ended by byte 10: where a text is cut into them, and why bytes are no
//! line.
#![tactic(auto)]

mod cutting;
mod faults;

pub use cutting::cut_behind;
pub use faults::LineFault;
