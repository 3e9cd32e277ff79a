//! What the file of a journal holds of a list of entries that only grows: every crash leaves a
//! beginning of that list, which has at least what was promised.
#![tactic(auto)]

mod board;
mod keeping;
mod laws;
mod shelf;
mod told;
mod writing;

pub use board::{Behind, Board, SourceFault, receipts_for};
pub use keeping::{KeepFault, keep};
pub use laws::lines_law;
pub use receipts::{Moment, Receipt};
pub use shelf::{Shelf, receipts_stay};
pub use told::Told;
pub use writing::Lines;
