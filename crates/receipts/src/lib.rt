//! Receipts: that a file held so many entries at a moment, and for good.
#![tactic(auto)]

mod moment;
mod receipt;

pub use moment::Moment;
pub use receipt::Receipt;
