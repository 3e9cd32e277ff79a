//! Receipts of what a file holds.
use crate::moment::Moment;

/// That a file held so many entries at a moment, and for good.
#[derive(Drop)]
pub struct Receipt {
    pub count: u64,
    pub moment: Moment,
}
