//! What of a cell is asked for.

/// The nodes of now alone, or those with all that left.
#[derive(Clone, Copy)]
pub enum Part {
    Now,
    Ever,
}
