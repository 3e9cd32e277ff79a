//! Why a text has no piece.

/// Why a text has no piece.
#[derive(Clone, Copy, PartialEq, Eq)]
pub enum PieceFault {
    /// It isn't the text of any piece whose number is 1 at least.
    NotPiece,
    Memory,
}
