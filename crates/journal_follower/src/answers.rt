//! What a follower says of a piece.

/// What a follower says of a piece. Only a folded one changes what it keeps.
#[derive(Clone, Copy, PartialEq, Eq)]
pub enum Taken {
    /// The piece was the next one, and its entry is kept.
    Folded,
    /// This very entry is kept in its place.
    Old,
    /// Another entry is kept in its place: the piece is of another journal.
    Differs,
    /// Pieces before it are lacking.
    Gap {
        /// The number of the piece that comes next.
        next: u64,
    },
    /// It would come next, but the journal with its entry isn't legal.
    Illegal,
}
