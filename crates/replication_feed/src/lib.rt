//! The journal as a feed: its entries as numbered pieces, which a consumer follows by their numbers.
//!
//! The feed's pieces stand on the journal's text and not on the indexed world: a piece needs no
//! map, and what pieces replay to is said by the definition of a replay.
#![tactic(auto)]

mod faults;
mod law;
mod numerals;
mod pieces;
mod read;
mod state;
mod write;

pub use faults::PieceFault;
pub use law::{pieces_replay, texts_tell_pieces};
pub use pieces::Piece;
pub use read::read_piece;
pub use state::state_text;
pub use write::{entry_text, piece_text};
