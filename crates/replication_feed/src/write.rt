//! The text of a piece.
ghost use Rattle.std.specs.Prelude.{◌≡◌, ◌≤◌, ◌++◌, decimal, IfOk, OnOk};
ghost use Rattle.replication_feed.specs.Text.{numbered, text_of};
ghost use Rattle.replication_feed.specs.Piece.{piece, IsPiece};

use crate::pieces::{BEGINNING, ENDING, MIDDLE, Piece};
use itoa::Buffer;
use journal_text::entry_line;
use osm_base::{Bytes, Memory};
use osm_model::Entry;
use std::alloc::Global;

/// The text of a piece: compact JSON, the members in the byte order of their names. Where the number
/// is 1 at least, `read_piece` reads the piece from it.
pub fn piece_text(alloc: Global, piece: &Piece) -> Result<Bytes, Memory>
    ensures text { IfOk result (λ bytes. bytes ≡ text_of piece.now) }
    ensures typed { OnOk result (1 ≤ piece.now.number → IsPiece piece.now) }
{
    entry_text(alloc, piece.number, &piece.entry)
}

/// The text of the piece that has this number and this entry, which is borrowed.
pub fn entry_text(alloc: Global, number: u64, entry: &Entry) -> Result<Bytes, Memory>
    ensures text { IfOk result (λ bytes. bytes ≡ text_of (piece number entry.now)) }
    ensures typed { OnOk result (1 ≤ number → IsPiece (piece number entry.now)) }
{
    let line = entry_line(alloc, entry)?;
    let text = numbered(alloc, line.as_slice(), number)?;
    Ok(Bytes::from_vec(text))
}

/// The text of the piece with this line and this number, in a list of its very length.
fn numbered(alloc: Global, line: &[u8], number: u64) -> Result<Vec<u8>, Memory>
    ensures { IfOk result (λ text. text.items ≡ numbered line.now number) }
{
    let mut digits = Buffer::new();
    let number = digits.format(number).as_bytes();
    let around = BEGINNING.len() + MIDDLE.len() + ENDING.len();
    let mut text = Vec::with_capacity(alloc, around + line.len() + number.len())?;
    text.extend_from_slice(BEGINNING)?;
    text.extend_from_slice(line)?;
    text.extend_from_slice(MIDDLE)?;
    text.extend_from_slice(number)?;
    text.extend_from_slice(ENDING)?;
    Ok(text)
}
