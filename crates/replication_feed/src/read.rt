//! The piece of a text.
//!
//! A piece of the feed is read from both ends. What stands round its line and its number is fixed,
//! so the line is what is left between, and `read_entry` tells whether it is one: the piece isn't
//! written again. Its number is the digits at the end, and they must be those that are written of
//! their value, so that a piece has one text.
ghost use Rattle.std.specs.Prelude.{◌≡◌, ℕ, ◌≤◌, ◌<◌, ◌^◌, ◌++◌, List, true, IfOk, IfSome, MatchOption};
ghost use Rattle.std.specs.List.{list_all};
ghost use Rattle.std.specs.Char.{is_ascii_digit};
ghost use Rattle.replication_feed.specs.Piece.{IsPieceText, IsPieceRead};
ghost use Rattle.replication_feed.specs.Text.{beginning, middle, ending, numbered};
ghost use Rattle.replication_feed.specs.declared.pieces.Piece.{Piece};

use crate::faults::PieceFault;
use crate::numerals::{read_number, split_digits};
use crate::pieces::{BEGINNING, ENDING, MIDDLE, Piece};
use journal_text::read_entry;
use line_text::LineFault;
use std::alloc::Global;

/// The piece whose text this is, byte for byte: `NotPiece` exactly where it isn't the text of any
/// piece whose number is 1 at least.
pub fn read_piece(alloc: Global, text: &[u8]) -> Result<Piece, PieceFault>
    ensures text { IfOk result (λ p. IsPieceText text.now p) }
    ensures all { (p : Piece) → IsPieceText text.now p → IsPieceRead result p }
{
    let Some((line, number)) = line_and_number(text) else {
        return Err(PieceFault::NotPiece);
    };
    match read_entry(alloc, line) {
        Ok(entry) => Ok(Piece { number, entry }),
        Err(LineFault::NotLine) => Err(PieceFault::NotPiece),
        Err(LineFault::Memory) => Err(PieceFault::Memory),
    }
}

/// What stands where a piece's text has the line, and the number behind it.
fn line_and_number(text: &[u8]) -> Option<(&[u8], u64)>
    ensures some { IfSome result (λ p. (1 ≤ p.1) × (text.now ≡ numbered p.0.now p.1)) }
    ensures all { (line : List ℕ) (n : ℕ) → 1 ≤ n → n < 2 ^ 64 → text.now ≡ numbered line n
        → MatchOption result ⊥ (λ p. (p.0.now ≡ line) × (p.1 ≡ n)) }
{
    let inner = inside(text)?;
    let (line, digits) = line_and_digits(inner)?;
    let number = read_number(digits)?;
    Some((line, number))
}

/// What stands between the beginning and the ending of a piece's text.
fn inside(text: &[u8]) -> Option<&[u8]>
    ensures some { IfSome result (λ inner. text.now ≡ beginning ++ inner.now ++ ending) }
    ensures all { (inner : List ℕ) → text.now ≡ beginning ++ inner ++ ending → MatchOption result ⊥ (λ found. found.now ≡ inner) }
{
    let rest = text.strip_suffix(ENDING)?;
    rest.strip_prefix(BEGINNING)
}

/// What stands before the name of the number, and the digits at the end.
fn line_and_digits(inner: &[u8]) -> Option<(&[u8], &[u8])>
    ensures some { IfSome result (λ p. inner.now ≡ p.0.now ++ middle ++ p.1.now) }
    ensures all { (line digits : List ℕ) → list_all is_ascii_digit digits ≡ true → inner.now ≡ line ++ middle ++ digits
        → MatchOption result ⊥ (λ p. (p.0.now ≡ line) × (p.1.now ≡ digits)) }
{
    let (front, digits) = split_digits(inner);
    let line = front.strip_suffix(MIDDLE)?;
    Some((line, digits))
}
