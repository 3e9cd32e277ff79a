//! Files that no crash of ours leaves.
ghost use Rattle.std.specs.Prelude.{◌≡◌, ◌↔◌, ◌⊎◌, IsTrue};
ghost use Rattle.journal_file.specs.Settled.{BeginsOddly, HasMoreBehind, IsDamaged};

use crate::text::{are_zeros, begins_with, rest_of};

/// Whether what stands behind the text is none that a crash leaves: it begins with a byte that is no
/// room, no begun line and no older file's `#`, or a batch ends in it that isn't the last thing there.
/// No crash of `append` or `seal` leaves such a file, nor one of `open` where it found none, and to open
/// it would cut off what may be whole lines behind a damaged one.
pub fn is_damaged(file: &[u8]) -> bool
    ensures { IsTrue result ↔ IsDamaged file.now }
{
    let rest = rest_of(file);
    begins_oddly(rest) || has_more_behind(rest)
}

fn begins_oddly(rest: &[u8]) -> bool
    ensures { IsTrue result ↔ BeginsOddly rest.now }
{
    match rest.first() {
        Some(first) => *first != 0 && *first != b'{' && *first != b'#',
        None => false,
    }
}

/// Whether something is written behind the first two bytes 10 that stand side by side.
fn has_more_behind(rest: &[u8]) -> bool
    ensures { IsTrue result ↔ HasMoreBehind rest.now }
{
    let mut left = rest;
    'bytes: while !left.is_empty() {
        if begins_with(left, b"\n\n") {
            return !are_zeros(&left[2..]);
        }
        left = &left[1..];
    }
    false
}
