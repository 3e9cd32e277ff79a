//! Whether a text stands in a JSON string as it is (RFC 8259, section 7).
ghost use Rattle.std.specs.Prelude.{◌≡◌, ◌+◌, ◌≤◌, length};
ghost use Rattle.std.specs.Bool.{OnTrue};
ghost use Rattle.json.specs.Print.{escape};
ghost use Rattle.json.specs.Written.{PlainBetween};

use std::simd::prelude::*;

/// How many bytes are looked at together.
const LANES: usize = 8;

#[inline(always)]
fn are_plain(text: &[u8], at: usize) -> bool
    requires { at + 8 ≤ length text.now }
    ensures { OnTrue result (PlainBetween text.now at (at + 8)) }
{
    let bytes = u8x8::from_slice(&text[at..]);
    let quotes = bytes.simd_eq(u8x8::splat(b'"'));
    let backslashes = bytes.simd_eq(u8x8::splat(b'\\'));
    let controls = bytes.simd_lt(u8x8::splat(0x20));
    (quotes | backslashes | controls).to_bitmask() == 0
}

#[inline(always)]
fn few_are_plain(text: &[u8]) -> bool
    ensures { OnTrue result (PlainBetween text.now 0 (length text.now)) }
{
    for &byte in text {
        if byte == b'"' || byte == b'\\' || byte < 0x20 {
            return false;
        }
    }
    true
}

/// The last bytes are looked at together too, with some before them once more.
#[inline(always)]
fn many_are_plain(text: &[u8]) -> bool
    requires { 8 ≤ length text.now }
    ensures { OnTrue result (PlainBetween text.now 0 (length text.now)) }
{
    let last = text.len() - LANES;
    let mut at = 0;
    while at < last {
        if !are_plain(text, at) {
            return false;
        }
        at += LANES;
    }
    are_plain(text, last)
}

/// Whether nothing in the text needs an escape.
#[inline(always)]
pub(crate) fn is_plain(text: &[u8]) -> bool
    ensures { OnTrue result (escape text.now ≡ text.now) }
{
    if text.len() < LANES {
        few_are_plain(text)
    } else {
        many_are_plain(text)
    }
}
