//! What stands at the front of bytes, and the bytes behind it.
ghost use Rattle.std.specs.Int.{w16, w32, w64};
ghost use Rattle.packed_entry.specs.Read.{Splits, byte_at, wide_at, number_by, number_at, text_of, text_at};

use crate::faults::Fault;
use std::str;

pub(crate) fn first_byte(bytes: &[u8]) -> Result<(u8, &[u8]), Fault>
    ensures { Splits (λ x. (x.0, x.1.now)) result (byte_at bytes.now) }
{
    match bytes {
        [] => Err(Fault::Malformed),
        [first, rest @ ..] => Ok((*first, rest)),
    }
}

fn two_bytes(bytes: &[u8]) -> Result<(u64, &[u8]), Fault>
    ensures { Splits (λ x. (x.0, x.1.now)) result (wide_at w16 bytes.now) }
{
    if bytes.len() < 2 {
        return Err(Fault::Malformed);
    }
    let (front, rest) = bytes.split_at(2);
    let number = u16::from_be_bytes([front[0], front[1]]);
    Ok((u64::from(number), rest))
}

fn four_bytes(bytes: &[u8]) -> Result<(u32, &[u8]), Fault>
    ensures { Splits (λ x. (x.0, x.1.now)) result (wide_at w32 bytes.now) }
{
    if bytes.len() < 4 {
        return Err(Fault::Malformed);
    }
    let (front, rest) = bytes.split_at(4);
    let number = u32::from_be_bytes([front[0], front[1], front[2], front[3]]);
    Ok((number, rest))
}

pub(crate) fn eight_bytes(bytes: &[u8]) -> Result<(u64, &[u8]), Fault>
    ensures { Splits (λ x. (x.0, x.1.now)) result (wide_at w64 bytes.now) }
{
    if bytes.len() < 8 {
        return Err(Fault::Malformed);
    }
    let (front, rest) = bytes.split_at(8);
    let number = u64::from_be_bytes([
        front[0], front[1], front[2], front[3], front[4], front[5], front[6], front[7],
    ]);
    Ok((number, rest))
}

/// The number that begins with this byte.
fn number_by(first: u8, rest: &[u8]) -> Result<(u64, &[u8]), Fault>
    ensures { Splits (λ x. (x.0, x.1.now)) result (number_by first rest.now) }
{
    if first < 248 {
        Ok((u64::from(first), rest))
    } else if first == 248 {
        two_bytes(rest)
    } else if first == 249 {
        let (number, rest) = four_bytes(rest)?;
        Ok((u64::from(number), rest))
    } else if first == 250 {
        eight_bytes(rest)
    } else {
        Err(Fault::Malformed)
    }
}

#[tactic(auto, unfolding(crate::specs::Read::number_at))]
pub(crate) fn first_number(bytes: &[u8]) -> Result<(u64, &[u8]), Fault>
    ensures { Splits (λ x. (x.0, x.1.now)) result (number_at bytes.now) }
{
    let (first, rest) = first_byte(bytes)?;
    number_by(first, rest)
}

/// So many bytes, where they are a text.
fn text_of(count: u64, bytes: &[u8]) -> Result<(&str, &[u8]), Fault>
    ensures { Splits (λ x. (x.0.now, x.1.now)) result (text_of count bytes.now) }
{
    let count = count as usize;
    if bytes.len() < count {
        return Err(Fault::Malformed);
    }
    let (front, rest) = bytes.split_at(count);
    match str::from_utf8(front) {
        Ok(text) => Ok((text, rest)),
        Err(_) => Err(Fault::Malformed),
    }
}

#[tactic(auto, unfolding(crate::specs::Read::text_at))]
pub(crate) fn first_text(bytes: &[u8]) -> Result<(&str, &[u8]), Fault>
    ensures { Splits (λ x. (x.0.now, x.1.now)) result (text_at bytes.now) }
{
    let (count, rest) = first_number(bytes)?;
    text_of(count, rest)
}
