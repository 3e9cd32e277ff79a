//! Single messages and replies.
use crate::memory_link;
use http_wire::{Message, Wire, WireEnd, write_reply};
use osm_base::{BODY_LIMIT, Bytes, Memory};
use osm_outside::MemLink;
use row_lines::Tally;
use std::alloc::Global;

/// A link with this input, which comes in pieces of at most three bytes at first.
fn slow_link(alloc: Global, input: &[u8]) -> Result<MemLink, Memory> {
    let cuts = Vec::from_elem(alloc, 3, 4)?;
    memory_link(alloc, input, cuts, 200)
}

fn first_of(alloc: Global, link: &mut MemLink) -> Result<Message, WireEnd> {
    let mut wire = Wire::new(alloc, BODY_LIMIT)?;
    wire.read_message(alloc, link)
}

/// The first message of the input, or the end that stands in its place.
fn first_message(alloc: Global, input: &[u8]) -> Result<Message, WireEnd> {
    let mut link = slow_link(alloc, input)?;
    first_of(alloc, &mut link)
}

fn a_message_is_read(alloc: Global) -> bool {
    let input = b"\r\nPUT /a HTTP/1.1\r\nConnection: x, Close\r\nContent-Length: 02\r\n\r\nhere";
    match first_message(alloc, input) {
        Ok(message) => message.body.as_slice() == b"he".as_slice() && message.close,
        Err(_) => false,
    }
}

fn huge_lengths_that_differ_are_bad(alloc: Global) -> bool {
    let input =
        b"PUT / HTTP/1.1\r\nContent-Length: 99999999999999999999\r\nContent-Length: 99999999999999999998\r\n\r\n";
    match first_message(alloc, input) {
        Ok(_) => false,
        Err(why) => why == WireEnd::BadLength,
    }
}

const REPLY: &[u8] =
    b"HTTP/1.1 404 Not Found\r\nContent-Type: application/json\r\nContent-Length: 2\r\nConnection: close\r\n\r\n{}";

fn takes_a_reply(alloc: Global, link: &mut MemLink) -> bool {
    write_reply(alloc, link, 404, b"{}", true).is_ok() && link.written() == REPLY
}

fn a_reply_is_written(alloc: Global) -> Result<bool, Memory> {
    let mut link = slow_link(alloc, b"")?;
    Ok(takes_a_reply(alloc, &mut link))
}

/// Whether a reply with a body of so many bytes is written on a link whose second write fails.
fn goes_out_at_once(alloc: Global, size: usize) -> Result<bool, Memory> {
    let body = Vec::from_elem(alloc, b' ', size)?;
    let bad_writes = Vec::from_slice(alloc, &[1])?;
    let mut link = MemLink::new(
        alloc,
        Bytes::of(alloc, b"")?,
        Vec::new(alloc),
        Vec::new(alloc),
        Vec::new(alloc),
        bad_writes,
        1_100_000,
    )?;
    Ok(write_reply(alloc, &mut link, 200, body.as_slice(), false).is_ok())
}

/// Head and body up to a megabyte go out in one write. The head has 76 bytes where the length has seven digits.
fn a_reply_up_to_a_megabyte_is_one_write(alloc: Global) -> Result<bool, Memory> {
    Ok(
        goes_out_at_once(alloc, 1_000)?
            && goes_out_at_once(alloc, 16_384)?
            && goes_out_at_once(alloc, 1_048_500)?
            && !goes_out_at_once(alloc, 1_048_501)?,
    )
}

pub fn play<R: Print>(rt: &R, alloc: Global, tally: &mut Tally) {
    tally.note(rt, "a message is read", Ok(a_message_is_read(alloc)));
    tally.note(
        rt,
        "huge lengths that differ are bad",
        Ok(huge_lengths_that_differ_are_bad(alloc)),
    );
    tally.note(rt, "a reply is written", a_reply_is_written(alloc));
    tally.note(
        rt,
        "a reply up to a megabyte is one write",
        a_reply_up_to_a_megabyte_is_one_write(alloc),
    );
}
