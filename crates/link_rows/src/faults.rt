//! Links whose input ends early, and whose reads or writes fail: what was answered before, and how each ends.
use crate::desks::LengthDesk;
use http_link::{LinkEnd, serve_desk};
use http_wire::WireEnd;
use osm_base::{BODY_LIMIT, Bytes, Memory};
use osm_outside::{BadSink, MemLink};
use row_lines::Tally;
use std::alloc::Global;

/// Three requests of nineteen bytes each.
const INPUT: &[u8] = b"GET /a HTTP/1.1\r\n\r\nGET /b HTTP/1.1\r\n\r\nGET /c HTTP/1.1\r\n\r\n";

const REQUEST: usize = 19;

const REPLY: &[u8] =
    b"HTTP/1.1 200 OK\r\nContent-Type: application/json\r\nContent-Length: 1\r\n\r\n0";

/// How many bytes a read gives.
const CUT: usize = 7;

/// Whether so many replies were written, and nothing else.
fn are_replies(written: &[u8], count: usize) -> bool {
    written.len() == REPLY.len().saturating_mul(count)
        && written.chunks(REPLY.len()).all(|reply| reply == REPLY)
}

/// A link with so much of the input, whose reads and writes with these numbers fail.
fn link(
    alloc: Global,
    input: &[u8],
    bad_reads: Vec<u64>,
    bad_writes: Vec<u64>,
) -> Result<MemLink, Memory> {
    MemLink::new(
        alloc,
        Bytes::of(alloc, input)?,
        Vec::from_elem(alloc, CUT, INPUT.len())?,
        Vec::new(alloc),
        bad_reads,
        bad_writes,
        1_000,
    )
}

/// Whether the link comes to that end with so many replies.
fn comes(alloc: Global, mut link: MemLink, replies: usize, wanted: LinkEnd) -> bool {
    let end = serve_desk(alloc, &mut LengthDesk, &mut link, BODY_LIMIT);
    end == wanted && are_replies(link.written(), replies)
}

fn input_ends_after_each_byte(alloc: Global) -> Result<bool, Memory> {
    for count in 0..=INPUT.len() {
        let wanted = if count % REQUEST == 0 {
            LinkEnd::Ended
        } else {
            LinkEnd::Refused(WireEnd::Truncated)
        };
        let cut = link(alloc, &INPUT[..count], Vec::new(alloc), Vec::new(alloc))?;
        if !comes(alloc, cut, count / REQUEST, wanted) {
            return Ok(false);
        }
    }
    Ok(true)
}

/// The read of that number fails: so many of its forerunners gave seven bytes.
fn each_read_fails_in_turn(alloc: Global) -> Result<bool, Memory> {
    for bad in 0..10_usize {
        let bad_reads = Vec::from_slice(alloc, &[bad as u64])?;
        let broken = link(alloc, INPUT, bad_reads, Vec::new(alloc))?;
        if !comes(
            alloc,
            broken,
            (bad * CUT).min(INPUT.len()) / REQUEST,
            LinkEnd::ReadFault,
        ) {
            return Ok(false);
        }
    }
    Ok(true)
}

fn each_write_fails_in_turn(alloc: Global) -> Result<bool, Memory> {
    for bad in 0..3_usize {
        let bad_writes = Vec::from_slice(alloc, &[bad as u64])?;
        let broken = link(alloc, INPUT, Vec::new(alloc), bad_writes)?;
        if !comes(alloc, broken, bad, LinkEnd::WriteFault) {
            return Ok(false);
        }
    }
    Ok(true)
}

fn a_write_that_takes_nothing_ends_the_link(alloc: Global) -> Result<bool, Memory> {
    for empty in 0..3_usize {
        let whole = link(alloc, INPUT, Vec::new(alloc), Vec::new(alloc))?;
        let mut bad = BadSink::new(whole, empty as u64);
        let end = serve_desk(alloc, &mut LengthDesk, &mut bad, BODY_LIMIT);
        if end != LinkEnd::WriteFault || !are_replies(bad.inner().written(), empty) {
            return Ok(false);
        }
    }
    Ok(true)
}

pub fn play<R: Print>(rt: &R, alloc: Global, tally: &mut Tally) {
    tally.note(
        rt,
        "input ends after each byte",
        input_ends_after_each_byte(alloc),
    );
    tally.note(
        rt,
        "each read fails in turn",
        each_read_fails_in_turn(alloc),
    );
    tally.note(
        rt,
        "each write fails in turn",
        each_write_fails_in_turn(alloc),
    );
    tally.note(
        rt,
        "a write that takes nothing ends the link",
        a_write_that_takes_nothing_ends_the_link(alloc),
    );
}
