//! Rows of links: messages and replies, whole links in memory, and a link over streams. What each
//! must give stands beside it; docs/ROWS.md tells more.
#![tactic(auto)]

mod clock;
mod copies;
mod desks;
mod faults;
mod files;
mod held;
mod outside;
mod stream;
mod whole;
mod wire;

use osm_base::{Bytes, Memory};
use osm_outside::MemLink;
use row_lines::Tally;
use std::alloc::Global;
use std::io;
use std::process::ExitCode;

/// A link with this input, which comes in pieces of at most these sizes at first, and with room for
/// so many bytes of replies.
fn memory_link(
    alloc: Global,
    input: &[u8],
    cuts: Vec<usize>,
    room: usize,
) -> Result<MemLink, Memory> {
    let input = Bytes::of(alloc, input)?;
    MemLink::new(
        alloc,
        input,
        cuts,
        Vec::new(alloc),
        Vec::new(alloc),
        Vec::new(alloc),
        room,
    )
}

/// A link with this input in pieces of that size, and ample room.
fn link_of(alloc: Global, input: &[u8], cut: usize) -> Result<MemLink, Memory> {
    let cuts = Vec::from_elem(alloc, cut, input.len())?;
    memory_link(alloc, input, cuts, 100_000)
}

fn main(rt: HostRuntime) -> io::Result<ExitCode> {
    let alloc = rt.alloc();
    let mut tally = Tally::none();
    outside::play(&rt, alloc, &mut tally);
    wire::play(&rt, alloc, &mut tally);
    whole::play(&rt, alloc, &mut tally);
    faults::play(&rt, alloc, &mut tally);
    tally.note(
        &rt,
        "the clock is read after the last byte",
        clock::the_clock_is_read_after_the_last_byte(alloc),
    );
    tally.note(
        &rt,
        "each reply comes before the next request",
        held::each_reply_comes_before_the_next_request(alloc),
    );
    stream::play(rt, &mut tally);
    files::play(rt, &mut tally);
    copies::play(&rt, rt, &mut tally);
    tally.tell(&rt)?;
    if tally.is_right() {
        Ok(ExitCode::SUCCESS)
    } else {
        Ok(ExitCode::FAILURE)
    }
}
