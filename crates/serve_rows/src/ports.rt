//! Ports in memory.
use crate::texts::MOMENT;
use osm_base::{Bytes, Memory};
use osm_outside::{MemLink, MemPort};
use std::alloc::Global;

/// The room of a link for what is written, in bytes.
const ROOM: usize = 1_000;

/// A link that sends these texts, in pieces of seven bytes at first.
fn link(alloc: Global, sent: &[&str]) -> Result<MemLink, Memory> {
    let mut input = Vec::new(alloc);
    for text in sent {
        input.extend_from_slice(text.as_bytes())?;
    }
    MemLink::new(
        alloc,
        Bytes::from_vec(input),
        Vec::from_elem(alloc, 7, 5)?,
        Vec::from_elem(alloc, MOMENT, 1)?,
        Vec::new(alloc),
        Vec::new(alloc),
        ROOM,
    )
}

/// A port with so many links that send these texts, whose accepts with these numbers fail.
pub fn port(
    alloc: Global,
    links: usize,
    sent: &[&str],
    bad_accepts: &[u64],
) -> Result<MemPort, Memory> {
    let mut all = Vec::new(alloc);
    for _ in 0..links {
        all.push(link(alloc, sent)?)?;
    }
    MemPort::new(alloc, all, bad_accepts.to_vec(alloc)?)
}
