//! Links and ports in memory, and what was written to them.
use osm_base::{Bytes, Memory};
use osm_outside::{MemLink, MemPort};
use std::alloc::Global;

/// Adds one.
pub const POST: &[u8] = b"POST / HTTP/1.1\r\nContent-Length: 0\r\n\r\n";

/// Asks how many there are.
pub const GET: &[u8] = b"GET / HTTP/1.1\r\n\r\n";

/// How long a reply with three digits is.
const REPLY: usize = 73;

/// A link that sends the request so many times.
fn link(alloc: Global, request: &[u8], requests: usize) -> Result<MemLink, Memory> {
    let mut input = Vec::new(alloc);
    for _ in 0..requests {
        input.extend_from_slice(request)?;
    }
    MemLink::new(
        alloc,
        Bytes::from_vec(input),
        Vec::from_elem(alloc, 7, 5)?,
        Vec::new(alloc),
        Vec::new(alloc),
        Vec::new(alloc),
        1_000,
    )
}

/// Many links alike.
#[derive(Clone, Copy)]
pub struct Links<'a> {
    pub count: usize,
    pub request: &'a [u8],
    /// How many requests each sends.
    pub requests: usize,
}

/// A port with these links, whose accepts with these numbers fail.
pub fn port_of(alloc: Global, links: Links<'_>, bad: &[u64]) -> Result<MemPort, Memory> {
    let mut all = Vec::new(alloc);
    for _ in 0..links.count {
        all.push(link(alloc, links.request, links.requests)?)?;
    }
    MemPort::new(alloc, all, bad.to_vec(alloc)?)
}

/// The number that a reply has, where its body is three digits.
fn number_of(reply: &[u8]) -> u64 {
    let mut number = 0_u64;
    for digit in reply.iter().rev().take(3).rev() {
        number = number
            .saturating_mul(10)
            .saturating_add(digit.saturating_sub(b'0') as u64);
    }
    number
}

/// The numbers of all replies on the links of a port, in order.
pub fn numbers_of(alloc: Global, port: &MemPort) -> Result<Vec<u64>, Memory> {
    let mut numbers = Vec::new(alloc);
    for link in port.served() {
        for reply in link.written().chunks(REPLY) {
            numbers.push(number_of(reply))?;
        }
    }
    Ok(numbers)
}
