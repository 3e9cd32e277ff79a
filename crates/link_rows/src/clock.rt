//! When the clock is read.
use crate::desks::MomentDesk;
use crate::link_of;
use http_link::{LinkEnd, serve_desk};
use osm_base::{BODY_LIMIT, Memory};
use osm_outside::{Clock, Failed, Link, MemLink, Outside, Sink, Source, Trace, Witness};
use receipts::Receipt;
use shared_front::{FoundFront, Front, HubName};
use std::alloc::Global;

/// A link whose clock says how many reads there were.
#[derive(Drop)]
struct CountedLink {
    link: MemLink,
    reads: u64,
    fixed: Option<u64>,
    trace: Trace,
}

impl Outside for CountedLink {
    ghost use Rattle.osm_outside.specs.Memory.{told_of};

    ghost told = { λ l. record (told_of l.link) { trace = l.trace.events; fixed = l.fixed } };
}

impl Source for CountedLink {
    fn read(&mut self, into: &mut [u8]) -> Result<usize, Failed> {
        self.reads = self.reads.saturating_add(1);
        let count = self.link.read(into)?;
        self.trace = self.trace.gave(into, count);
        Ok(count)
    }
}

impl Sink for CountedLink {
    fn write(&mut self, piece: &[u8]) -> Result<usize, Failed> {
        let count = self.link.write(piece)?;
        self.trace = self.trace.took(piece, count);
        Ok(count)
    }
}

impl Clock for CountedLink {
    fn now(&mut self) -> u64 {
        let moment = self.fixed.unwrap_or(self.reads);
        self.trace = self.trace.answered(moment);
        moment
    }

    fn fix(&mut self, seconds: u64) {
        self.fixed = Some(seconds);
    }
}

impl Witness for CountedLink {
    fn learn<N: HubName, E>(&mut self, found: FoundFront<N, E>) {
        self.trace = self.trace.found(&found);
    }

    fn show<K: HubName>(&mut self, receipts: &Front<K, Receipt>) {
        self.trace = self.trace.shown(receipts);
    }
}

impl Link for CountedLink {}

/// A link with this input, in pieces of that size.
fn counted(alloc: Global, input: &[u8], cut: usize) -> Result<CountedLink, Memory> {
    Ok(CountedLink {
        link: link_of(alloc, input, cut)?,
        reads: 0,
        fixed: None,
        trace: Trace::new(),
    })
}

const REPLY: &[u8] =
    b"HTTP/1.1 200 OK\r\nContent-Type: application/json\r\nContent-Length: 1\r\n\r\n3";

pub fn the_clock_is_read_after_the_last_byte(alloc: Global) -> Result<bool, Memory> {
    let mut link = counted(alloc, b"GET / HTTP/1.1\r\n\r\n", 6)?;
    let end = serve_desk(alloc, &mut MomentDesk, &mut link, BODY_LIMIT);
    Ok(end == LinkEnd::Ended && link.link.written() == REPLY)
}
