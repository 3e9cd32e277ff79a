//! A client that sends a request only when the reply to the one before came whole.
use crate::desks::LengthDesk;
use crate::link_of;
use http_link::{LinkEnd, serve_desk};
use osm_base::{BODY_LIMIT, Memory};
use osm_outside::{Clock, Failed, Link, MemLink, Outside, Sink, Source, Witness};
use receipts::Receipt;
use shared_front::{FoundFront, Front, HubName};
use std::alloc::Global;

/// A link that gives one request a read, and fails where a read comes before so many bytes of replies were taken.
#[derive(Drop)]
struct HeldLink {
    link: MemLink,
    /// The length of each reply.
    reply: usize,
    reads: usize,
    faults: u64,
}

impl Outside for HeldLink {
    ghost use Rattle.osm_outside.specs.Memory.{told_of};

    ghost told = { λ l. record (told_of l.link) { read_faults = l.faults } };
}

impl Source for HeldLink {
    fn read(&mut self, into: &mut [u8]) -> Result<usize, Failed> {
        let due = self.reply.saturating_mul(self.reads);
        self.reads = self.reads.saturating_add(1);
        if self.link.written().len() == due {
            if let Ok(count) = self.link.read(into) {
                return Ok(count);
            }
        }
        self.faults = self.faults.saturating_add(1);
        Err(Failed)
    }
}

impl Sink for HeldLink {
    fn write(&mut self, piece: &[u8]) -> Result<usize, Failed> {
        self.link.write(piece)
    }
}

impl Clock for HeldLink {
    fn now(&mut self) -> u64 {
        self.link.now()
    }

    fn fix(&mut self, seconds: u64) {
        self.link.fix(seconds);
    }
}

impl Witness for HeldLink {
    fn learn<N: HubName, E>(&mut self, found: FoundFront<N, E>) {
        self.link.learn(found);
    }

    fn show<K: HubName>(&mut self, receipts: &Front<K, Receipt>) {
        self.link.show(receipts);
    }
}

impl Link for HeldLink {}

/// A client with this input, one request of that length after another, which waits for replies of 71 bytes.
fn held(alloc: Global, input: &[u8], request: usize) -> Result<HeldLink, Memory> {
    Ok(HeldLink {
        link: link_of(alloc, input, request)?,
        reply: 71,
        reads: 0,
        faults: 0,
    })
}

pub fn each_reply_comes_before_the_next_request(alloc: Global) -> Result<bool, Memory> {
    let input = b"GET /a HTTP/1.1\r\n\r\nGET /b HTTP/1.1\r\n\r\nGET /c HTTP/1.1\r\n\r\n";
    let mut link = held(alloc, input, 19)?;
    let end = serve_desk(alloc, &mut LengthDesk, &mut link, BODY_LIMIT);
    Ok(end == LinkEnd::Ended && link.link.written().len() == 213)
}
