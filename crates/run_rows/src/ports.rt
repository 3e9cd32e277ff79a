//! The ports of a run.
use osm_base::{Bytes, Memory};
use osm_outside::{MemLink, MemPort};
use row_lines::{RowFault, add_request};
use std::alloc::Global;

/// The room of a link for what is written, in bytes.
const ROOM: usize = 8_000;

/// Links that send the same.
#[derive(Drop)]
pub struct Talk {
    links: usize,
    sent: Vec<u8>,
    /// What must come on each of them: the lines of replies, in which `%` is any number.
    pub replies: Vec<String>,
}

impl Talk {
    fn new(alloc: Global, links: usize) -> Talk {
        Talk {
            links,
            sent: Vec::new(alloc),
            replies: Vec::new(alloc),
        }
    }

    /// One of the links, which gives its input in pieces of seven bytes at first.
    fn link(&self, alloc: Global, moment: u64) -> Result<MemLink, Memory> {
        MemLink::new(
            alloc,
            Bytes::of(alloc, self.sent.as_slice())?,
            Vec::from_elem(alloc, 7, 5)?,
            Vec::from_elem(alloc, moment, 1)?,
            Vec::new(alloc),
            Vec::new(alloc),
            ROOM,
        )
    }

    fn add_reply(&mut self, alloc: Global, line: &str) -> Result<(), RowFault> {
        self.replies.push(String::from_str(alloc, line)?)?;
        Ok(())
    }

    fn add_to(&self, alloc: Global, moment: u64, all: &mut Vec<MemLink>) -> Result<(), Memory> {
        for _ in 0..self.links {
            all.push(self.link(alloc, moment)?)?;
        }
        Ok(())
    }
}

/// A port, and what its links send.
#[derive(Drop)]
pub struct PortGiven {
    /// The moment of its links, in seconds since 1970.
    moment: u64,
    /// The numbers of the accepts that fail, from 0.
    pub bad_accepts: Vec<u64>,
    talks: Vec<Talk>,
}

impl PortGiven {
    pub fn new(alloc: Global, moment: u64) -> PortGiven {
        PortGiven {
            moment,
            bad_accepts: Vec::new(alloc),
            talks: Vec::new(alloc),
        }
    }

    pub fn add_links(&mut self, alloc: Global, count: usize) -> Result<(), RowFault> {
        self.talks.push(Talk::new(alloc, count))?;
        Ok(())
    }

    pub fn add_request(&mut self, line: &str) -> Result<(), RowFault> {
        match self.talks.last_mut() {
            Some(talk) => add_request(&mut talk.sent, &[], line),
            None => Err(RowFault::Unread),
        }
    }

    pub fn add_reply(&mut self, alloc: Global, line: &str) -> Result<(), RowFault> {
        match self.talks.last_mut() {
            Some(talk) => talk.add_reply(alloc, line),
            None => Err(RowFault::Unread),
        }
    }

    /// How many links it has.
    pub fn len(&self) -> usize {
        let mut count = 0_usize;
        for talk in &self.talks {
            count = count.saturating_add(talk.links);
        }
        count
    }

    /// What the link of that number sends.
    pub fn talk(&self, number: usize) -> Option<&Talk> {
        let mut end = 0_usize;
        for talk in &self.talks {
            end = end.saturating_add(talk.links);
            if number < end {
                return Some(talk);
            }
        }
        None
    }

    fn links(&self, alloc: Global) -> Result<Vec<MemLink>, Memory> {
        let mut all = Vec::new(alloc);
        for talk in &self.talks {
            talk.add_to(alloc, self.moment, &mut all)?;
        }
        Ok(all)
    }

    fn port(&self, alloc: Global) -> Result<MemPort, Memory> {
        let bad = self.bad_accepts.as_slice().to_vec(alloc)?;
        let links = self.links(alloc)?;
        MemPort::new(alloc, links, bad)
    }
}

/// The ports in memory.
pub fn ports_of(alloc: Global, ports: &[PortGiven]) -> Result<Vec<MemPort>, Memory> {
    let mut all = Vec::new(alloc);
    for port in ports {
        all.push(port.port(alloc)?)?;
    }
    Ok(all)
}
