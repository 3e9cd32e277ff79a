//! What links and hosts in memory give and take.
use crate::memory_link;
use osm_base::{Bytes, Memory};
use osm_outside::{Host, HostFault, MemHost, MemLink, Sink, Source};
use row_lines::Tally;
use std::alloc::Global;

fn gives_and_takes(link: &mut MemLink) -> bool {
    let mut place = [0; 2];
    let given = link.read(&mut place);
    let taken = link.write(b"de");
    given == Ok(2)
        && taken == Ok(2)
        && link.left() == b"c".as_slice()
        && link.written() == b"de".as_slice()
}

fn a_link_gives_and_takes(alloc: Global) -> Result<bool, Memory> {
    let mut link = memory_link(alloc, b"abc", Vec::new(alloc), 100)?;
    Ok(gives_and_takes(&mut link))
}

fn gives_its_text(alloc: Global, host: &mut MemHost) -> Result<bool, Memory> {
    match host.users(alloc, "users.txt") {
        Ok(text) => Ok(text.as_slice() == b"abc".as_slice()),
        Err(HostFault::Memory) => Err(Memory),
        Err(HostFault::Failed) => Ok(false),
    }
}

fn a_host_gives_its_text(alloc: Global) -> Result<bool, Memory> {
    let text = Bytes::of(alloc, b"abc")?;
    let mut host = MemHost::new(alloc, text, Vec::new(alloc), Vec::new(alloc))?;
    gives_its_text(alloc, &mut host)
}

pub fn play<R: Print>(rt: &R, alloc: Global, tally: &mut Tally) {
    tally.note(rt, "a link gives and takes", a_link_gives_and_takes(alloc));
    tally.note(rt, "a host gives its text", a_host_gives_its_text(alloc));
}
