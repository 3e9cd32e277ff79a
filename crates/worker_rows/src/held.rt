//! Workers on ports in memory.
use crate::desk::{CountDesk, reply_of};
use link_workers::{DeskService, Worker, give_back, serve_all};
use osm_base::{BODY_LIMIT, Bytes, Memory};
use osm_outside::{Host, HostFault, MemHost, MemLink, MemPort};
use row_lines::Tally;
use std::alloc::Global;
use std::sync::Wait;
use std::thread::Threads;

const REQUEST: &[u8] = b"GET / HTTP/1.1\r\n\r\n";

/// A link that sends so many requests, in pieces of seven bytes at first.
fn link(alloc: Global, requests: usize) -> Result<MemLink, Memory> {
    let mut input = Vec::new(alloc);
    for _ in 0..requests {
        input.extend_from_slice(REQUEST)?;
    }
    MemLink::new(
        alloc,
        Bytes::from_vec(input),
        Vec::from_elem(alloc, 7, 5)?,
        Vec::new(alloc),
        Vec::new(alloc),
        Vec::new(alloc),
        1_000,
    )
}

/// A port with so many links of one request each, whose accepts with these numbers fail.
pub fn port(alloc: Global, links: usize, bad: &[u64]) -> Result<MemPort, Memory> {
    port_of(alloc, links, 1, bad)
}

/// The same, with links of so many requests each.
pub fn port_of(
    alloc: Global,
    links: usize,
    requests: usize,
    bad: &[u64],
) -> Result<MemPort, Memory> {
    let mut all = Vec::new(alloc);
    for _ in 0..links {
        all.push(link(alloc, requests)?)?;
    }
    MemPort::new(alloc, all, bad.to_vec(alloc)?)
}

fn worker(port: MemPort) -> Worker<CountDesk, MemPort> {
    Worker {
        session: CountDesk::new(),
        port,
        failed: false,
    }
}

/// Whether the worker's links got the digits from 0 on.
fn is_served(worker: &Worker<CountDesk, MemPort>, links: usize, failed: bool) -> bool {
    let served = worker.port.served();
    let mut digit = b'0';
    for link in served {
        if link.written() != reply_of(digit).as_slice() {
            return false;
        }
        digit = digit.saturating_add(1);
    }
    served.len() == links && worker.failed == failed
}

fn each_worker_serves_its_links<R: Threads + Wait + Sync>(
    rt: &R,
    alloc: Global,
) -> Result<bool, Memory> {
    let mut workers = Vec::new(alloc);
    workers.push(worker(port(alloc, 2, &[])?))?;
    workers.push(worker(port(alloc, 3, &[])?))?;
    workers.push(worker(port(alloc, 3, &[1])?))?;
    workers.push(worker(port(alloc, 0, &[])?))?;
    serve_all(
        rt,
        alloc,
        &DeskService::new(BODY_LIMIT),
        workers.as_mut_slice(),
    );
    Ok(
        is_served(&workers[0], 2, false)
            && is_served(&workers[1], 3, false)
            && is_served(&workers[2], 1, true)
            && is_served(&workers[3], 0, false),
    )
}

fn a_host_gives_its_ports_once(alloc: Global) -> Result<bool, Memory> {
    let mut ports = Vec::new(alloc);
    ports.push(port(alloc, 1, &[])?)?;
    ports.push(port(alloc, 2, &[])?)?;
    let mut host = MemHost::new(alloc, Bytes::empty(alloc), ports, Vec::new(alloc))?;
    let few = host.listen(alloc, "", 1).is_err();
    let Ok(given) = host.listen(alloc, "", 2) else {
        return Ok(false);
    };
    give_back(&mut host, given);
    let again = host.listen(alloc, "", 2).is_err();
    Ok(few && again && host.returned().len() == 2)
}

pub fn play<R: Threads + Wait + Sync + Print>(rt: &R, alloc: Global, tally: &mut Tally) {
    tally.note(
        rt,
        "each worker serves its links",
        each_worker_serves_its_links(rt, alloc),
    );
    tally.note(
        rt,
        "a host gives its ports once",
        a_host_gives_its_ports_once(alloc),
    );
}
