//! Workers made of sessions and of the ports of a host, and taken apart again.
use crate::desk::{CountDesk, reply_of};
use crate::held::port_of;
use link_workers::{DeskService, any_failed, give_back, seat_all, serve_all, unseat_all};
use osm_base::{BODY_LIMIT, Bytes, Memory};
use osm_outside::{Host, MemHost, MemPort};
use row_lines::Tally;
use std::alloc::Global;
use std::sync::Wait;
use std::thread::Threads;

/// How many workers there are, how many links each, and how many requests a link.
const WORKERS: u32 = 4;

const LINKS: usize = 25;

const REQUESTS: usize = 3;

/// Ports of which the one of number k has k links more than the first, and one whose accept of that number fails.
fn ports(alloc: Global, bad: &[u64]) -> Result<Vec<MemPort>, Memory> {
    let mut ports = Vec::new(alloc);
    for k in 0..WORKERS as usize {
        ports.push(port_of(alloc, LINKS + k, REQUESTS, bad)?)?;
    }
    Ok(ports)
}

/// A desk for each worker.
fn desks(alloc: Global) -> Result<Vec<CountDesk>, Memory> {
    let mut desks = Vec::new(alloc);
    for _ in 0..WORKERS {
        desks.push(CountDesk::new())?;
    }
    Ok(desks)
}

/// Whether each link of the port got its replies, counted on from 0 over all of them.
fn is_answered(port: &MemPort, links: usize) -> bool {
    let mut count = 0_u8;
    for link in port.served() {
        for reply in link.written().chunks(71) {
            if reply != reply_of(b'0' + count % 10).as_slice() {
                return false;
            }
            count = count.saturating_add(1) % 10;
        }
        if link.written().len() != 71 * REQUESTS {
            return false;
        }
    }
    port.served().len() == links
}

/// What came of a host's ports: whether they came back answered in their order, and whether any had failed.
#[derive(Clone, Copy)]
struct Outcome {
    answered: bool,
    failed: bool,
}

/// Listens, seats a desk on each port, serves all, and gives the ports back.
fn serve_host<R: Threads + Wait + Sync>(
    rt: &R,
    alloc: Global,
    host: &mut MemHost,
) -> Result<Option<bool>, Memory> {
    let mut sessions = desks(alloc)?;
    let Ok(mut ports) = host.listen(alloc, "", WORKERS) else {
        return Ok(None);
    };
    if sessions.len() != ports.len() {
        return Ok(None);
    }
    let Ok(mut workers) = seat_all(alloc, &mut sessions, &mut ports) else {
        give_back(host, ports);
        return Err(Memory);
    };
    serve_all(
        rt,
        alloc,
        &DeskService::new(BODY_LIMIT),
        workers.as_mut_slice(),
    );
    let failed = any_failed(workers.as_slice());
    unseat_all(workers, &mut sessions, &mut ports);
    give_back(host, ports);
    Ok(Some(failed))
}

/// What comes of a host whose accepts of these numbers fail.
fn outcome_of<R: Threads + Wait + Sync>(
    rt: &R,
    alloc: Global,
    bad: &[u64],
    links: usize,
) -> Result<Outcome, Memory> {
    let mut host = MemHost::new(
        alloc,
        Bytes::empty(alloc),
        ports(alloc, bad)?,
        Vec::new(alloc),
    )?;
    let Some(failed) = serve_host(rt, alloc, &mut host)? else {
        return Err(Memory);
    };
    let mut answered = host.returned().len() == WORKERS as usize;
    for (k, port) in host.returned().iter().enumerate() {
        let wanted = if bad.is_empty() {
            links.saturating_add(k)
        } else {
            links
        };
        answered = answered && is_answered(port, wanted);
    }
    Ok(Outcome { answered, failed })
}

fn ports_come_back_served<R: Threads + Wait + Sync>(rt: &R, alloc: Global) -> Result<bool, Memory> {
    let outcome = outcome_of(rt, alloc, &[], LINKS)?;
    Ok(outcome.answered && !outcome.failed)
}

fn a_failing_accept_is_told<R: Threads + Wait + Sync>(
    rt: &R,
    alloc: Global,
) -> Result<bool, Memory> {
    let outcome = outcome_of(rt, alloc, &[2], 2)?;
    Ok(outcome.answered && outcome.failed)
}

pub fn play<R: Threads + Wait + Sync + Print>(rt: &R, alloc: Global, tally: &mut Tally) {
    tally.note(
        rt,
        "ports come back served, in their order",
        ports_come_back_served(rt, alloc),
    );
    tally.note(
        rt,
        "a failing accept is told",
        a_failing_accept_is_told(rt, alloc),
    );
}
