//! Ports served over one list.
ghost use Rattle.std.specs.Prelude.{◌≡◌};

use crate::links::{GET, Links, POST, numbers_of, port_of};
use crate::numbers::Numbers;
use link_workers::Outcome;
use osm_base::Memory;
use osm_outside::MemPort;
use row_lines::Tally;
use shared_front::Opened;
use std::alloc::Global;
use std::marker::Brand;
use std::sync::Wait;
use std::thread::Threads;
use step_hub::serve_ports;

/// Serves ports over the numbers, none of which is there at first.
fn serve<R: Threads + Wait + Sync>(
    rt: &R,
    alloc: Global,
    lacks: bool,
    ports: &mut Vec<MemPort>,
) -> Outcome {
    let opened = Opened::new();
    serve_ports::<Brand, Numbers, R, MemPort>(rt, alloc, Numbers::new(alloc), opened, &lacks, ports)
}

/// Whether the numbers never fall.
fn never_falls(numbers: &[u64]) -> bool {
    let mut last = 0;
    for number in numbers {
        if *number < last {
            return false;
        }
        last = *number;
    }
    true
}

/// Whether these are the numbers from 1 on, so many.
fn counts_to(numbers: &[u64], count: u64) -> bool {
    let mut last = 0_u64;
    for number in numbers {
        last = last.saturating_add(1);
        if *number != last {
            return false;
        }
    }
    last == count
}

fn one_adds_and_one_reads<R: Threads + Wait + Sync>(rt: &R, alloc: Global) -> Result<bool, Memory> {
    let adds = Links {
        count: 20,
        request: POST,
        requests: 10,
    };
    let reads = Links {
        count: 20,
        request: GET,
        requests: 10,
    };
    let mut ports = Vec::new(alloc);
    ports.push(port_of(alloc, adds, &[])?)?;
    ports.push(port_of(alloc, reads, &[])?)?;
    let outcome = serve(rt, alloc, false, &mut ports);
    if ports.len() != 2 {
        return Ok(false);
    }
    let added = numbers_of(alloc, &ports[0])?;
    let read = numbers_of(alloc, &ports[1])?;
    Ok(
        matches!(outcome, Outcome::Served)
            && counts_to(added.as_slice(), 200)
            && read.len() == 200
            && never_falls(read.as_slice())
            && read.iter().all(|number| *number <= 200),
    )
}

/// Each number is told once, and on each worker's links they rise.
fn a_hundred_links_on_four_workers<R: Threads + Wait + Sync>(
    rt: &R,
    alloc: Global,
) -> Result<bool, Memory> {
    let adds = Links {
        count: 25,
        request: POST,
        requests: 4,
    };
    let mut ports = Vec::new(alloc);
    for _ in 0..4 {
        ports.push(port_of(alloc, adds, &[])?)?;
    }
    let outcome = serve(rt, alloc, false, &mut ports);
    let mut all = Vec::new(alloc);
    for port in ports.iter() {
        let numbers = numbers_of(alloc, port)?;
        if !never_falls(numbers.as_slice()) || numbers.len() != 100 {
            return Ok(false);
        }
        all.extend_from_slice(numbers.as_slice())?;
    }
    all.sort()?;
    Ok(matches!(outcome, Outcome::Served) && counts_to(all.as_slice(), 400))
}

fn a_failed_accept_is_told<R: Threads + Wait + Sync>(
    rt: &R,
    alloc: Global,
) -> Result<bool, Memory> {
    let adds = Links {
        count: 3,
        request: POST,
        requests: 1,
    };
    let mut ports = Vec::new(alloc);
    ports.push(port_of(alloc, adds, &[1])?)?;
    ports.push(port_of(alloc, adds, &[])?)?;
    let outcome = serve(rt, alloc, false, &mut ports);
    if ports.len() != 2 {
        return Ok(false);
    }
    Ok(
        matches!(outcome, Outcome::Failed)
            && ports[0].served().len() == 1
            && ports[1].served().len() == 3,
    )
}

fn want_of_memory_is_told<R: Threads + Wait + Sync>(rt: &R, alloc: Global) -> Result<bool, Memory> {
    let adds = Links {
        count: 3,
        request: POST,
        requests: 1,
    };
    let mut ports = Vec::new(alloc);
    ports.push(port_of(alloc, adds, &[])?)?;
    let outcome = serve(rt, alloc, true, &mut ports);
    if ports.len() != 1 {
        return Ok(false);
    }
    let served = ports[0].served();
    Ok(
        matches!(outcome, Outcome::Served)
            && served.len() == 3
            && served
                .iter()
                .all(|link| link.written().starts_with(b"HTTP/1.1 503 ")),
    )
}

fn no_port_is_served_at_once<R: Threads + Wait + Sync>(
    rt: &R,
    alloc: Global,
) -> Result<bool, Memory> {
    let mut ports = Vec::new(alloc);
    let outcome = serve(rt, alloc, false, &mut ports);
    Ok(matches!(outcome, Outcome::Served) && ports.is_empty())
}

pub fn play<R: Threads + Wait + Sync + Print>(rt: &R, alloc: Global, tally: &mut Tally) {
    tally.note(
        rt,
        "one worker adds and one reads",
        one_adds_and_one_reads(rt, alloc),
    );
    tally.note(
        rt,
        "a hundred links on four workers",
        a_hundred_links_on_four_workers(rt, alloc),
    );
    tally.note(
        rt,
        "a failed accept is told",
        a_failed_accept_is_told(rt, alloc),
    );
    tally.note(
        rt,
        "want of memory is told",
        want_of_memory_is_told(rt, alloc),
    );
    tally.note(
        rt,
        "no port is served at once",
        no_port_is_served_at_once(rt, alloc),
    );
}
