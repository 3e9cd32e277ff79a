//! Workers on the host's ports that are told to stop, by the loopback.
use crate::desk::{CountDesk, reply_of};
use link_workers::{DeskService, Worker, serve_all};
use osm_base::{BODY_LIMIT, Memory};
use osm_outside::{Host, Port, Source};
use osm_real::{FileHost, ListenPort, Stop, ask_at_end};
use row_lines::Tally;
use std::io::{Read, Write};
use std::net::{Net, OpenListener, OpenStream, SocketAddr, TcpListener, TcpStream};
use std::rt::Clock;
use std::sync::Wait;
use std::sync::atomic::{AtomicBool, AtomicU32, Ordering};
use std::thread::{Threads, join};
use std::time::{Duration, Instant};
use std::{io, thread};

type HostPort<'a> = ListenPort<'a, TcpListener, HostRuntime>;

/// How many links there are, each with a worker.
const LINKS: u32 = 8;

/// The number of the reply behind which the first link asks for the stop, and that behind which a link rests until somebody has:
/// one that had `REQUEST_LIMIT` replies is ended in any case.
const MIDDLE: u32 = 200;

const BUSY: u32 = 900;

/// How often a link asks or rests at most.
const TURNS: u32 = 4_000;

/// How long a link waits for its reply at most, and how long one is silent before the stop, in milliseconds.
const REPLY_WAIT: u64 = 20_000;

const SILENCE: u64 = 300;

/// How often a peer looks whether its link was taken at most, and how long one rests, in milliseconds.
const LOOKS: u32 = 2_000;

const REST: u64 = 10;

/// How soon behind the stop a read that waits is given up, in milliseconds. Without a stop it waits for 60 seconds. A machine
/// with much else to do may take its time.
const SOON: u64 = 20_000;

/// An address of the loopback with a port that nobody has.
fn free_address<R: Net>(rt: &R) -> io::Result<SocketAddr> {
    TcpListener::bind(rt, "127.0.0.1:0")?.local_addr()
}

/// What a link saw.
#[derive(Drop)]
struct Seen {
    replies: u32,
    is_whole: bool,
    is_ended: bool,
}

/// Asks once more, and answers whether the reply came whole, or none where the link ended before it began.
fn ask<S: Read + Write>(stream: &mut S) -> Option<bool> {
    let wanted = reply_of(b'0').len();
    let mut reply = [0; 71];
    if stream.write_all(b"GET / HTTP/1.1\r\n\r\n").is_err() {
        return None;
    }
    let mut count = 0_usize;
    for _ in 0..wanted {
        match reply.get_mut(count..) {
            Some(rest) => match stream.read(rest) {
                Ok(0) | Err(_) => break,
                Ok(got) => count = count.saturating_add(got),
            },
            None => break,
        }
        if count >= wanted {
            break;
        }
    }
    if count == 0 {
        return None;
    }
    let Some(digit) = reply.last() else {
        return Some(false);
    };
    Some(count == wanted && reply == reply_of(*digit))
}

/// Whether a link waits for something: until each has had its first reply, and, where it has had many, for the stop.
fn rests(seen: &Seen, stop: &Stop, answered: &AtomicU32) -> bool {
    (seen.replies == 1 && answered.load(Ordering::SeqCst) < LINKS)
        || (seen.replies >= BUSY && !stop.is_asked())
}

/// A link that asks until it is ended, and counts itself among those that were answered. The first of them asks for the stop in
/// the middle.
fn link<R: Net + Clock>(
    rt: &R,
    address: SocketAddr,
    number: usize,
    stop: &Stop,
    answered: &AtomicU32,
) -> io::Result<Seen> {
    let mut stream = TcpStream::connect(rt, address)?;
    stream.set_read_timeout(Some(Duration::from_millis(REPLY_WAIT)))?;
    let mut seen = Seen {
        replies: 0,
        is_whole: true,
        is_ended: false,
    };
    for _ in 0..TURNS {
        if rests(&seen, stop, answered) {
            thread::sleep(rt, Duration::from_millis(REST));
        } else {
            let Some(is_whole) = ask(&mut stream) else {
                seen.is_ended = true;
                break;
            };
            seen.is_whole = seen.is_whole && is_whole;
            seen.replies = seen.replies.saturating_add(1);
            if seen.replies == 1 {
                answered.fetch_add(1, Ordering::SeqCst);
            }
            if number == 0 && seen.replies == MIDDLE {
                stop.ask(rt);
            }
        }
    }
    Ok(seen)
}

/// What all links saw, added up.
fn links<R: Threads + Sync>(
    handle: &R,
    rt: HostRuntime,
    address: SocketAddr,
    stop: &Stop,
) -> io::Result<Seen> {
    let answered = AtomicU32::new(0);
    let all = thread::map_indices(
        handle,
        rt.alloc(),
        LINKS as usize,
        &|number| { link(&rt, address, number, stop, &answered).ok() },
    )?;
    let mut sum = Seen {
        replies: 0,
        is_whole: true,
        is_ended: true,
    };
    for seen in &all {
        match seen {
            Some(seen) => {
                sum.replies = sum.replies.saturating_add(seen.replies);
                sum.is_whole = sum.is_whole && seen.is_whole;
                sum.is_ended = sum.is_ended && seen.is_ended;
            }
            None => sum.is_whole = false,
        }
    }
    Ok(sum)
}

/// So many ports of the host at that address.
fn ports_at<'a>(
    rt: HostRuntime,
    address: SocketAddr,
    count: u32,
    stop: &'a Stop,
) -> io::Result<Vec<HostPort<'a>>> {
    let text = format!(in rt.alloc(); "{address}")?;
    match FileHost::new(rt, stop).listen(rt.alloc(), text.as_str(), count) {
        Ok(ports) => Ok(ports),
        Err(_) => Err(io::Error::from(io::ErrorKind::Other)),
    }
}

fn workers_at<'a>(
    rt: HostRuntime,
    address: SocketAddr,
    stop: &'a Stop,
) -> io::Result<Vec<Worker<CountDesk, HostPort<'a>>>> {
    let mut workers = Vec::new(rt.alloc());
    for port in ports_at(rt, address, LINKS, stop)? {
        workers.push(Worker {
            session: CountDesk::new(),
            port,
            failed: false,
        })?;
    }
    Ok(workers)
}

/// Has the workers serve all links, and the first of these ask for the stop.
fn under_load<'a, R: Threads + Wait + Sync>(
    handle: &R,
    rt: HostRuntime,
    address: SocketAddr,
    stop: &Stop,
    workers: &mut [Worker<CountDesk, HostPort<'a>>],
) -> io::Result<Seen> {
    let (seen, _) = join(
        handle,
        || links(handle, rt, address, stop),
        || serve_all(handle, rt.alloc(), &DeskService::new(BODY_LIMIT), workers),
    );
    seen
}

/// Whether workers that are told to stop under load end of themselves, each reply that was begun comes whole, and nobody listens
/// any more.
fn ends_in_order<R: Threads + Wait + Sync>(handle: &R, rt: HostRuntime) -> io::Result<bool> {
    let stop = Stop::new();
    let address = free_address(&rt)?;
    let mut workers = workers_at(rt, address, &stop)?;
    let seen = under_load(handle, rt, address, &stop, workers.as_mut_slice())?;
    let mut answered = 0_u64;
    let mut any_failed = false;
    for worker in &workers {
        answered = answered.saturating_add(worker.session.answered());
        any_failed = any_failed || worker.failed;
    }
    drop(workers);
    let is_closed = TcpStream::connect(&rt, address).is_err();
    let are_all = answered == u64::from(seen.replies) && seen.is_ended;
    Ok(seen.is_whole && are_all && !any_failed && is_closed)
}

/// A peer that says nothing, and asks for the stop a while after its link was taken. Answers when it did.
fn stay_silent<R: Net + Clock>(
    rt: &R,
    address: SocketAddr,
    stop: &Stop,
    is_taken: &AtomicBool,
) -> io::Result<(R::Stream, Instant)> {
    let stream = TcpStream::connect(rt, address)?;
    for _ in 0..LOOKS {
        if is_taken.load(Ordering::SeqCst) {
            break;
        }
        thread::sleep(rt, Duration::from_millis(REST));
    }
    thread::sleep(rt, Duration::from_millis(SILENCE));
    let asked = Instant::now(rt)?;
    stop.ask(rt);
    Ok((stream, asked))
}

/// Whether a read on the port's next link fails, and no other link comes.
fn fails_to_read(mut ports: Vec<HostPort<'_>>, is_taken: &AtomicBool) -> bool {
    let Some(port) = ports.first_mut() else {
        return false;
    };
    let Ok(Some(mut link)) = port.accept() else {
        return false;
    };
    is_taken.store(true, Ordering::SeqCst);
    link.read(&mut [0; 8]).is_err() && matches!(port.accept(), Ok(None))
}

/// Whether a read that waits is given up soon behind the stop.
fn is_given_up<R: Threads + Wait + Sync>(handle: &R, rt: HostRuntime) -> io::Result<bool> {
    let stop = Stop::new();
    let is_taken = AtomicBool::new(false);
    let address = free_address(&rt)?;
    let ports = ports_at(rt, address, 1, &stop)?;
    let (peer, has_failed) = join(
        handle,
        || stay_silent(&rt, address, &stop, &is_taken),
        || fails_to_read(ports, &is_taken),
    );
    let (_peer, asked) = peer?;
    Ok(has_failed && asked.elapsed(&rt)? < Duration::from_millis(SOON))
}

/// Whether the stop is asked for at an input's end, behind bytes that don't matter, and not where the server ends before.
fn is_asked_at_the_end(rt: HostRuntime) -> io::Result<bool> {
    let listener = TcpListener::bind(&rt, "127.0.0.1:0")?;
    let mut peer = TcpStream::connect(&rt, listener.local_addr()?)?;
    let (mut input, _) = listener.accept()?;
    let ended = Stop::new();
    ended.tell_end();
    ask_at_end(&mut input, &rt, &ended);
    peer.write_all(b"abc")?;
    drop(peer);
    let stop = Stop::new();
    ask_at_end(&mut input, &rt, &stop);
    Ok(!ended.is_asked() && stop.is_asked())
}

fn told(outcome: io::Result<bool>) -> Result<bool, Memory> {
    match outcome {
        Ok(is_right) => Ok(is_right),
        Err(why) if why.kind() == io::ErrorKind::OutOfMemory => Err(Memory),
        Err(_) => Ok(false),
    }
}

pub fn play<R: Threads + Wait + Sync>(handle: &R, rt: HostRuntime, tally: &mut Tally) {
    tally.note(&rt, "an orderly stop", told(ends_in_order(handle, rt)));
    tally.note(
        &rt,
        "a read that waits at a stop",
        told(is_given_up(handle, rt)),
    );
    tally.note(&rt, "a stop at an end", told(is_asked_at_the_end(rt)));
}
