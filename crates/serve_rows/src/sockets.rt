//! The map and notes on a listener of the system, by the loopback.
use crate::replies::{reply, reply_of};
use crate::texts::{CREATION, NO_NOTE, NOTE_READ, UPLOAD, UPLOADED, USERS};
use notes_serve::notes_all;
use osm_base::{Memory, SESSION_LIMIT};
use osm_real::{ListenPort, Stop};
use osm_serve::serve_ports;
use row_lines::Tally;
use server_frame::Outcome;
use snapshot_hub::Seats;
use std::alloc::Global;
use std::io;
use std::io::{Read, Write};
use std::marker::Brand;
use std::net::{Net, OpenStream, Shutdown, SocketAddr, TcpListener, TcpStream};
use std::os::fd::OwnedFd;
use std::sync::Wait;
use std::thread::{Threads, join};
use std::time::Duration;
use user_table::UserTable;

const WORKERS: u32 = 2;

/// How long a link waits for its reply, in seconds.
const REPLY_WAIT: u64 = 20;

type TcpPort<'a> = ListenPort<'a, TcpListener, HostRuntime>;

/// Sends a request, and answers whether that reply comes.
fn ask<S: Read + Write>(
    alloc: Global,
    stream: &mut S,
    request: &str,
    wanted: &str,
) -> io::Result<bool> {
    stream.write_all(request.as_bytes())?;
    let mut came = Vec::from_elem(alloc, 0_u8, wanted.len())?;
    stream.read_exact(came.as_mut_slice())?;
    Ok(came.as_slice() == wanted.as_bytes())
}

/// The replies to the creation of the first changeset and to the upload.
#[derive(Drop)]
struct Replies {
    creation: String,
    upload: String,
}

impl Replies {
    fn new(alloc: Global) -> Result<Replies, Memory> {
        Ok(Replies {
            creation: reply(alloc, "1", false)?,
            upload: reply(alloc, UPLOADED, true)?,
        })
    }
}

/// Creates a changeset and uploads a node to it, on a link that the server ends.
fn edit_on<S: Read + Write>(alloc: Global, stream: &mut S, replies: &Replies) -> io::Result<bool> {
    let is_created = ask(alloc, stream, CREATION, replies.creation.as_str())?;
    let is_uploaded = ask(alloc, stream, UPLOAD, replies.upload.as_str())?;
    let has_ended = stream.read(&mut [0])? == 0;
    Ok(is_created && is_uploaded && has_ended)
}

fn edit<R: Net>(rt: &R, alloc: Global, address: SocketAddr, replies: &Replies) -> io::Result<bool> {
    let mut stream = TcpStream::connect(rt, address)?;
    edit_on(alloc, &mut stream, replies)
}

/// What each of two links asks, and the replies to the one that asks first and to the other.
#[derive(Drop)]
struct Turns {
    request: &'static str,
    first: String,
    second: String,
}

impl Turns {
    fn on_map(alloc: Global) -> Result<Turns, Memory> {
        Ok(Turns {
            request: CREATION,
            first: reply(alloc, "1", false)?,
            second: reply(alloc, "2", false)?,
        })
    }

    fn on_notes(alloc: Global) -> Result<Turns, Memory> {
        Ok(Turns {
            request: NOTE_READ,
            first: reply_of(alloc, "404 Not Found", NO_NOTE, false)?,
            second: reply_of(alloc, "404 Not Found", NO_NOTE, false)?,
        })
    }
}

/// A link that waits so long for its reply.
fn link_to<R: Net>(rt: &R, address: SocketAddr) -> io::Result<R::Stream> {
    let stream = TcpStream::connect(rt, address)?;
    stream.set_read_timeout(Some(Duration::from_secs(REPLY_WAIT)))?;
    Ok(stream)
}

/// The first of two links is silent until the second has its reply, and gets its own while the second
/// is still open: so two workers serve at once, and neither waits for the other.
fn turn_by_turn<S: Read + Write>(
    alloc: Global,
    silent: &mut S,
    other: &mut S,
    turns: &Turns,
) -> io::Result<bool> {
    let is_first = ask(alloc, other, turns.request, turns.first.as_str())?;
    let is_second = ask(alloc, silent, turns.request, turns.second.as_str())?;
    Ok(is_first && is_second)
}

/// Opens two links, and has them take turns.
fn take_turns<R: Net>(
    rt: &R,
    alloc: Global,
    address: SocketAddr,
    turns: &Turns,
) -> io::Result<bool> {
    let mut silent = link_to(rt, address)?;
    let mut other = link_to(rt, address)?;
    turn_by_turn(alloc, &mut silent, &mut other, turns)
}

/// What is sent to a server.
#[derive(Drop)]
enum Talk {
    Edit(Replies),
    Turns(Turns),
}

/// Sends it, and then ends the listener.
fn talk_and_end<R: Net>(
    rt: &R,
    alloc: Global,
    address: SocketAddr,
    talk: &Talk,
    end: TcpListener,
) -> io::Result<bool> {
    let is_right = match talk {
        Talk::Edit(replies) => edit(rt, alloc, address, replies),
        Talk::Turns(turns) => take_turns(rt, alloc, address, turns),
    };
    TcpStream::from(OwnedFd::from(end)).shutdown(Shutdown::Both)?;
    is_right
}

fn ports_on<'a>(
    rt: HostRuntime,
    listener: &TcpListener,
    stop: &'a Stop,
) -> io::Result<Vec<TcpPort<'a>>> {
    let mut ports = Vec::new(rt.alloc());
    for _ in 0..WORKERS {
        ports.push(ListenPort::new(listener.try_clone()?, rt, stop))?;
    }
    Ok(ports)
}

/// What is served.
#[derive(Clone, Copy)]
enum Served {
    Map,
    Notes,
}

/// Serves the ports to their end.
fn serve<'a, R: Threads + Wait + Sync>(
    rt: &R,
    alloc: Global,
    served: Served,
    users: &UserTable,
    mut ports: Vec<TcpPort<'a>>,
) -> Option<Outcome> {
    if ports.is_empty() || ports.len() > SESSION_LIMIT as usize {
        return None;
    }
    let count = ports.len() as u32;
    let outcome = match served {
        Served::Map => {
            serve_ports::<Brand, R, TcpPort<'a>>(rt, alloc, Seats::new(count), users, &mut ports)
        }
        Served::Notes => {
            notes_all::<Brand, R, TcpPort<'a>>(rt, alloc, Seats::new(count), users, &mut ports)
        }
    };
    Some(outcome)
}

/// Whether what is sent gets its replies, and the workers end where the listener is ended.
fn serves<R: Threads + Wait + Sync>(
    handle: &R,
    rt: HostRuntime,
    served: Served,
    users: &UserTable,
    talk: &Talk,
) -> io::Result<bool> {
    let listener = TcpListener::bind(&rt, "127.0.0.1:0")?;
    let address = listener.local_addr()?;
    let stop = Stop::new();
    let ports = ports_on(rt, &listener, &stop)?;
    let (is_right, outcome) = join(
        handle,
        || talk_and_end(&rt, rt.alloc(), address, talk, listener),
        || serve(handle, rt.alloc(), served, users, ports),
    );
    Ok(is_right? && matches!(outcome, Some(Outcome::Failed)))
}

fn is_served<R: Threads + Wait + Sync>(
    handle: &R,
    rt: HostRuntime,
    served: Served,
    talk: Result<Talk, Memory>,
) -> Result<bool, Memory> {
    let talk = talk?;
    match UserTable::read(rt.alloc(), USERS.as_bytes()) {
        Ok(users) => Ok(serves(handle, rt, served, &users, &talk).unwrap_or(false)),
        Err(_) => Ok(false),
    }
}

pub fn play<R: Threads + Wait + Sync>(handle: &R, rt: HostRuntime, tally: &mut Tally) {
    let edit = Replies::new(rt.alloc()).map(Talk::Edit);
    let editor = is_served(handle, rt, Served::Map, edit);
    tally.note(&rt, "an editor by a socket", editor);
    let turns = Turns::on_map(rt.alloc()).map(Talk::Turns);
    let map = is_served(handle, rt, Served::Map, turns);
    tally.note(&rt, "two links at once, of which one is silent", map);
    let turns = Turns::on_notes(rt.alloc()).map(Talk::Turns);
    let notes = is_served(handle, rt, Served::Notes, turns);
    tally.note(
        &rt,
        "notes: two links at once, of which one is silent",
        notes,
    );
}
