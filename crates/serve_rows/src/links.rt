//! A link of three requests that breaks off at each place in turn: how it ends, what was written, and
//! that the journal has each command that was accepted, once.
ghost use Rattle.std.specs.Prelude.{◌≡◌, Some};
ghost use Rattle.snapshot_hub.specs.Ends.{Ends};

use crate::replies::reply;
use crate::texts::{CREATION, MOMENT, NODE_BODY, NODE_READ, NODE_UPLOAD, UPLOADED, USERS};
use api_desk::{HubDesk, MapHub, MapSession};
use http_link::LinkEnd;
use http_wire::WireEnd;
use osm_base::{Bytes, Memory};
use osm_model::{Command, Entry};
use osm_outside::{BadSink, Link, MemLink, NoGate, Outside};
use osm_serve::serve_link;
use route_table::Routes;
use row_lines::Tally;
use shared_front::HubName;
use snapshot_hub::Seats;
use std::alloc::Global;
use std::marker::Brand;
use std::sync::Wait;
use user_table::UserTable;

/// A creation, the upload of a node, and a read of it.
const REQUESTS: [&str; 3] = [CREATION, NODE_UPLOAD, NODE_READ];

const BODIES: [&str; 3] = ["1", UPLOADED, NODE_BODY];

/// How many bytes a read gives.
const CUT: usize = 7;

/// The room of a link for what is written, in bytes.
const ROOM: usize = 1_000;

/// What must come of a link.
#[derive(Clone, Copy)]
struct Outcome {
    end: LinkEnd,
    /// How many whole replies are written, and nothing else.
    replies: usize,
    /// How many entries the journal has.
    entries: usize,
}

impl Outcome {
    /// So many requests were answered before that end.
    fn answered(count: usize, end: LinkEnd) -> Outcome {
        Outcome {
            end,
            replies: count,
            entries: count.min(2),
        }
    }

    /// The reply of that number, from 0, wasn't written: its command had been accepted before.
    fn unwritten(number: usize) -> Outcome {
        Outcome {
            end: LinkEnd::WriteFault,
            replies: number,
            entries: number.saturating_add(1).min(2),
        }
    }
}

/// The first requests, so many, one behind the other.
fn requests(alloc: Global, count: usize) -> Result<Vec<u8>, Memory> {
    let mut bytes = Vec::new(alloc);
    for text in REQUESTS.iter().take(count) {
        bytes.extend_from_slice(text.as_bytes())?;
    }
    Ok(bytes)
}

/// How many requests are whole in so many bytes of them.
fn whole_in(bytes: usize) -> usize {
    let mut count = 0_usize;
    let mut end = 0_usize;
    for text in &REQUESTS {
        end = end.saturating_add(text.len());
        if end <= bytes {
            count = count.saturating_add(1);
        }
    }
    count
}

/// Whether the first replies, so many, were written and nothing else.
fn are_replies(alloc: Global, written: &[u8], count: usize) -> Result<bool, Memory> {
    let mut wanted = String::new(alloc);
    for body in BODIES.iter().take(count) {
        wanted.push_str(reply(alloc, body, false)?.as_str())?;
    }
    Ok(written == wanted.as_bytes())
}

/// Whether so many commands were kept, the creation first and then the upload, as calls of session 0.
fn are_entries(journal: &[Entry], count: usize) -> bool {
    let mut call = 0_u64;
    for entry in journal {
        call = call.saturating_add(1);
        let wanted = match &entry.command {
            Command::CreateChangeset { .. } => 1,
            Command::Upload { .. } => 2,
            _ => 0,
        };
        if entry.session != 0 || entry.call != call || call != wanted {
            return false;
        }
    }
    journal.len() == count
}

/// A link with this input, whose reads and writes with these numbers fail.
fn link(
    alloc: Global,
    input: &[u8],
    bad_reads: &[u64],
    bad_writes: &[u64],
) -> Result<MemLink, Memory> {
    MemLink::new(
        alloc,
        Bytes::of(alloc, input)?,
        Vec::from_elem(alloc, CUT, input.len())?,
        Vec::from_elem(alloc, MOMENT, 1)?,
        bad_reads.to_vec(alloc)?,
        bad_writes.to_vec(alloc)?,
        ROOM,
    )
}

fn serve_by<N: HubName, R: Wait + Drop, W: Wait, L: Link>(
    rt: &W,
    alloc: Global,
    hub: &MapHub<N, NoGate, R>,
    users: &UserTable,
    session: MapSession<N>,
    link: &mut L,
) -> Result<LinkEnd, Memory> {
    let routes = Routes::new(alloc)?;
    let mut desk = HubDesk::new(rt, hub, session, users, &routes);
    Ok(serve_link(alloc, &mut desk, link))
}

/// Serves the link by the one session of a new hub, and closes the hub.
fn serve<N: HubName, R: Wait, L: Link>(
    rt: &R,
    alloc: Global,
    users: &UserTable,
    seats: Seats<Entry>,
    link: &mut L,
    wanted: Outcome,
) -> Result<bool, Memory>
    requires named { seats.opened ≡ N.book }
    requires seated { seats.sessions ≡ N.sessions }
{
    let (mut hub, mut sessions) = MapHub::<N, NoGate, &R>::new(alloc, rt, seats, NoGate)?;
    let Some(session) = sessions.pop() else {
        return Ok(false);
    };
    let end = serve_by(rt, alloc, &hub, users, session, link)?;
    Ok(end == wanted.end && closes_with(alloc, &mut hub, wanted.entries)?)
}

/// Closes the hub, and tells whether so many entries of its one session are its journal.
fn closes_with<N: HubName, R: Wait + Drop>(
    alloc: Global,
    hub: &mut MapHub<N, NoGate, R>,
    count: usize,
) -> Result<bool, Memory>
    requires { (ends : Ends) × (hub.old ≡ Some ends) }
{
    let closer = hub.close();
    let closing = closer.done();
    let entries = closing.journal.all(alloc)?;
    Ok(are_entries(entries.as_slice(), count))
}

/// Whether that comes of a link, but for what is written on it.
fn comes_to<R: Wait, L: Link>(
    rt: &R,
    alloc: Global,
    users: &UserTable,
    link: &mut L,
    wanted: Outcome,
) -> Result<bool, Memory> {
    serve::<Brand, R, L>(rt, alloc, users, Seats::new(1), link, wanted)
}

/// Whether that comes of a link in memory.
fn comes<R: Wait>(
    rt: &R,
    alloc: Global,
    users: &UserTable,
    mut link: MemLink,
    wanted: Outcome,
) -> Result<bool, Memory> {
    Ok(
        comes_to(rt, alloc, users, &mut link, wanted)?
            && are_replies(alloc, link.written(), wanted.replies)?,
    )
}

/// The link ends in order at the end of each request, and before the first.
fn input_ends_after_each_byte<R: Wait>(
    rt: &R,
    alloc: Global,
    users: &UserTable,
) -> Result<bool, Memory> {
    let input = requests(alloc, REQUESTS.len())?;
    for count in 0..=input.len() {
        let whole = whole_in(count);
        let end = if requests(alloc, whole)?.len() == count {
            LinkEnd::Ended
        } else {
            LinkEnd::Refused(WireEnd::Truncated)
        };
        let begun = link(alloc, input.get(..count).unwrap_or(&[]), &[], &[])?;
        if !comes(rt, alloc, users, begun, Outcome::answered(whole, end))? {
            return Ok(false);
        }
    }
    Ok(true)
}

/// The last read that fails is the one that would find the end.
fn each_read_fails_in_turn<R: Wait>(
    rt: &R,
    alloc: Global,
    users: &UserTable,
) -> Result<bool, Memory> {
    let input = requests(alloc, REQUESTS.len())?;
    let reads = input.len().div_ceil(CUT).saturating_add(1);
    for bad in 0..reads {
        let whole = whole_in(bad.saturating_mul(CUT));
        let broken = link(alloc, input.as_slice(), &[bad as u64], &[])?;
        let wanted = Outcome::answered(whole, LinkEnd::ReadFault);
        if !comes(rt, alloc, users, broken, wanted)? {
            return Ok(false);
        }
    }
    Ok(true)
}

fn each_write_fails_in_turn<R: Wait>(
    rt: &R,
    alloc: Global,
    users: &UserTable,
) -> Result<bool, Memory> {
    let input = requests(alloc, REQUESTS.len())?;
    for bad in 0..REQUESTS.len() {
        let broken = link(alloc, input.as_slice(), &[], &[bad as u64])?;
        if !comes(rt, alloc, users, broken, Outcome::unwritten(bad))? {
            return Ok(false);
        }
    }
    Ok(true)
}

fn each_write_takes_nothing_in_turn<R: Wait>(
    rt: &R,
    alloc: Global,
    users: &UserTable,
) -> Result<bool, Memory> {
    let input = requests(alloc, REQUESTS.len())?;
    for empty in 0..REQUESTS.len() {
        let whole = link(alloc, input.as_slice(), &[], &[])?;
        let mut bad = BadSink::new(whole, empty as u64);
        let wanted = Outcome::unwritten(empty);
        let is_right = comes_to(rt, alloc, users, &mut bad, wanted)?
            && are_replies(alloc, bad.inner().written(), wanted.replies)?;
        if !is_right {
            return Ok(false);
        }
    }
    Ok(true)
}

fn play_for<R: Wait + Print>(rt: &R, alloc: Global, tally: &mut Tally, users: &UserTable) {
    let ended = input_ends_after_each_byte(rt, alloc, users);
    tally.note(rt, "a link of three requests ends after each byte", ended);
    let unread = each_read_fails_in_turn(rt, alloc, users);
    tally.note(rt, "each read of it fails in turn", unread);
    let unwritten = each_write_fails_in_turn(rt, alloc, users);
    tally.note(rt, "each write of it fails in turn", unwritten);
    let empty = each_write_takes_nothing_in_turn(rt, alloc, users);
    tally.note(rt, "each write of it takes nothing in turn", empty);
}

pub fn play<R: Wait + Print>(rt: &R, alloc: Global, tally: &mut Tally) {
    match UserTable::read(alloc, USERS.as_bytes()) {
        Ok(users) => play_for(rt, alloc, tally, &users),
        Err(_) => tally.note(rt, "the users of the links", Ok(false)),
    }
}
