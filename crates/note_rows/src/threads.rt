//! Two sessions on two threads.
ghost use Rattle.std.specs.Prelude.{◌≡◌};

use crate::sent::{Wish, request};
use crate::wanted::body;
use http_link::{Desk, Reply};
use http_wire::whole_message;
use notes_core::NoteEntry;
use notes_desk::{NotesDesk, NotesHub, NotesSession};
use osm_base::Memory;
use osm_outside::NoGate;
use session_desk::HasSession;
use shared_front::HubName;
use snapshot_hub::{End, Seats};
use std::alloc::Global;
use std::sync::Wait;
use std::thread::{Threads, join};
use user_table::UserTable;

/// How many requests each thread sends.
const REQUESTS: u64 = 100;

const USERS: &[u8] = b"1 alicetoken user alice\n2 bobtoken moderator bob\n";

/// The moment of each request, in seconds since 1970: 2023-11-14T22:13:20Z.
const MOMENT: u64 = 1_700_000_000;

/// What is asked first, if anything, what each thread then asks each time, and how many entries the
/// journal has at last.
#[derive(Clone, Copy)]
pub struct Row {
    pub first: Option<Wish>,
    pub each: Wish,
    pub entries: u64,
}

/// A session with the replies to its requests, in their order.
#[derive(Drop)]
struct Played<S: Drop> {
    session: S,
    replies: Vec<Reply>,
}

/// Sends a request so many times, by that session.
fn send<N: HubName, R: Wait + Drop, W: Wait>(
    rt: &W,
    alloc: Global,
    hub: &NotesHub<N, NoGate, R>,
    users: &UserTable,
    played: Played<NotesSession<N>>,
    wish: Wish,
    times: u64,
) -> Result<Played<NotesSession<N>>, Memory> {
    let Played {
        session,
        mut replies,
    } = played;
    let mut desk = NotesDesk::new(rt, hub, session, users);
    for _ in 0..times {
        if let Some(message) = whole_message(alloc, request(alloc, wish)?)? {
            replies.push(desk.answer(alloc, message, MOMENT)?)?;
        }
    }
    Ok(Played {
        session: desk.into_session(),
        replies,
    })
}

/// Whether a reply is the one to the entry of that number.
fn is_reply_to(
    alloc: Global,
    reply: Option<&Reply>,
    number: u64,
    wish: Wish,
) -> Result<bool, Memory> {
    let Some(reply) = reply else {
        return Ok(false);
    };
    let wanted = body(alloc, number, wish)?;
    Ok(reply.status == 200 && reply.body.as_slice() == wanted.as_bytes())
}

/// Whether each entry has had its reply, by the session whose call it is.
fn all_replied(
    alloc: Global,
    journal: &[NoteEntry],
    wish: Wish,
    first: &[Reply],
    second: &[Reply],
) -> Result<bool, Memory> {
    let mut number = 0_u64;
    for entry in journal {
        let replies = if entry.session == 0 { first } else { second };
        let reply = replies.get(entry.call.saturating_sub(1) as usize);
        if !is_reply_to(alloc, reply, number, wish)? {
            return Ok(false);
        }
        number = number.saturating_add(1);
    }
    Ok(true)
}

/// Each session sends its requests on a thread of its own. Whatever the order, the journal has an
/// entry for each of them, whose reply is the note as it stands behind it, and both ends match.
pub fn two_threads_write<N: HubName + Send + Sync, R: Threads + Wait + Sync>(
    rt: &R,
    alloc: Global,
    seats: Seats<NoteEntry>,
    row: Row,
) -> Result<bool, Memory>
    requires named { seats.opened ≡ N.book }
    requires seated { seats.sessions ≡ N.sessions }
    requires two { seats.sessions ≡ 2 }
{
    let Ok(users) = UserTable::read(alloc, USERS) else {
        return Err(Memory);
    };
    let (mut hub, mut sessions) = NotesHub::<N, NoGate, &R>::new(alloc, rt, seats, NoGate)?;
    let (Some(second), Some(first)) = (sessions.pop(), sessions.pop()) else {
        return Ok(false);
    };
    let mut one = Played {
        session: first,
        replies: Vec::new(alloc),
    };
    let other = Played {
        session: second,
        replies: Vec::new(alloc),
    };
    if let Some(wish) = row.first {
        one = send(rt, alloc, &hub, &users, one, wish, 1)?;
    }
    let (one, other) = join(
        rt,
        || send(rt, alloc, &hub, &users, one, row.each, REQUESTS),
        || send(rt, alloc, &hub, &users, other, row.each, REQUESTS),
    );
    let (mut one, mut other) = (one?, other?);
    let mut closer = hub.close();
    let matched = closer.end(&mut one.session) == End::Matched
        && closer.end(&mut other.session) == End::Matched;
    let journal = closer.done().journal.all(alloc)?;
    let replied = all_replied(
        alloc,
        journal.as_slice(),
        row.each,
        one.replies.as_slice(),
        other.replies.as_slice(),
    )?;
    Ok(matched && replied && journal.len() as u64 == row.entries)
}
