//! A row, played on empty maps.
use crate::desks::{Replies, Sender, journals_differ, replies_of};
use crate::faults::Fault;
use crate::interleaves::tell_interleaved;
use crate::meetings::{Meeting, meet};
use crate::plain::PlainDesk;
use crate::plays::Play;
use crate::steps::Step;
use api_desk::OneDesk;
use hub_core::Book;
use map_machine::MapMachine;
use osm_base::SESSION_LIMIT;
use row_lines::{RowFault, add_request, add_unescaped, add_written_out};
use same_maps::{difference, difference_anew};
use std::mem;
use workload::{Sent, requests};

/// The seed of a load.
const SEED: u64 = 1;

/// Sends a request, which may be that of a line, to both desks.
fn send<R: Print>(
    rt: &R,
    fast: &mut OneDesk<'_>,
    plain: &PlainDesk<'_>,
    play: &mut Play,
    bytes: &[u8],
    line: Option<&str>,
) -> Result<(), Fault> {
    let replies = replies_of(fast, plain, &mut play.journal, play.sender, bytes)?;
    note(rt, fast, plain, play, bytes, line, &replies)
}

/// Counts what comes of a request. Where it makes an entry, both maps are compared.
fn note<R: Print>(
    rt: &R,
    fast: &OneDesk<'_>,
    plain: &PlainDesk<'_>,
    play: &mut Play,
    bytes: &[u8],
    line: Option<&str>,
    replies: &Replies,
) -> Result<(), Fault> {
    play.note_replies(rt, bytes, replies)?;
    if let Some(line) = line {
        play.counts.note(plain.alloc, line, &replies.plain)?;
    }
    let entries = fast.entries().len();
    if entries != play.entries {
        play.entries = entries;
        let part = difference(plain.alloc, play.journal.state(), fast.world())?;
        play.note(rt, part)?;
    }
    Ok(())
}

/// Adds the bytes of a request's line.
fn add_bytes(bytes: &mut Vec<u8>, line: &str) -> Result<(), RowFault> {
    match line.strip_prefix("> ") {
        Some(raw) => add_unescaped(bytes, raw),
        None => add_request(bytes, &[], line),
    }
}

/// Sends the request of a line that is written out.
fn ask_whole<R: Print>(
    rt: &R,
    fast: &mut OneDesk<'_>,
    plain: &PlainDesk<'_>,
    play: &mut Play,
    line: &str,
) -> Result<(), Fault> {
    let mut bytes = Vec::new(plain.alloc);
    match add_bytes(&mut bytes, line) {
        Ok(()) => send(rt, fast, plain, play, bytes.as_slice(), Some(line)),
        Err(why) => Err(Fault::from(why)),
    }
}

/// Sends the request of a line.
fn ask<R: Print>(
    rt: &R,
    fast: &mut OneDesk<'_>,
    plain: &PlainDesk<'_>,
    play: &mut Play,
    line: &str,
) -> Result<(), Fault> {
    let mut whole = String::new(plain.alloc);
    match add_written_out(&mut whole, line) {
        Ok(()) => ask_whole(rt, fast, plain, play, whole.as_str()),
        Err(why) => Err(Fault::from(why)),
    }
}

fn send_all<R: Print>(
    rt: &R,
    fast: &mut OneDesk<'_>,
    plain: &PlainDesk<'_>,
    play: &mut Play,
    load: &[Sent],
) -> Result<(), Fault> {
    for sent in load {
        play.sender.session = sent.session;
        send(rt, fast, plain, play, sent.bytes.as_slice(), None)?;
    }
    Ok(())
}

/// Sends the requests of a load of so many sessions and uploads.
fn send_load<R: Print>(
    rt: &R,
    fast: &mut OneDesk<'_>,
    plain: &PlainDesk<'_>,
    play: &mut Play,
    load: (u32, u32),
) -> Result<(), Fault> {
    let (sessions, uploads) = load;
    if sessions == 0 || sessions > SESSION_LIMIT {
        return Err(Fault::Line);
    }
    match requests(plain.alloc, SEED, sessions, uploads) {
        Ok(load) => send_all(rt, fast, plain, play, load.as_slice()),
        Err(why) => Err(Fault::from(why)),
    }
}

/// A session plans the command of a line.
fn plan(plain: &PlainDesk<'_>, play: &mut Play, session: u32, line: &str) -> Result<(), Fault> {
    let mut whole = String::new(plain.alloc);
    add_written_out(&mut whole, line)?;
    plan_whole(plain, play, session, whole.as_str())
}

fn plan_whole(
    plain: &PlainDesk<'_>,
    play: &mut Play,
    session: u32,
    line: &str,
) -> Result<(), Fault> {
    let mut bytes = Vec::new(plain.alloc);
    add_bytes(&mut bytes, line)?;
    play.meeting.plan(plain, session, bytes)
}

/// Plays what sessions did by turns, tells what came of it, and notes what the plain program gave
/// otherwise.
fn play_meeting<R: Print>(
    rt: &R,
    plain: &PlainDesk<'_>,
    play: &mut Play,
    is_told: bool,
) -> Result<(), Fault> {
    let meeting = mem::replace(&mut play.meeting, Meeting::new(plain.alloc));
    let part = meet(rt, plain.alloc, meeting, is_told)?;
    play.note(rt, part)?;
    Ok(())
}

/// An empty map takes all entries, on room for those of the row above.
fn take_anew<R: Print>(rt: &R, plain: &PlainDesk<'_>, play: &mut Play) -> Result<(), Fault> {
    let part = difference_anew(plain.alloc, &play.journal, play.above.entries())?;
    play.note(rt, part)?;
    Ok(())
}

fn play_line<R: Print>(
    rt: &R,
    fast: &mut OneDesk<'_>,
    plain: &PlainDesk<'_>,
    play: &mut Play,
    line: &str,
) -> Result<(), Fault> {
    match Step::of(line)? {
        Step::Nothing => Ok(()),
        Step::Wait(seconds) => {
            play.wait(seconds);
            Ok(())
        }
        Step::Entries(count) => Ok(play.want(rt, count)?),
        Step::Anew => take_anew(rt, plain, play),
        Step::Load(load) => send_load(rt, fast, plain, play, load),
        Step::Interleave(load) => Ok(tell_interleaved(rt, plain.alloc, load)?),
        Step::Plan(session, line) => plan(plain, play, session, line),
        Step::Commit(session) => {
            let moment = play.sender.moment;
            play.meeting.commit(plain, Sender { session, moment })
        }
        Step::Publish => play.meeting.publish(),
        Step::Meet { is_told } => play_meeting(rt, plain, play, is_told),
        Step::Timed(sender, line) => {
            play.sender = sender;
            ask(rt, fast, plain, play, line)
        }
        Step::Ask(line) => ask(rt, fast, plain, play, line),
    }
}

/// Plays the lines of a row, and compares the journals at their end.
fn play_lines<R: Print>(
    rt: &R,
    fast: &mut OneDesk<'_>,
    plain: &PlainDesk<'_>,
    play: &mut Play,
    lines: &str,
) -> Result<(), Fault> {
    for line in lines.lines() {
        play_line(rt, fast, plain, play, line)?;
    }
    let part = journals_differ(plain.alloc, fast, &play.journal)?;
    play.note(rt, part)?;
    Ok(())
}

/// Plays lines on the plain desk and on one over a book.
fn play_over<R: Print>(
    rt: &R,
    plain: &PlainDesk<'_>,
    book: &mut Book<MapMachine>,
    play: &mut Play,
    lines: &str,
) -> Result<(), Fault> {
    match OneDesk::new(plain.alloc, book, plain.users, 0) {
        Ok(mut fast) => play_lines(rt, &mut fast, plain, play, lines),
        Err(why) => Err(Fault::from(why)),
    }
}

fn play_on_empty<R: Print>(
    rt: &R,
    plain: &PlainDesk<'_>,
    play: &mut Play,
    lines: &str,
) -> Result<(), Fault> {
    let mut book = Book::<MapMachine>::new(plain.alloc);
    play_over(rt, plain, &mut book, play, lines)
}

/// Plays a row, its name and then its lines, on empty maps, and tells how much was played.
pub fn play_row<R: Print>(
    rt: &R,
    plain: &PlainDesk<'_>,
    play: &mut Play,
    row: &str,
) -> Result<(), Fault> {
    let (name, lines) = row.split_once('\n').unwrap_or((row, ""));
    play.begin(plain.alloc);
    play_on_empty(rt, plain, play, lines)?;
    play.tell(rt, name)?;
    Ok(())
}
