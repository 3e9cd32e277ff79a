//! The lines of a row that are played while its hub is open.
use crate::hubs::{ListHub, ListSession, add, add_many, at, cross, plain};
use crate::listing::Noted;
use crate::tells::{
    tell_added, tell_crossed, tell_entries, tell_freshened, tell_lack, tell_number, tell_whether,
    wish_of,
};
use osm_base::{Memory, Steps};
use row_lines::{RowFault, number, word_of};
use shared_front::HubName;
use std::sync::Wait;
use std::sync::ledger::Ledger;
use std::thread::{Threads, join};

/// What a session does.
#[derive(Clone, Copy)]
enum Deed {
    Add,
    Freshen,
    Stands,
    Reads,
    Part,
}

const DEEDS: [(&str, Deed); 5] = [
    ("add", Deed::Add),
    ("freshen", Deed::Freshen),
    ("stands", Deed::Stands),
    ("reads", Deed::Reads),
    ("part", Deed::Part),
];

fn deed_of(word: &str) -> Result<Deed, RowFault> {
    for (name, deed) in DEEDS {
        if name == word {
            return Ok(deed);
        }
    }
    Err(RowFault::Unread)
}

/// Where a session stands.
fn tell_standing<N: HubName, R: Wait + Drop>(
    told: &mut String,
    _hub: &ListHub<N, R>,
    session: &ListSession<N>,
) -> Result<(), RowFault> {
    let (seen, calls, debts) = (session.seen(), session.calls(), session.debts());
    write!(told, "seen {seen} calls {calls} debts {debts}")?;
    if session.owes() {
        told.push_str(" owes")?;
    }
    Ok(())
}

fn tell_at(told: &mut String, came: Result<Option<u8>, Memory>) -> Result<(), RowFault> {
    match came {
        Ok(number) => tell_number(told, number),
        Err(Memory) => tell_lack(told),
    }
}

fn tell_part(told: &mut String, came: Result<Vec<Noted>, Memory>) -> Result<(), RowFault> {
    match came {
        Ok(entries) => tell_entries(told, entries.as_slice()),
        Err(Memory) => tell_lack(told),
    }
}

/// `FROM COUNT`: a part of the journal, of which the count may be `most`.
fn part_of<N: HubName, R: Wait + Drop, W: Wait>(
    rt: &W,
    hub: &ListHub<N, R>,
    session: &mut ListSession<N>,
    rest: &str,
    told: &mut String,
) -> Result<(), RowFault> {
    let (from, count) = word_of(rest);
    let (from, count) = (number_of(from)?, number_of(count)?);
    tell_part(told, hub.part(rt, session, from, count))
}

/// A number, or `most` for the greatest.
fn number_of(text: &str) -> Result<u64, RowFault> {
    if text == "most" {
        Ok(u64::MAX)
    } else {
        number(text)
    }
}

/// Whether the session has then seen all that was found under the lock.
fn freshen<N: HubName, R: Wait + Drop, W: Wait>(
    rt: &W,
    hub: &ListHub<N, R>,
    session: &mut ListSession<N>,
) -> Result<bool, Memory> {
    let found = hub.freshen(rt, session)?;
    Ok(found.front().len() == session.seen())
}

fn do_by<N: HubName, R: Wait + Drop, W: Wait, L: Ledger>(
    rt: &W,
    hub: &ListHub<N, R>,
    session: &mut ListSession<N>,
    deed: Deed,
    rest: &str,
    steps: &mut Steps<L>,
    told: &mut String,
) -> Result<(), RowFault> {
    match deed {
        Deed::Add => tell_added(told, add(rt, hub, session, wish_of(rest)?, steps)),
        Deed::Freshen => tell_freshened(told, freshen(rt, hub, session)),
        Deed::Stands => tell_standing(told, hub, session),
        Deed::Reads => tell_at(told, at(hub, session, number(rest)?, steps)),
        Deed::Part => part_of(rt, hub, session, rest, told),
    }
}

/// `SESSION DEED ..`.
fn play_deed<N: HubName, R: Wait + Drop, W: Wait, L: Ledger>(
    rt: &W,
    hub: &ListHub<N, R>,
    sessions: &mut [ListSession<N>],
    line: &str,
    steps: &mut Steps<L>,
    told: &mut String,
) -> Result<(), RowFault> {
    let (digits, rest) = word_of(line);
    let (word, rest) = word_of(rest);
    let (place, deed) = (number(digits)? as usize, deed_of(word)?);
    match sessions.get_mut(place) {
        Some(session) => do_by(rt, hub, session, deed, rest, steps, told),
        None => Err(RowFault::Unread),
    }
}

/// `NUMBER NUMBER`: the second session plans the one, the first adds the other, and the plan is
/// committed.
fn play_cross<N: HubName, R: Wait + Drop, W: Wait, L: Ledger>(
    rt: &W,
    hub: &ListHub<N, R>,
    sessions: &mut [ListSession<N>],
    rest: &str,
    steps: &mut Steps<L>,
    told: &mut String,
) -> Result<(), RowFault> {
    let (planned, added) = word_of(rest);
    let (planned, added) = (plain(number(planned)?), plain(number(added)?));
    match sessions {
        [first, second, ..] => {
            tell_crossed(told, cross(rt, hub, second, first, planned, added, steps))
        }
        _ => Err(RowFault::Unread),
    }
}

/// Whether each of two sessions has seen all that the other has.
fn play_begins<N: HubName, R: Wait + Drop>(
    _hub: &ListHub<N, R>,
    sessions: &[ListSession<N>],
    told: &mut String,
) -> Result<(), RowFault> {
    match sessions {
        [first, second, ..] => tell_whether(told, first.begins(second) && second.begins(first)),
        _ => Err(RowFault::Unread),
    }
}

/// Whether the sessions are numbered from 0 on, so many.
fn play_numbered<N: HubName, R: Wait + Drop>(
    _hub: &ListHub<N, R>,
    sessions: &[ListSession<N>],
    rest: &str,
    told: &mut String,
) -> Result<(), RowFault> {
    let mut is_so = sessions.len() as u64 == number(rest)?;
    for (place, session) in sessions.iter().enumerate() {
        is_so = session.number() as usize == place && is_so;
    }
    tell_whether(told, is_so)
}

/// Both sessions add so many numbers, each on its own thread.
fn play_both<N: HubName + Send + Sync, R: Threads + Wait + Sync>(
    rt: &R,
    hub: &ListHub<N, &R>,
    sessions: &mut [ListSession<N>],
    rest: &str,
    told: &mut String,
) -> Result<(), RowFault> {
    let count = number(rest)?;
    let [first, second, ..] = sessions else {
        return Err(RowFault::Unread);
    };
    let (one, other) = join(
        rt,
        || add_many(rt, hub, first, count),
        || add_many(rt, hub, second, count),
    );
    tell_whether(told, one? && other?)
}

/// Plays a line, and tells what came of it.
pub fn play_line<N: HubName + Send + Sync, R: Threads + Wait + Sync, L: Ledger>(
    rt: &R,
    hub: &ListHub<N, &R>,
    sessions: &mut [ListSession<N>],
    line: &str,
    steps: &mut Steps<L>,
    told: &mut String,
) -> Result<(), RowFault> {
    let (word, rest) = word_of(line);
    match word {
        "cross" => play_cross(rt, hub, sessions, rest, steps, told),
        "begin_each_other" => play_begins(hub, sessions, told),
        "numbered" => play_numbered(hub, sessions, rest, told),
        "both" => play_both(rt, hub, sessions, rest, told),
        _ => play_deed(rt, hub, sessions, line, steps, told),
    }
}
