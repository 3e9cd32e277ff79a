//! The lines of a row that are played once its hub is closed.
ghost use Rattle.std.specs.Prelude.{◌≡◌, ◌+◌, ◌≤◌, Some, [], length, vec_len};

use crate::hubs::ListSession;
use crate::listing::{Listing, Noted};
use crate::tells::{tell_ends, tell_entries, tell_whether};
use row_lines::{RowFault, number, word_of};
use shared_front::HubName;
use snapshot_hub::{Closer, Shown};
use std::alloc::Global;
use std::sync::Wait;

pub type ListCloser<'h, N, R> = Closer<'h, N, Listing, Shown<N, Listing>, R>;

/// The numbers of a text.
pub fn numbers_of(alloc: Global, text: &str) -> Result<Vec<u64>, RowFault> {
    let mut numbers = Vec::new(alloc);
    if text.is_empty() {
        return Ok(numbers);
    }
    for word in text.split(' ') {
        numbers.push(number(word)?)?;
    }
    Ok(numbers)
}

/// Ends the sessions of those numbers, one after the other.
pub fn end_all<N: HubName, R: Wait + Drop>(
    closer: &mut ListCloser<'_, N, R>,
    sessions: &mut [ListSession<N>],
    numbers: &[u64],
)
    requires { length closer.old.ends.told + length numbers.now ≤ closer.old.ends.sessions }
{
    'numbers: for number in numbers {
        if let Some(session) = sessions.get_mut(*number as usize) {
            closer.end(session);
        }
    }
}

/// Whether the entries of a session are the numbers from 0 on, so many, in its calls' order.
fn is_in_order(journal: &[Noted], session: u64, count: u64) -> bool {
    let mut next = 0_u64;
    for entry in journal {
        if u64::from(entry.tag.session) == session {
            if entry.wish.number != next || entry.tag.call != next.saturating_add(1) {
                return false;
            }
            next = next.saturating_add(1);
        }
    }
    next == count
}

/// `SESSION COUNT`.
fn tell_order(told: &mut String, journal: &[Noted], rest: &str) -> Result<(), RowFault> {
    let (session, count) = word_of(rest);
    tell_whether(told, is_in_order(journal, number(session)?, number(count)?))
}

fn tell_length(told: &mut String, length: usize) -> Result<(), RowFault> {
    write!(told, "{length}")?;
    Ok(())
}

fn tell_seen<N: HubName, R: Wait + Drop>(
    _closer: &ListCloser<'_, N, R>,
    sessions: &[ListSession<N>],
    rest: &str,
    told: &mut String,
) -> Result<(), RowFault> {
    match sessions.get(number(rest)? as usize) {
        Some(session) => write!(told, "{}", session.seen())?,
        None => return Err(RowFault::Unread),
    }
    Ok(())
}

/// What is told of a closed hub.
pub fn tell_closing<N: HubName, R: Wait + Drop>(
    alloc: Global,
    closer: &ListCloser<'_, N, R>,
    sessions: &[ListSession<N>],
    line: &str,
    told: &mut String,
) -> Result<(), RowFault> {
    let closing = closer.done();
    let (word, rest) = word_of(line);
    match word {
        "ends" => tell_ends(told, closing.ends),
        "journal" => tell_entries(told, closing.journal.all(alloc)?.as_slice()),
        "length" => tell_length(told, closing.journal.len()),
        "seen" => tell_seen(closer, sessions, rest, told),
        "in_order" => tell_order(told, closing.journal.all(alloc)?.as_slice(), rest),
        _ => Err(RowFault::Unread),
    }
}
