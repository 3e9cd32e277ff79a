//! A row on a hub.
ghost use Rattle.std.specs.Prelude.{◌≡◌, ◌≤◌, Some, [], length};

use crate::closings::{ListCloser, end_all, numbers_of, tell_closing};
use crate::hubs::{ListHub, ListSession};
use crate::listing::Noted;
use crate::plays::play_line;
use osm_base::Steps;
use osm_outside::NoGate;
use row_lines::RowFault;
use shared_front::HubName;
use snapshot_hub::Seats;
use std::alloc::Global;
use std::marker::Brand;
use std::sync::Wait;
use std::sync::ledger::Ledger;
use std::thread::Threads;

/// How many sessions a hub has.
const SESSIONS: u32 = 2;

/// The lines of a row: those while the hub is open, the sessions that are ended then, and the lines
/// behind that.
#[derive(Clone, Copy)]
struct Lines<'t> {
    open: &'t str,
    ends: &'t str,
    closed: &'t str,
}

fn lines_of(text: &str) -> Lines<'_> {
    let (open, rest) = text.split_once("\n-- ").unwrap_or((text, ""));
    let (ends, closed) = rest.split_once('\n').unwrap_or((rest, ""));
    Lines { open, ends, closed }
}

/// Whether a line says nothing.
pub fn is_still(line: &str) -> bool {
    line.is_empty() || line.starts_with('#')
}

/// Whether that was told. Says what was where it wasn't.
pub fn is_told<R: Print>(rt: &R, wanted: &str, told: &str) -> bool {
    let is_right = wanted == told;
    if !is_right {
        let _ = println!(rt; "wrong: {told}, and not {wanted}");
    }
    is_right
}

/// Plays the lines of an open hub. False at the first that tells something else than is wanted.
fn play_open<N: HubName + Send + Sync, R: Threads + Wait + Sync + Print, L: Ledger>(
    rt: &R,
    hub: &ListHub<N, &R>,
    sessions: &mut [ListSession<N>],
    lines: &str,
    steps: &mut Steps<L>,
    told: &mut String,
) -> Result<bool, RowFault> {
    for line in lines.lines() {
        if let Some(wanted) = line.strip_prefix("= ") {
            if !is_told(rt, wanted, told.as_str()) {
                return Ok(false);
            }
        } else if !is_still(line) {
            told.clear();
            play_line(rt, hub, sessions, line, steps, told)?;
        }
    }
    Ok(true)
}

/// The same of a closed one.
fn play_closed<N: HubName, R: Wait + Drop, P: Print>(
    rt: &P,
    alloc: Global,
    closer: &ListCloser<'_, N, R>,
    sessions: &[ListSession<N>],
    lines: &str,
    told: &mut String,
) -> Result<bool, RowFault> {
    for line in lines.lines() {
        if let Some(wanted) = line.strip_prefix("= ") {
            if !is_told(rt, wanted, told.as_str()) {
                return Ok(false);
            }
        } else if !is_still(line) {
            told.clear();
            tell_closing(alloc, closer, sessions, line, told)?;
        }
    }
    Ok(true)
}

/// Ends the sessions of those numbers, and plays the lines behind that.
fn close<N: HubName, R: Wait + Drop, P: Print>(
    rt: &P,
    alloc: Global,
    hub: &mut ListHub<N, R>,
    sessions: &mut [ListSession<N>],
    ends: &[u64],
    count: u32,
    lines: &str,
    told: &mut String,
) -> Result<bool, RowFault>
    requires open { hub.old ≡ Some (record { told = []; sessions = count }) }
    requires ends { length ends.now ≤ count }
{
    let mut closer = hub.close();
    end_all(&mut closer, sessions, ends);
    play_closed(rt, alloc, &closer, sessions, lines, told)
}

/// Plays the lines on this hub.
fn play_on<N: HubName + Send + Sync, R: Threads + Wait + Sync + Print, L: Ledger>(
    rt: &R,
    alloc: Global,
    hub: &mut ListHub<N, &R>,
    sessions: &mut [ListSession<N>],
    ends: &[u64],
    count: u32,
    lines: Lines<'_>,
    steps: &mut Steps<L>,
    told: &mut String,
) -> Result<bool, RowFault>
    requires open { hub.old ≡ Some (record { told = []; sessions = count }) }
    requires ends { length ends.now ≤ count }
{
    if !play_open(rt, hub, sessions, lines.open, steps, told)? {
        return Ok(false);
    }
    close(rt, alloc, hub, sessions, ends, count, lines.closed, told)
}

/// Plays the lines on a new hub of that name.
fn play_new<N: HubName + Send + Sync, R: Threads + Wait + Sync + Print, L: Ledger>(
    rt: &R,
    alloc: Global,
    seats: Seats<Noted>,
    ends: &[u64],
    count: u32,
    lines: Lines<'_>,
    steps: &mut Steps<L>,
) -> Result<bool, RowFault>
    requires named { seats.opened ≡ N.book }
    requires seated { seats.sessions ≡ N.sessions }
    requires count { seats.sessions ≡ count }
    requires ends { length ends.now ≤ count }
{
    let mut told = String::new(alloc);
    let (mut hub, mut sessions) = ListHub::<N, &R>::new(alloc, rt, seats, NoGate)?;
    let sessions = sessions.as_mut_slice();
    play_on(
        rt, alloc, &mut hub, sessions, ends, count, lines, steps, &mut told,
    )
}

/// Plays a row on a hub of its own.
pub fn play_hub<R: Threads + Wait + Sync + Print, L: Ledger>(
    rt: &R,
    alloc: Global,
    text: &str,
    steps: &mut Steps<L>,
) -> Result<bool, RowFault> {
    let lines = lines_of(text);
    let ends = numbers_of(alloc, lines.ends)?;
    if ends.len() > SESSIONS as usize {
        return Err(RowFault::Unread);
    }
    let seats = Seats::new(SESSIONS);
    play_new::<Brand, R, L>(rt, alloc, seats, ends.as_slice(), SESSIONS, lines, steps)
}
