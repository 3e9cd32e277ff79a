//! Rows of many sessions over one hub, on many threads. Whatever the threads did, one desk that takes
//! the requests in the order of the journal must answer each as its session was answered. docs/ROWS.md
//! has the format.
#![tactic(auto)]

mod gates;
mod jobs;
mod notes;
mod outcomes;
mod plays;
mod replays;
mod rows;

use osm_base::SESSION_LIMIT;
use outcomes::Outcome;
use plays::play_on;
use row_lines::RowFault;
use rows::Row;
use snapshot_hub::Seats;
use std::alloc::Global;
use std::io;
use std::marker::Brand;
use std::process::ExitCode;
use std::sync::Wait;
use std::thread::Threads;
use user_table::UserTable;
use workload::users_of_load;

/// The users of the rows without a load.
const USERS: &str =
    "1 alicetoken user alice\n2 bobtoken moderator bob\n3 davetoken user/1000000 dave\n";

fn play_for<R: Threads + Wait + Sync + Print>(
    rt: &R,
    alloc: Global,
    users: &UserTable,
    row: &Row<'_>,
) -> Result<Outcome, RowFault> {
    let sessions = row.sessions;
    if sessions == 0 || sessions > SESSION_LIMIT || row.ends.len() > sessions as usize {
        return Err(RowFault::Unread);
    }
    play_on::<Brand, R>(rt, alloc, users, Seats::new(sessions), row)
}

fn play_with_load<R: Threads + Wait + Sync + Print>(
    rt: &R,
    alloc: Global,
    row: &Row<'_>,
) -> Result<Outcome, RowFault> {
    if row.sessions == 0 || row.sessions > SESSION_LIMIT {
        return Err(RowFault::Unread);
    }
    let users = users_of_load(alloc, row.sessions)?;
    play_for(rt, alloc, &users, row)
}

/// Plays the lines of a row.
fn play_row<R: Threads + Wait + Sync + Print>(
    rt: &R,
    alloc: Global,
    lines: &str,
) -> Result<Outcome, RowFault> {
    let row = Row::read(alloc, lines)?;
    if row.has_load {
        return play_with_load(rt, alloc, &row);
    }
    match UserTable::read(alloc, USERS.as_bytes()) {
        Ok(users) => play_for(rt, alloc, &users, &row),
        Err(_) => Err(RowFault::Unread),
    }
}

/// Plays each row of the text, and says of each whether it was right.
fn play_all<R: Threads + Wait + Sync + Print>(
    rt: &R,
    alloc: Global,
    text: &str,
) -> io::Result<bool> {
    let mut rows = 0_u64;
    let mut wrong = 0_u64;
    for row in text.split("\n== ").skip(1) {
        let (name, lines) = row.split_once('\n').unwrap_or((row, ""));
        rows = rows.saturating_add(1);
        let is_right = match play_row(rt, alloc, lines) {
            Ok(outcome) => {
                outcome.tell(rt, name)?;
                outcome.is_right()
            }
            Err(why) => {
                println!(rt; "wrong: {name}: {why}")?;
                false
            }
        };
        wrong = wrong.saturating_add(u64::from(!is_right));
    }
    println!(rt; "{rows} rows, {wrong} wrong")?;
    Ok(wrong == 0)
}

fn main(rt: HostRuntime) -> io::Result<ExitCode> {
    let text = io::read_to_string(rt.alloc(), rt.stdin())?;
    if play_all(&rt, rt.alloc(), text.as_str())? {
        Ok(ExitCode::SUCCESS)
    } else {
        Ok(ExitCode::FAILURE)
    }
}
