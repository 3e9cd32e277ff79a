//! A row, played by many sessions over one hub.
ghost use Rattle.std.specs.Prelude.{◌≡◌, ◌+◌, ◌≤◌, Some, [], length, vec_len};

use crate::gates::RowGate;
use crate::jobs::{Job, RowHub, play_job};
use crate::notes::{Notes, Told};
use crate::outcomes::Outcome;
use crate::replays::replay;
use crate::rows::{Phase, Row};
use api_desk::MapSession;
use map_machine::MapMachine;
use osm_model::Entry;
use row_lines::RowFault;
use shared_front::HubName;
use snapshot_hub::{Closer, Closing, End, Seats, Shown};
use std::alloc::Global;
use std::sync::Wait;
use std::thread::{Threads, map_vec};
use user_table::UserTable;

type RowCloser<'h, N, R> = Closer<'h, N, MapMachine, Shown<N, MapMachine>, R>;

/// Puts the sessions into jobs, so many in each.
fn jobs_of<S: Drop>(alloc: Global, sessions: Vec<S>, each: usize) -> Result<Vec<Job<S>>, RowFault> {
    let mut jobs = Vec::new(alloc);
    let mut some = Vec::new(alloc);
    let mut first = 0_u64;
    for session in sessions {
        some.push(session)?;
        if some.len() >= each {
            let notes = Notes::new(alloc, first, some.len())?;
            first = first.saturating_add(some.len() as u64);
            jobs.push(Job {
                sessions: some,
                notes,
            })?;
            some = Vec::new(alloc);
        }
    }
    Ok(jobs)
}

/// Plays a phase, each job on its own thread.
fn play_phase<N: HubName + Send + Sync, R: Threads + Wait + Sync>(
    rt: &R,
    alloc: Global,
    hub: &RowHub<N, &R>,
    users: &UserTable,
    jobs: Vec<Job<MapSession<N>>>,
    phase: &Phase<'_>,
) -> Result<Vec<Job<MapSession<N>>>, RowFault> {
    let played = map_vec(rt, jobs, &|job| play_job(rt, alloc, hub, users, job, phase))?;
    let mut jobs = Vec::new(alloc);
    for job in played {
        jobs.push(job?)?;
    }
    Ok(jobs)
}

fn add_told(all: &mut Vec<Told>, notes: Notes) -> Result<(), RowFault> {
    for told in notes.told {
        all.push(told)?;
    }
    Ok(())
}

/// All that the sessions were told, and how often they owed.
fn told_of<S: Drop>(alloc: Global, jobs: Vec<Job<S>>) -> Result<(Vec<Told>, u64), RowFault> {
    let mut all = Vec::new(alloc);
    let mut owed = 0_u64;
    for job in jobs {
        let Job { sessions: _, notes } = job;
        owed = owed.saturating_add(notes.owed);
        add_told(&mut all, notes)?;
    }
    Ok((all, owed))
}

/// The session of that number, where each job has so many.
fn session_at<'j, S: Drop>(jobs: &'j mut [Job<S>], number: u64, each: u64) -> Option<&'j mut S> {
    let job = jobs.get_mut(number.checked_div(each)? as usize)?;
    job.sessions.get_mut(number.checked_rem(each)? as usize)
}

/// Ends the sessions of those numbers, and answers how many ends didn't match.
fn end_all<N: HubName, R: Wait + Drop>(
    closer: &mut RowCloser<'_, N, R>,
    jobs: &mut [Job<MapSession<N>>],
    numbers: &[u64],
    each: u64,
) -> u64
    requires { length closer.old.ends.told + length numbers.now ≤ closer.old.ends.sessions }
{
    let mut unmatched = 0_u64;
    'numbers: for number in numbers {
        let is_matched = match session_at(jobs, *number, each) {
            Some(session) => closer.end(session) == End::Matched,
            None => false,
        };
        unmatched = unmatched.saturating_add(u64::from(!is_matched));
    }
    unmatched
}

/// Tells of each reply that isn't the row's, and counts them.
fn unwanted<R: Print>(rt: &R, told: &[Told]) -> u64 {
    let mut count = 0_u64;
    for told in told {
        if !told.is_wanted {
            count = count.saturating_add(1);
            let (status, body) = (told.reply.status, told.reply.body.as_slice());
            let _ = println!(rt;
                "wrong: session {}: {status} {}",
                told.session,
                body.escape_ascii()
            );
        }
    }
    count
}

/// What came of a row, by what its sessions were told, and by the journal and the ends of its hub.
fn judge<S: Drop, P: Print>(
    rt: &P,
    alloc: Global,
    users: &UserTable,
    jobs: Vec<Job<S>>,
    closing: &Closing<'_, MapMachine>,
    row: &Row<'_>,
    ends: Ends,
) -> Result<Outcome, RowFault> {
    let (told, owed) = told_of(alloc, jobs)?;
    let entries = closing.journal.len() as u64;
    let calls = told.len() as u64;
    let unwanted = unwanted(rt, told.as_slice());
    let astray = replay(alloc, users, told, &closing.journal)?;
    Ok(Outcome {
        calls,
        ends: closing.ends.len() as u64,
        unwanted,
        astray,
        late: ends.late,
        owed,
        unmatched: ends.unmatched,
        miscounted: row.entries.is_some_and(|wanted| wanted != entries),
    })
}

/// How many holds ran out of turns, and how many ends didn't match.
#[derive(Clone, Copy)]
struct Ends {
    late: u64,
    unmatched: u64,
}

/// Ends the sessions of a hub that no thread shares any more, and says what came of the row.
fn finish<N: HubName, R: Wait + Drop, P: Print>(
    rt: &P,
    alloc: Global,
    users: &UserTable,
    hub: &mut RowHub<N, R>,
    jobs: Result<Vec<Job<MapSession<N>>>, RowFault>,
    row: &Row<'_>,
) -> Result<Outcome, RowFault>
    requires open { hub.old ≡ Some (record { told = []; sessions = row.now.sessions }) }
    requires ends { vec_len row.now.ends ≤ row.now.sessions }
{
    let mut jobs = jobs?;
    let late = hub.gate().late();
    let mut closer = hub.close();
    let unmatched = end_all(
        &mut closer,
        jobs.as_mut_slice(),
        row.ends.as_slice(),
        u64::from(row.each),
    );
    let closing = closer.done();
    judge(
        rt,
        alloc,
        users,
        jobs,
        &closing,
        row,
        Ends { late, unmatched },
    )
}

/// Plays a phase, which is read first.
fn play_text<N: HubName + Send + Sync, R: Threads + Wait + Sync>(
    rt: &R,
    alloc: Global,
    hub: &RowHub<N, &R>,
    users: &UserTable,
    jobs: Vec<Job<MapSession<N>>>,
    text: &str,
) -> Result<Vec<Job<MapSession<N>>>, RowFault> {
    let phase = Phase::read(alloc, text)?;
    play_phase::<N, R>(rt, alloc, hub, users, jobs, &phase)
}

/// Plays the phases of a row, one after the other.
fn play_phases<N: HubName + Send + Sync, R: Threads + Wait + Sync>(
    rt: &R,
    alloc: Global,
    hub: &RowHub<N, &R>,
    users: &UserTable,
    sessions: Vec<MapSession<N>>,
    row: &Row<'_>,
) -> Result<Vec<Job<MapSession<N>>>, RowFault> {
    let mut jobs = jobs_of(alloc, sessions, row.each as usize)?;
    for text in row.phases.split("\n-- ") {
        jobs = play_text::<N, R>(rt, alloc, hub, users, jobs, text)?;
    }
    Ok(jobs)
}

/// Plays a row on a new hub of that name.
pub fn play_on<N: HubName + Send + Sync, R: Threads + Wait + Sync + Print>(
    rt: &R,
    alloc: Global,
    users: &UserTable,
    seats: Seats<Entry>,
    row: &Row<'_>,
) -> Result<Outcome, RowFault>
    requires book { seats.opened ≡ N.book }
    requires seated { seats.sessions ≡ N.sessions }
    requires sessions { seats.sessions ≡ row.now.sessions }
    requires ends { vec_len row.now.ends ≤ row.now.sessions }
{
    let gate = RowGate::new(alloc, row.sessions, row.holds.as_slice())?;
    let (mut hub, sessions) = RowHub::<N, &R>::new(alloc, rt, seats, gate)?;
    let jobs = play_phases::<N, R>(rt, alloc, &hub, users, sessions, row);
    finish::<N, &R, R>(rt, alloc, users, &mut hub, jobs, row)
}
