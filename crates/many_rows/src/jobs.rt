//! What a thread does: the lines of a phase that are of its sessions, each by a desk.
use crate::gates::RowGate;
use crate::notes::{Notes, Told, is_wanted, point_of};
use crate::rows::{Phase, Step};
use api_desk::{HubDesk, MapHub, MapSession};
use http_link::{Desk, Reply};
use http_wire::whole_message;
use osm_base::{Bytes, SESSION_LIMIT};
use route_table::Routes;
use row_lines::{RowFault, number};
use session_desk::HasSession;
use shared_front::HubName;
use std::alloc::Global;
use std::sync::Wait;
use user_table::UserTable;
use workload::requests;

/// The moment of each request, in seconds since 1970: 2023-11-14T22:13:20Z.
pub const MOMENT: u64 = 1_700_000_000;

const SEED: u64 = 1;

pub type RowHub<N, R> = MapHub<N, RowGate, R>;

type RowDesk<'h, N, R, W> = HubDesk<'h, N, RowGate, R, W>;

/// Sessions of a thread, and its notes.
#[derive(Drop)]
pub struct Job<S: Drop> {
    pub sessions: Vec<S>,
    pub notes: Notes,
}

/// How many calls a session had, and how many entries it had seen.
#[derive(Clone, Copy)]
struct Before {
    calls: u64,
    seen: u64,
}

/// The reply to the message that the bytes are.
fn reply_to<N: HubName, R: Wait + Drop, W: Wait>(
    alloc: Global,
    desk: &mut RowDesk<'_, N, R, W>,
    bytes: Bytes,
) -> Result<Reply, RowFault> {
    match whole_message(alloc, bytes)? {
        Some(message) => Ok(desk.answer(alloc, message, MOMENT)?),
        None => Err(RowFault::Unread),
    }
}

/// What the session of a desk was told by a reply to these bytes.
fn told_by<N: HubName, R: Wait + Drop, W: Wait>(
    desk: &RowDesk<'_, N, R, W>,
    before: Before,
    bytes: Bytes,
    reply: Reply,
    wanted: Option<&str>,
) -> Told {
    let session = desk.session();
    let accepted = u64::from(session.calls() > before.calls);
    let point = point_of(&reply, before.seen, session.seen());
    Told {
        session: session.number(),
        place: point.saturating_mul(2).saturating_sub(accepted),
        bytes,
        is_wanted: is_wanted(&reply, wanted),
        reply,
    }
}

/// Sends bytes to a desk, and notes what it is told.
fn send<N: HubName, R: Wait + Drop, W: Wait>(
    alloc: Global,
    desk: &mut RowDesk<'_, N, R, W>,
    notes: &mut Notes,
    bytes: Bytes,
    wanted: Option<&str>,
) -> Result<Told, RowFault> {
    let before = Before {
        calls: desk.session().calls(),
        seen: desk.session().seen(),
    };
    let kept = Bytes::of(alloc, bytes.as_slice())?;
    let reply = reply_to(alloc, desk, bytes)?;
    if desk.session().owes() || desk.session().debts() > 0 {
        notes.owed = notes.owed.saturating_add(1);
    }
    Ok(told_by(desk, before, kept, reply, wanted))
}

/// Sends the request of a line, by the desk at that place.
fn ask<N: HubName, R: Wait + Drop, W: Wait>(
    alloc: Global,
    desk: &mut RowDesk<'_, N, R, W>,
    notes: &mut Notes,
    place: usize,
    step: &Step<'_>,
    time: u64,
) -> Result<(), RowFault> {
    let mut bytes = Vec::new(alloc);
    notes.add_bytes(alloc, &mut bytes, place, step.request, time)?;
    let told = send(alloc, desk, notes, Bytes::from_vec(bytes), step.wanted)?;
    notes.add(place, step.request, told)
}

/// Sends the requests of a load of so many uploads, each by the desk of its session.
fn send_load<N: HubName, R: Wait + Drop, W: Wait>(
    alloc: Global,
    desks: &mut [RowDesk<'_, N, R, W>],
    notes: &mut Notes,
    uploads: u32,
    wanted: Option<&str>,
) -> Result<(), RowFault> {
    let sessions = u32::try_from(desks.len()).unwrap_or(u32::MAX);
    if sessions == 0 || sessions > SESSION_LIMIT {
        return Err(RowFault::Unread);
    }
    for sent in requests(alloc, SEED, sessions, uploads)? {
        let Some(desk) = desks.get_mut(sent.session as usize) else {
            return Err(RowFault::Unread);
        };
        let told = send(alloc, desk, notes, sent.bytes, wanted)?;
        notes.told.push(told)?;
    }
    Ok(())
}

/// Plays a line in a round.
fn play_step<N: HubName, R: Wait + Drop, W: Wait>(
    alloc: Global,
    desks: &mut [RowDesk<'_, N, R, W>],
    notes: &mut Notes,
    step: &Step<'_>,
    round: u64,
) -> Result<(), RowFault> {
    if let Some(uploads) = step.request.strip_prefix("load ") {
        let uploads = u32::try_from(number(uploads)?).unwrap_or(u32::MAX);
        return send_load(alloc, desks, notes, uploads, step.wanted);
    }
    for (place, desk) in desks.iter_mut().enumerate() {
        if step.is_of(notes.first.saturating_add(place as u64)) {
            for time in 1..=step.times {
                let time = round.saturating_mul(step.times).saturating_add(time);
                ask(alloc, desk, notes, place, step, time)?;
            }
        }
    }
    Ok(())
}

fn play_rounds<N: HubName, R: Wait + Drop, W: Wait>(
    alloc: Global,
    desks: &mut [RowDesk<'_, N, R, W>],
    notes: &mut Notes,
    phase: &Phase<'_>,
) -> Result<(), RowFault> {
    for round in 0..phase.rounds {
        for step in &phase.steps {
            play_step(alloc, desks, notes, step, round)?;
        }
    }
    Ok(())
}

/// A desk for each session, in their order, over one table of routes.
fn desks_of<'a, N: HubName, R: Wait + Drop, W: Wait>(
    rt: &'a W,
    alloc: Global,
    hub: &'a RowHub<N, R>,
    users: &'a UserTable,
    routes: &'a Routes,
    sessions: Vec<MapSession<N>>,
) -> Result<Vec<RowDesk<'a, N, R, W>>, RowFault> {
    let mut desks = Vec::new(alloc);
    for session in sessions {
        desks.push(HubDesk::new(rt, hub, session, users, routes))?;
    }
    Ok(desks)
}

/// The sessions of these desks, in their order.
fn sessions_of<N: HubName, R: Wait + Drop, W: Wait>(
    alloc: Global,
    desks: Vec<RowDesk<'_, N, R, W>>,
) -> Result<Vec<MapSession<N>>, RowFault> {
    let mut sessions = Vec::new(alloc);
    for desk in desks {
        sessions.push(desk.into_session())?;
    }
    Ok(sessions)
}

/// Plays the lines of a phase that are of the job's sessions, at desks over one table of routes.
fn play_over<'a, N: HubName, R: Wait + Drop, W: Wait>(
    rt: &'a W,
    alloc: Global,
    hub: &'a RowHub<N, R>,
    users: &'a UserTable,
    routes: &'a Routes,
    job: Job<MapSession<N>>,
    phase: &Phase<'_>,
) -> Result<Job<MapSession<N>>, RowFault> {
    let Job {
        sessions,
        mut notes,
    } = job;
    let mut desks = desks_of(rt, alloc, hub, users, routes, sessions)?;
    play_rounds(alloc, desks.as_mut_slice(), &mut notes, phase)?;
    let sessions = sessions_of(alloc, desks)?;
    Ok(Job { sessions, notes })
}

/// Plays the lines of a phase that are of the job's sessions.
pub fn play_job<N: HubName, R: Wait + Drop, W: Wait>(
    rt: &W,
    alloc: Global,
    hub: &RowHub<N, R>,
    users: &UserTable,
    job: Job<MapSession<N>>,
    phase: &Phase<'_>,
) -> Result<Job<MapSession<N>>, RowFault> {
    let routes = Routes::new(alloc)?;
    play_over(rt, alloc, hub, users, &routes, job, phase)
}
