//! The events of a load.
//!
//! A load becomes events only where each of its requests asks for a command. `events` reads each
//! request as the desk would; that one asks for none is a fault of its own, `NoCommand`, since no
//! proof shows yet that it can't be. The run of seed 1 shows that its 1,003 requests all do.
ghost use Rattle.std.specs.Prelude.{◌≡◌, ◌++◌, ◌<◌, ◌≤◌, [], IfOk, OnOk, MatchResult};
ghost use Rattle.osm_base.specs.declared.limits.TheConstants.{SESSION_LIMIT};
ghost use Rattle.api_desk.specs.Request.{request_of};
ghost use Rattle.api_desk.specs.Loads.{GivesCommand, GivesWork, events_by, AreEventsOf, FailsBy, AreEvents, FailsAt};

use crate::load_faults::LoadFault;
use crate::requests::{Request, request_of};
use desk_parts::RequestFault;
use http_wire::{Message, whole_message};
use hub_core::Event;
use map_machine::Asked;
use osm_base::{Bytes, Memory, SESSION_LIMIT};
use osm_model::Query;
use route_table::Routes;
use std::alloc::Global;
use user_table::UserTable;
use workload::{Load, Sent, users_of_load};

/// The moment of every commit, in seconds since 1970: 2023-11-14T22:13:20Z.
const MOMENT: u64 = 1_700_000_000;

/// How many events a request gives.
const EVENTS_EACH: usize = 3;

/// The command that a message asks for.
fn work_in(
    alloc: Global,
    message: &Message,
    routes: &Routes,
    users: &UserTable,
) -> Result<Asked, LoadFault>
    ensures { GivesWork (request_of users.now message.now) result }
{
    match request_of(alloc, message, routes, users) {
        Ok(Request::Change(asked)) => Ok(asked),
        Ok(Request::Read(_)) => Err(LoadFault::NoCommand),
        Ok(Request::Feed(_)) => Err(LoadFault::NoCommand),
        Err(RequestFault::Refused(_)) => Err(LoadFault::NoCommand),
        Err(RequestFault::Memory) => Err(LoadFault::Memory),
    }
}

/// The command that bytes ask for.
fn command_in(
    alloc: Global,
    bytes: Bytes,
    routes: &Routes,
    users: &UserTable,
) -> Result<Asked, LoadFault>
    ensures { GivesCommand users.now bytes result }
{
    match whole_message(alloc, bytes)? {
        Some(message) => work_in(alloc, &message, routes, users),
        None => Err(LoadFault::NoCommand),
    }
}

/// Adds that a session plans and commits a command, and that the journal is published.
fn add_events(
    events: &mut Vec<Event<Asked, Query>>,
    session: u32,
    command: Asked,
) -> Result<(), Memory>
    ensures { OnOk result (events.new.items ≡ events.old.items ++ events_by session command) }
{
    events.push(Event::Plan { session, command })?;
    events.push(Event::Commit {
        session,
        moment: MOMENT,
    })?;
    events.push(Event::Publish)?;
    Ok(())
}

/// The events of what is left of a load.
fn events_in(
    alloc: Global,
    load: Load,
    routes: &Routes,
    users: &UserTable,
) -> Result<Vec<Event<Asked, Query>>, LoadFault>
    ensures { MatchResult result (λ events. AreEventsOf users.now load events.items) (FailsBy users.now load) }
{
    let mut load = load;
    let mut events = room_for(alloc, load.len())?;
    'requests: while let Some(sent) = load.next_request(alloc)? {
        let Sent { session, bytes } = sent;
        let command = command_in(alloc, bytes, routes, users)?;
        add_events(&mut events, session, command)?;
    }
    Ok(events)
}

/// No event yet, and room for those of so many requests.
fn room_for(alloc: Global, requests: usize) -> Result<Vec<Event<Asked, Query>>, Memory>
    ensures { IfOk result (λ events. events.items ≡ []) }
{
    Ok(Vec::with_capacity(alloc, requests.saturating_mul(EVENTS_EACH))?)
}

/// The events of what is left of a load, with a table of the routes.
fn events_of(
    alloc: Global,
    load: Load,
    users: &UserTable,
) -> Result<Vec<Event<Asked, Query>>, LoadFault>
    ensures { MatchResult result (λ events. AreEventsOf users.now load events.items) (FailsBy users.now load) }
{
    let routes = Routes::new(alloc)?;
    events_in(alloc, load, &routes, users)
}

/// The events of the load of a seed, to be interleaved on one book: for each request in order, its
/// session plans the command that the request asks for and commits it at 1700000000 seconds since
/// 1970, and the journal is published.
pub fn events(
    alloc: Global,
    seed: u64,
    sessions: u32,
    uploads: u32,
) -> Result<Vec<Event<Asked, Query>>, LoadFault>
    requires some { 0 < sessions }
    requires few { sessions ≤ SESSION_LIMIT }
    ensures { MatchResult result (λ events. AreEvents seed sessions uploads events.items) (FailsAt seed sessions uploads) }
{
    let users = users_of_load(alloc, sessions)?;
    events_of(alloc, Load::new(seed, sessions, uploads), &users)
}
