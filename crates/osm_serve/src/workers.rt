//! Many workers over one new hub of the map.
//!
//! `serve_ports` makes the hub, seats the workers and closes the hub, by the seats, the users and
//! the ports: what holds a hub can't be passed on by value in generic code, and whoever makes one
//! has to be generic in its name. Its clause has one list, which begins with all that each session
//! has seen and with the closing journal. The ports come back in the list in which they came, also
//! where memory is missing before the first link.
//!
//! These functions stand here beside those of desk_serve: what they come to is defined there alone.
ghost use Rattle.std.specs.Prelude.{◌≡◌, ◌+◌, ◌++◌, ◌≤◌, ℕ, List, map, vec_len, vec_capacity, IfOk, OnErr};
ghost use Rattle.map_machine.specs.Machine.{map_rules};
ghost use Rattle.api_desk.specs.HubDesk.{map_row};
ghost use Rattle.snapshot_hub.specs.Known.{newcomer};
ghost use Rattle.link_workers.specs.Workers.{AllWork};
ghost use Rattle.desk_serve.specs.Desks.{at_desk};
ghost use Rattle.desk_serve.specs.Link.{TellsLink};
ghost use Rattle.desk_serve.specs.Ports.{HaveServed, ServesPorts};

use crate::link::serve_link;
use api_desk::{HubDesk, MapHub, MapSession};
use desk_serve::points_are_consistent;
use http_link::LinkEnd;
use link_workers::{Outcome, Service, Worker, any_failed, seat_all, serve_all, unseat_all};
use map_machine::MapMachine;
use osm_base::Memory;
use osm_model::Entry;
use osm_outside::{Gate, Link, NoGate, Outside, Port, PortOutside};
use route_table::Routes;
use session_desk::HasSession;
use shared_front::HubName;
use snapshot_hub::Seats;
use std::alloc::Global;
use std::sync::Wait;
use std::thread::Threads;
use user_table::UserTable;

/// The service of all workers: each has a desk of its own, with its session of the hub.
#[derive(Drop)]
pub struct MapService<'a, N: HubName, G: Gate + Drop, R: Wait + Drop, W: Wait> {
    rt: &'a W,
    hub: &'a MapHub<N, G, R>,
}

impl<
    'a,
    N: HubName + Send + Sync,
    G: Gate + Drop + Send + Sync,
    R: Wait + Drop + Send + Sync,
    W: Wait + Sync,
> Service for MapService<'a, N, G, R, W> {
    ghost use Rattle.map_machine.specs.Machine.{map_rules};
    ghost use Rattle.api_desk.specs.HubDesk.{map_row};
    ghost use Rattle.desk_serve.specs.Link.{TellsLink};

    type Session = HubDesk<'a, N, G, R, W>;

    ghost serves = { λ _ old new before after end. TellsLink map_rules map_row old new before after end };

    fn serve<V: Wait, L: Link>(
        &self,
        _rt: &V,
        alloc: Global,
        desk: &mut HubDesk<'a, N, G, R, W>,
        link: &mut L,
    ) -> LinkEnd {
        serve_link(alloc, desk, link)
    }
}

/// A desk for each session, in their order.
fn desks_of<'a, N: HubName, R: Wait + Drop, W: Wait>(
    alloc: Global,
    rt: &'a W,
    hub: &'a MapHub<N, NoGate, R>,
    users: &'a UserTable,
    routes: &'a Routes,
    mut sessions: Vec<MapSession<N>>,
) -> Result<Vec<HubDesk<'a, N, NoGate, R, W>>, Memory>
    ensures { IfOk result (λ desks. desks.items ≡ map (at_desk users.now) sessions.items) }
{
    let mut desks = Vec::with_capacity(alloc, sessions.len())?;
    sessions.reverse();
    'sessions: while let Some(session) = sessions.pop() {
        desks.push(HubDesk::new(rt, hub, session, users, routes))?;
    }
    Ok(desks)
}

/// Puts the sessions of the desks into a list that has room for them, in their order.
fn leave_desks<N: HubName, R: Wait + Drop, W: Wait>(
    mut desks: Vec<HubDesk<'_, N, NoGate, R, W>>,
    sessions: &mut Vec<MapSession<N>>,
)
    requires { vec_len sessions.old + vec_len desks ≤ vec_capacity sessions.old }
    ensures sessions { sessions.new.items ≡ sessions.old.items ++ map (λ desk. desk.known) desks.entry.items }
    ensures count { vec_len sessions.new ≡ vec_len sessions.old + vec_len desks.entry }
{
    desks.reverse();
    'desks: while let Some(desk) = desks.pop() {
        sessions.push_reserved(desk.into_session());
    }
}

/// Serves the links of each worker's port, in a thread of its own.
fn serve_desks<
    'a,
    N: HubName + Send + Sync,
    R: Threads + Wait + Sync,
    Q: Wait + Drop + Send + Sync,
    P: Port + Send,
>(
    rt: &'a R,
    alloc: Global,
    hub: &'a MapHub<N, NoGate, Q>,
    workers: &mut [Worker<HubDesk<'a, N, NoGate, Q, R>, P>],
)
    ensures { AllWork (TellsLink map_rules map_row) P.told workers.old workers.new }
{
    serve_all(rt, alloc, &MapService { rt, hub }, workers);
}

/// Serves the links of each port by the session of its number, and says whether accepting failed at
/// one. The sessions come back in their order. Want of memory leaves the ports as they were.
fn serve_by<N: HubName + Send + Sync, R: Threads + Wait + Sync, P: Port + Drop + Send>(
    rt: &R,
    alloc: Global,
    hub: &MapHub<N, NoGate, &R>,
    users: &UserTable,
    sessions: Vec<MapSession<N>>,
    ports: &mut Vec<P>,
) -> Result<(Vec<MapSession<N>>, bool), Memory>
    requires { vec_len sessions ≡ vec_len ports.old }
    ensures served { (numbers : List ℕ) → sessions.items ≡ map newcomer numbers → IfOk result (λ r. HaveServed map_rules map_row users.now numbers r.0.items
        (map P.told ports.old.items) (map P.told ports.new.items) r.1) }
    ensures left { IfOk result (λ r. vec_len r.0 ≡ vec_len sessions) }
    ensures count { IfOk result (λ r. vec_len ports.new ≡ vec_len ports.old) }
    ensures err { OnErr result (ports.new.items ≡ ports.old.items) }
{
    let mut left = Vec::with_capacity(alloc, sessions.len())?;
    let routes = Routes::new(alloc)?;
    let mut desks = desks_of(alloc, rt, hub, users, &routes, sessions)?;
    let mut workers = seat_all(alloc, &mut desks, ports)?;
    serve_desks(rt, alloc, hub, workers.as_mut_slice());
    let failed = any_failed(workers.as_slice());
    unseat_all(workers, &mut desks, ports);
    leave_desks(desks, &mut left);
    Ok((left, failed))
}

/// Serves the links of the ports by the sessions of a new hub under the name of these seats, one
/// worker a port, each in a thread of its own, until no port has a link to come or accepting fails.
/// Then it closes the hub. The ports come back in their order.
pub fn serve_ports<N: HubName + Send + Sync, R: Threads + Wait + Sync, P: Port + Drop + Send>(
    rt: &R,
    alloc: Global,
    seats: Seats<Entry>,
    users: &UserTable,
    ports: &mut Vec<P>,
) -> Outcome
    requires named { seats.opened ≡ N.book }
    requires seated { seats.sessions ≡ N.sessions }
    requires count { seats.sessions ≡ vec_len ports.old }
    ensures serves { ServesPorts map_rules map_row users.now (map P.told ports.old.items) (map P.told ports.new.items) result }
    ensures count { vec_len ports.new ≡ vec_len ports.old }
{
    // What the machine keeps.
    points_are_consistent::<MapMachine>();
    let Ok((mut hub, sessions)) = MapHub::<N, NoGate, &R>::new(alloc, rt, seats, NoGate) else {
        return Outcome::LacksMemory;
    };
    match serve_by(rt, alloc, &hub, users, sessions, ports) {
        Ok((sessions, failed)) => {
            hub.close_with(rt, &sessions);
            if failed {
                Outcome::Failed
            } else {
                Outcome::Served
            }
        }
        Err(Memory) => Outcome::LacksMemory,
    }
}
