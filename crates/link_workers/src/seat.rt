//! Workers made of sessions and ports, and taken apart again.
//!
//! Workers are made and taken apart by lists that are emptied and filled again. The room is taken
//! before the first port is moved, and the ports come back without memory, so a port is never lost
//! to the want of it.
ghost use Rattle.std.specs.Prelude.{◌≡◌, ◌≤◌, ◌+◌, ◌++◌, [], vec_len, vec_capacity, IfOk, OnOk, OnErr};
ghost use Rattle.link_workers.specs.Seats.{ports_of, seated, sessions_of};

use crate::worker::Worker;
use osm_base::Memory;
use std::alloc::Global;

/// Seats each session on the port of the same number. The memory is taken first: where there is none, sessions and ports stay.
/// Otherwise both lists are left empty, with the room for `unseat_all` to give all of them back.
pub fn seat_all<S: Drop, P: Drop>(
    alloc: Global,
    sessions: &mut Vec<S>,
    ports: &mut Vec<P>,
) -> Result<Vec<Worker<S, P>>, Memory>
    requires { vec_len sessions.old ≡ vec_len ports.old }
    ensures workers { IfOk result (λ workers. workers.items ≡ seated sessions.old.items ports.old.items) }
    ensures count { IfOk result (λ workers. vec_len workers ≡ vec_len ports.old) }
    ensures emptied { OnOk result ((sessions.new.items ≡ []) × (ports.new.items ≡ [])) }
    ensures sessions_room { IfOk result (λ workers. vec_len sessions.new + vec_len workers ≤ vec_capacity sessions.new) }
    ensures ports_room { IfOk result (λ workers. vec_len ports.new + vec_len workers ≤ vec_capacity ports.new) }
    ensures err { OnErr result ((sessions.new.items ≡ sessions.old.items) × (ports.new.items ≡ ports.old.items)) }
{
    let mut workers = Vec::with_capacity(alloc, sessions.len())?;
    sessions.reverse();
    ports.reverse();
    'seats: while let Some(session) = sessions.pop() {
        let Some(port) = ports.pop() else {
            unreachable!()
        };
        workers.push_reserved(Worker {
            session,
            port,
            failed: false,
        });
    }
    Ok(workers)
}

/// Puts the sessions and the ports of the workers behind those of two lists, in order. It takes no memory.
pub fn unseat_all<S: Drop, P: Drop>(
    mut workers: Vec<Worker<S, P>>,
    sessions: &mut Vec<S>,
    ports: &mut Vec<P>,
)
    requires sessions_room { vec_len sessions.old + vec_len workers ≤ vec_capacity sessions.old }
    requires ports_room { vec_len ports.old + vec_len workers ≤ vec_capacity ports.old }
    ensures sessions { sessions.new.items ≡ sessions.old.items ++ sessions_of workers.items }
    ensures ports { ports.new.items ≡ ports.old.items ++ ports_of workers.items }
    ensures count { vec_len ports.new ≡ vec_len ports.old + vec_len workers }
{
    workers.reverse();
    'workers: while let Some(worker) = workers.pop() {
        let Worker {
            session,
            port,
            failed: _,
        } = worker;
        sessions.push_reserved(session);
        ports.push_reserved(port);
    }
}
