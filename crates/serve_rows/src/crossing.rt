//! Two workers whose uploads cross: each is planned before the other is committed.
ghost use Rattle.std.specs.Prelude.{◌≡◌};

use crate::gates::{Come, Crossing, Hold};
use crate::ports::port;
use crate::replies::reply_of;
use crate::texts::{
    BOBS_CREATION, CREATION, DELETION, NODE_UPLOAD, OTHER_UPLOAD, SECOND_UPLOADED, UPLOADED, USED,
    USERS, WAY_UPLOAD, WAY_UPLOADED,
};
use api_desk::{HubDesk, MapHub, MapSession};
use http_link::LinkEnd;
use link_workers::{Service, Worker, serve_all};
use osm_base::Memory;
use osm_model::Entry;
use osm_outside::{Link, MemPort, Outside};
use osm_serve::serve_link;
use route_table::Routes;
use row_lines::Tally;
use session_desk::HasSession;
use shared_front::HubName;
use snapshot_hub::Seats;
use std::alloc::Global;
use std::marker::Brand;
use std::sync::Wait;
use std::thread::Threads;
use user_table::UserTable;

const OK: &str = "200 OK";

/// Session 1 creates its changeset behind session 0, plans its upload behind the other's plan, and
/// commits it before the other.
const UPLOADS_CROSS: [Hold; 3] = [
    Hold {
        session: 1,
        plan: 1,
        until: Come::Answered {
            session: 0,
            times: 1,
        },
    },
    Hold {
        session: 1,
        plan: 2,
        until: Come::Planned {
            session: 0,
            times: 2,
        },
    },
    Hold {
        session: 0,
        plan: 2,
        until: Come::Answered {
            session: 1,
            times: 2,
        },
    },
];

/// Session 1 creates its changeset once session 0 has its node, plans its way behind the plan of that
/// node's deletion, and commits it before the deletion.
const WAY_COMES_FIRST: [Hold; 3] = [
    Hold {
        session: 1,
        plan: 1,
        until: Come::Answered {
            session: 0,
            times: 2,
        },
    },
    Hold {
        session: 1,
        plan: 2,
        until: Come::Planned {
            session: 0,
            times: 3,
        },
    },
    Hold {
        session: 0,
        plan: 3,
        until: Come::Answered {
            session: 1,
            times: 2,
        },
    },
];

/// Serves each link by a desk of its own, which has the worker's session meanwhile.
#[derive(Drop)]
struct CrossingService<'a, N: HubName, R: Wait + Drop, W: Wait> {
    rt: &'a W,
    hub: &'a MapHub<N, Crossing, R>,
    users: &'a UserTable,
}

impl<'a, N: HubName + Send + Sync, R: Wait + Drop + Send + Sync, W: Wait + Sync> Service
    for CrossingService<'a, N, R, W> {
    ghost use Rattle.std.specs.Prelude.{⊤};

    type Session = Option<MapSession<N>>;

    ghost serves = { λ _ _ _ _ _ _. ⊤ };

    fn serve<V: Wait, L: Link>(
        &self,
        _rt: &V,
        alloc: Global,
        seat: &mut Option<MapSession<N>>,
        link: &mut L,
    ) -> LinkEnd {
        serve_at(self.rt, alloc, self.hub, self.users, seat, link)
    }
}

fn serve_at<N: HubName, R: Wait + Drop, W: Wait, L: Link>(
    rt: &W,
    alloc: Global,
    hub: &MapHub<N, Crossing, R>,
    users: &UserTable,
    seat: &mut Option<MapSession<N>>,
    link: &mut L,
) -> LinkEnd {
    let Ok(routes) = Routes::new(alloc) else {
        return LinkEnd::Memory;
    };
    let Some(session) = seat.take() else {
        return LinkEnd::Memory;
    };
    let mut desk = HubDesk::new(rt, hub, session, users, &routes);
    let end = serve_link(alloc, &mut desk, link);
    *seat = Some(desk.into_session());
    end
}

/// A request, and the status and the body of the reply that it must get.
#[derive(Clone, Copy)]
struct Turn {
    sent: &'static str,
    status: &'static str,
    body: &'static str,
}

/// Both sessions upload a node to their changesets. That of session 1 comes first.
const FIRST_UPLOADS: [Turn; 2] = [
    Turn {
        sent: CREATION,
        status: OK,
        body: "1",
    },
    Turn {
        sent: NODE_UPLOAD,
        status: OK,
        body: SECOND_UPLOADED,
    },
];

const SECOND_UPLOADS: [Turn; 2] = [
    Turn {
        sent: CREATION,
        status: OK,
        body: "2",
    },
    Turn {
        sent: OTHER_UPLOAD,
        status: OK,
        body: UPLOADED,
    },
];

/// Session 0 makes a node and deletes it. A way of session 1 has come to list it meanwhile.
const FIRST_DELETES: [Turn; 3] = [
    Turn {
        sent: CREATION,
        status: OK,
        body: "1",
    },
    Turn {
        sent: NODE_UPLOAD,
        status: OK,
        body: UPLOADED,
    },
    Turn {
        sent: DELETION,
        status: "412 Precondition Failed",
        body: USED,
    },
];

const SECOND_LISTS: [Turn; 2] = [
    Turn {
        sent: BOBS_CREATION,
        status: OK,
        body: "2",
    },
    Turn {
        sent: WAY_UPLOAD,
        status: OK,
        body: WAY_UPLOADED,
    },
];

/// What must be written on the link of these turns.
fn wanted(alloc: Global, turns: &[Turn]) -> Result<String, Memory> {
    let mut text = String::new(alloc);
    for turn in turns {
        let reply = reply_of(alloc, turn.status, turn.body, false)?;
        text.push_str(reply.as_str())?;
    }
    Ok(text)
}

/// Whether the one link of the port got what it must.
fn got(alloc: Global, port: &MemPort, turns: &[Turn]) -> Result<bool, Memory> {
    let wanted = wanted(alloc, turns)?;
    let served = port.served();
    let is_right = served.len() == 1
        && served
            .iter()
            .all(|link| link.written() == wanted.as_bytes());
    Ok(is_right)
}

/// The turns of a session.
fn turns_of<'t>(talks: &[&'t [Turn]], session: usize) -> &'t [Turn] {
    talks.get(session).copied().unwrap_or(&[])
}

fn all_got(alloc: Global, ports: &[MemPort], talks: &[&[Turn]]) -> Result<bool, Memory> {
    for (session, port) in ports.iter().enumerate() {
        if !got(alloc, port, turns_of(talks, session))? {
            return Ok(false);
        }
    }
    Ok(ports.len() == talks.len())
}

/// The ports of workers, in their order.
fn ports_of<S: Drop, P: Drop>(alloc: Global, workers: Vec<Worker<S, P>>) -> Result<Vec<P>, Memory> {
    let mut ports = Vec::new(alloc);
    for worker in workers {
        ports.push(worker.port)?;
    }
    Ok(ports)
}

/// A port with one link, which sends the requests of these turns.
fn port_of(alloc: Global, turns: &[Turn]) -> Result<MemPort, Memory> {
    let mut sent = Vec::new(alloc);
    for turn in turns {
        sent.push(turn.sent)?;
    }
    port(alloc, 1, sent.as_slice(), &[])
}

/// A worker for each session, with one link.
fn seats_of<N: HubName, R: Wait + Drop>(
    alloc: Global,
    _hub: &MapHub<N, Crossing, R>,
    sessions: Vec<MapSession<N>>,
    talks: &[&[Turn]],
) -> Result<Vec<Worker<Option<MapSession<N>>, MemPort>>, Memory> {
    let mut workers = Vec::new(alloc);
    for session in sessions {
        let port = port_of(alloc, turns_of(talks, workers.len()))?;
        workers.push(Worker {
            session: Some(session),
            port,
            failed: false,
        })?;
    }
    Ok(workers)
}

/// What came of two sessions that crossed.
#[derive(Clone, Copy)]
struct Crossed {
    /// Whether each link got what it must.
    is_right: bool,
    /// Whether no wait ran out of turns.
    is_in_time: bool,
}

/// Serves the links of the workers, each on a thread of its own.
fn serve_workers<N: HubName + Send + Sync, R: Threads + Wait + Sync>(
    rt: &R,
    alloc: Global,
    hub: &MapHub<N, Crossing, &R>,
    users: &UserTable,
    workers: &mut [Worker<Option<MapSession<N>>, MemPort>],
) {
    let service = CrossingService { rt, hub, users };
    serve_all(rt, alloc, &service, workers);
}

/// Whether the workers' links got what they must.
fn have_got<S: Drop>(
    alloc: Global,
    workers: Vec<Worker<S, MemPort>>,
    talks: &[&[Turn]],
) -> Result<bool, Memory> {
    let ports = ports_of(alloc, workers)?;
    all_got(alloc, ports.as_slice(), talks)
}

/// Serves a link for each session, and answers whether each got what it must.
fn cross_on<N: HubName + Send + Sync, R: Threads + Wait + Sync>(
    rt: &R,
    alloc: Global,
    hub: &MapHub<N, Crossing, &R>,
    users: &UserTable,
    sessions: Vec<MapSession<N>>,
    talks: &[&[Turn]],
) -> Result<bool, Memory> {
    let mut workers = seats_of(alloc, hub, sessions, talks)?;
    serve_workers(rt, alloc, hub, users, workers.as_mut_slice());
    have_got(alloc, workers, talks)
}

fn crossed_of(got: Result<bool, Memory>, is_in_time: bool) -> Result<Crossed, Memory> {
    Ok(Crossed {
        is_right: got?,
        is_in_time,
    })
}

/// Has the sessions of a new hub cross.
fn cross<N: HubName + Send + Sync, R: Threads + Wait + Sync>(
    rt: &R,
    alloc: Global,
    users: &UserTable,
    seats: Seats<Entry>,
    holds: [Hold; 3],
    talks: &[&[Turn]],
) -> Result<Crossed, Memory>
    requires named { seats.opened ≡ N.book }
    requires seated { seats.sessions ≡ N.sessions }
{
    let (hub, sessions) = MapHub::<N, Crossing, &R>::new(alloc, rt, seats, Crossing::new(holds))?;
    let got = cross_on(rt, alloc, &hub, users, sessions, talks);
    crossed_of(got, hub.gate().is_in_time())
}

fn cross_with_users<R: Threads + Wait + Sync>(
    rt: &R,
    alloc: Global,
    holds: [Hold; 3],
    talks: &[&[Turn]],
) -> Result<Crossed, Memory> {
    match UserTable::read(alloc, USERS.as_bytes()) {
        Ok(users) => cross::<Brand, R>(rt, alloc, &users, Seats::new(2), holds, talks),
        Err(_) => Ok(Crossed {
            is_right: false,
            is_in_time: true,
        }),
    }
}

/// A wait that ran out of turns is a row of its own.
fn note<R: Print>(rt: &R, tally: &mut Tally, names: [&str; 2], crossed: Result<Crossed, Memory>) {
    let (right, in_time) = match crossed {
        Ok(crossed) => (Ok(crossed.is_right), Ok(crossed.is_in_time)),
        Err(Memory) => (Err(Memory), Err(Memory)),
    };
    tally.note(rt, names[0], right);
    tally.note(rt, names[1], in_time);
}

pub fn play<R: Threads + Wait + Sync + Print>(rt: &R, alloc: Global, tally: &mut Tally) {
    let talks = [FIRST_UPLOADS.as_slice(), SECOND_UPLOADS.as_slice()];
    let uploads = cross_with_users(rt, alloc, UPLOADS_CROSS, talks.as_slice());
    let names = [
        "two uploads that cross",
        "two uploads that cross: each wait is within its turns",
    ];
    note(rt, tally, names, uploads);
    let talks = [FIRST_DELETES.as_slice(), SECOND_LISTS.as_slice()];
    let way = cross_with_users(rt, alloc, WAY_COMES_FIRST, talks.as_slice());
    let names = [
        "a delete of a node that a way came to list",
        "a delete of a node that a way came to list: each wait is within its turns",
    ];
    note(rt, tally, names, way);
}
