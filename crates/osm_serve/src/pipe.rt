//! The standard link, served by the one session of a new hub.
//!
//! `pipe` makes a hub of one session and closes it, so that the program has one way of serving.
//! What it costs beside one book stands in docs/FIGURES.md.
ghost use Rattle.std.specs.Prelude.{◌≡◌, ◌∷◌, [], vec_len, IfOk, OnErr};
ghost use Rattle.osm_model.specs.declared.commands.Entry.{Entry};
ghost use Rattle.map_machine.specs.Machine.{map_rules};
ghost use Rattle.api_desk.specs.HubDesk.{map_row};
ghost use Rattle.snapshot_hub.specs.Known.{Known};
ghost use Rattle.desk_serve.specs.Desks.{at_desk};
ghost use Rattle.desk_serve.specs.Link.{TellsLink, ServesPipe};

use crate::link::serve_link;
use api_desk::{HubDesk, MapHub, MapSession};
use desk_serve::points_are_consistent;
use http_link::LinkEnd;
use map_machine::MapMachine;
use osm_base::Memory;
use osm_model::Entry;
use osm_outside::{Link, NoGate, Outside};
use route_table::Routes;
use server_frame::link_left_alone;
use session_desk::HasSession;
use shared_front::HubName;
use snapshot_hub::Seats;
use std::alloc::Global;
use std::sync::Wait;
use user_table::UserTable;

/// Answers the requests of the link by the one session, which comes back. Want of memory leaves the
/// link alone.
fn serve_by_one<N: HubName, R: Wait, L: Link>(
    alloc: Global,
    rt: &R,
    hub: &MapHub<N, NoGate, &R>,
    users: &UserTable,
    mut sessions: Vec<MapSession<N>>,
    link: &mut L,
) -> Result<(Vec<MapSession<N>>, LinkEnd), Memory>
    requires { vec_len sessions ≡ 1 }
    ensures served { IfOk result (λ r. (old new : Known Entry) × (sessions.items ≡ old ∷ []) × (r.0.items ≡ new ∷ [])
        × TellsLink map_rules map_row (at_desk users.now old) (at_desk users.now new) (L.told link.old) (L.told link.new) r.1) }
    ensures err { OnErr result (L.told link.new ≡ L.told link.old) }
{
    let routes = Routes::new(alloc)?;
    let Some(session) = sessions.pop() else {
        unreachable!()
    };
    let mut desk = HubDesk::new(rt, hub, session, users, &routes);
    let end = serve_link(alloc, &mut desk, link);
    // It stood in that list, so there is room for it.
    sessions.push_reserved(desk.into_session());
    Ok((sessions, end))
}

/// Answers the requests of the link by the one session of a new hub under the name of these seats,
/// until the link ends. Then it closes the hub.
pub fn serve_pipe<N: HubName, R: Wait, L: Link>(
    alloc: Global,
    rt: &R,
    seats: Seats<Entry>,
    users: &UserTable,
    link: &mut L,
) -> LinkEnd
    requires named { seats.opened ≡ N.book }
    requires seated { seats.sessions ≡ N.sessions }
    requires one { seats.sessions ≡ 1 }
    ensures { ServesPipe map_rules map_row users.now (L.told link.old) (L.told link.new) result }
{
    // What the machine keeps, and what a link that is left alone is.
    points_are_consistent::<MapMachine>();
    link_left_alone();
    let Ok((mut hub, sessions)) = MapHub::<N, NoGate, &R>::new(alloc, rt, seats, NoGate) else {
        return LinkEnd::Memory;
    };
    match serve_by_one(alloc, rt, &hub, users, sessions, link) {
        Ok((sessions, end)) => {
            hub.close_with(rt, &sessions);
            end
        }
        Err(Memory) => LinkEnd::Memory,
    }
}
