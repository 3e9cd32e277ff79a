//! A desk of the map for one session of a hub.
//!
//! The gate is told of a reply to a command or a query, also where that is want of memory, and not
//! of a message that is neither.
ghost use Rattle.std.specs.Prelude.{◌≡◌, ◌<◌, ℕ, true, IfOk};
ghost use Rattle.osm_base.specs.Status.{IsStatus};
ghost use Rattle.osm_element.specs.Elements.{IsConsistent};
ghost use Rattle.osm_model.specs.Answered.{map_at};
ghost use Rattle.osm_model.specs.Journal.{is_legal_from};
ghost use Rattle.osm_model.specs.State.{empty};
ghost use Rattle.http_wire.specs.declared.message.Message.{Message};
ghost use Rattle.http_link.specs.Desk.{counted_reply};
ghost use Rattle.user_table.specs.Users.{Users};
ghost use Rattle.session_desk.specs.Steps.{told};
ghost use Rattle.desk_parts.specs.Replies.{TellsStatus};
ghost use Rattle.api_desk.specs.Gives.{shown_request};
ghost use Rattle.api_desk.specs.MachineRows.{TellsBytes};
ghost use Rattle.api_desk.specs.Request.{request_of};
ghost use Rattle.api_desk.specs.HubDesk.{MapReplies, AllowsMap};

use crate::answers::refuse;
use crate::hub_feed::answer_feed;
use crate::requests::{Request, request_of};
use desk_parts::reply_from;
use http_link::{AlwaysTells, Desk, Reply, Withheld};
use http_wire::Message;
use map_machine::{MapMachine, fronts_are_the_maps};
use osm_base::{Bytes, Memory, Steps};
use osm_model::Entry;
use osm_outside::{Gate, Point, Witness};
use route_table::Routes;
use session_desk::{HasSession, SessionDesk, behind, command_bytes, freshen, query_bytes};
use shared_front::{FoundFront, Front, HubName};
use snapshot_hub::{Hub, Session, Shown, Snapshot};
use std::alloc::Global;
use std::marker::{Brand, Model};
use std::sync::Wait;
use std::sync::ledger::{Blank, Ledger};
use user_table::UserTable;

/// A hub of the map.
pub type MapHub<N, G, R> = Hub<N, MapMachine, Shown<N, MapMachine>, G, R>;

/// A session of it.
pub type MapSession<N> = Session<N, MapMachine, Shown<N, MapMachine>>;

/// The reply that tells the bytes of an answer. It takes no memory, so a command that stands and is
/// published has its own reply.
fn reply_told(answer: Result<Bytes, Memory>) -> Result<Reply, Memory>
    requires { IfOk answer TellsStatus }
    ensures tells { TellsBytes (told answer) (counted_reply result) }
    ensures status { IfOk result (λ reply. IsStatus reply.status) }
{
    match answer {
        Ok(bytes) => Ok(reply_from(bytes)),
        Err(memory) => Err(memory),
    }
}

/// The reply to a request.
fn answer_request<N: HubName, G: Gate + Drop, R: Wait + Drop, W: Wait, L: Ledger>(
    rt: &W,
    hub: &MapHub<N, G, R>,
    session: &mut MapSession<N>,
    alloc: Global,
    request: Request,
    moment: u64,
    steps: &mut Steps<L>,
) -> Result<Reply, Memory>
    ensures answers { (users : Users) (message : Message) → request_of users message ≡ shown_request request
        → MapReplies users session.old message moment (counted_reply result) session.new }
    ensures status { IfOk result (λ reply. IsStatus reply.status) }
{
    match request {
        Request::Change(asked) => {
            let answer = command_bytes(rt, hub, session, asked, moment, steps);
            reply_told(answer)
        }
        Request::Read(query) => {
            let answer = query_bytes(rt, hub, session, &query, moment, steps);
            reply_told(answer)
        }
        Request::Feed(call) => answer_feed(rt, hub, session, alloc, call),
    }
}

/// A law: the front of a session is legal, and every beginning of it leaves a consistent map.
pub(crate) fn map_law<N: HubName, S: Snapshot<N, MapMachine>>(session: &Session<N, MapMachine, S>)
    ensures legal { is_legal_from empty session.now.front ≡ true }
    ensures consistent { (point : ℕ) → IsConsistent (map_at session.now.front point).elements }
{
    fronts_are_the_maps();
    session.law();
}

/// Answers the messages of one session of a hub, which it keeps. Contracts see it as the users and
/// what the session knows.
///
/// A session that owes a commit publishes it before it plans or asks anything.
#[derive(Drop)]
pub struct HubDesk<'a, N: HubName, G: Gate + Drop, R: Wait + Drop, W: Wait> {
    rt: &'a W,
    hub: &'a MapHub<N, G, R>,
    session: MapSession<N>,
    users: &'a UserTable,
    routes: &'a Routes,
}

impl<'a, N: HubName, G: Gate + Drop, R: Wait + Drop, W: Wait> Model for HubDesk<'a, N, G, R, W> {
    ghost use Rattle.session_desk.specs.Answered.{AtDesk};
    ghost use Rattle.osm_model.specs.declared.commands.Entry.{Entry};

    ghost Value = { AtDesk Entry };

    ghost view = { λ d. record { users = d.users.now; known = d.session } };
}

impl<'a, N: HubName, G: Gate + Drop, R: Wait + Drop, W: Wait> HubDesk<'a, N, G, R, W> {
    /// A desk of that session, which finds calls in that table of the routes. It takes no memory.
    pub fn new(
        rt: &'a W,
        hub: &'a MapHub<N, G, R>,
        session: MapSession<N>,
        users: &'a UserTable,
        routes: &'a Routes,
    ) -> HubDesk<'a, N, G, R, W>
        ensures { result ≡ record { users = users.now; known = session } }
    {
        HubDesk {
            rt,
            hub,
            session,
            users,
            routes,
        }
    }

    /// Its session.
    pub fn session(&self) -> &MapSession<N>
        ensures { result.now ≡ self.now.known }
    {
        &self.session
    }

    /// Answers one message, on a ledger of its own. The gate is told of the reply to each that is no
    /// refusal by itself.
    fn answer_on<L: Ledger>(
        &mut self,
        alloc: Global,
        message: &Message,
        moment: u64,
        blank: Blank,
    ) -> Result<Reply, Memory>
        requires name { blank.name ≡ L.name }
        requires parts { blank.parts ≡ L.parts }
        requires some { 0 < blank.parts }
        ensures allows { AllowsMap self.old message.now moment (counted_reply result) self.new }
        ensures status { IfOk result (λ reply. IsStatus reply.status) }
    {
        let (ledger, share) = blank.open::<L>();
        let mut steps = Steps::of(ledger, share);
        match request_of(alloc, message, self.routes, self.users) {
            Ok(request) => {
                let (rt, hub) = (self.rt, self.hub);
                let session = &mut self.session;
                let reply = answer_request(rt, hub, session, alloc, request, moment, &mut steps);
                hub.gate().at(Point::Answered {
                    session: session.number(),
                });
                reply
            }
            Err(fault) => refuse(alloc, fault),
        }
    }
}

impl<'a, N: HubName, G: Gate + Drop, R: Wait + Drop, W: Wait> Desk for HubDesk<'a, N, G, R, W> {
    ghost use Rattle.std.specs.Prelude.{⊤, []};
    ghost use Rattle.api_desk.specs.HubDesk.{AllowsMap};

    ghost allows = { λ old message moment reply new. AllowsMap old message moment reply new };

    ghost tells = { λ _. ⊤ };

    ghost shows = { λ _. [] };

    ghost withholds = { λ _ _. ⊥ };

    fn answer(&mut self, alloc: Global, message: Message, moment: u64) -> Result<Reply, Memory> {
        self.answer_on::<Brand>(alloc, &message, moment, Blank::new(1))
    }

    fn may_tell<L: Witness>(&mut self, _link: &mut L) -> Result<(), Withheld> {
        Ok(())
    }
}

impl<'a, N: HubName, G: Gate + Drop, R: Wait + Drop, W: Wait> AlwaysTells
    for HubDesk<'a, N, G, R, W> {
    ghost never = { λ _ _ h. h };
}

impl<'a, N: HubName, G: Gate + Drop, R: Wait + Drop, W: Wait> SessionDesk<
    N,
    MapMachine,
    Shown<N, MapMachine>,
> for HubDesk<'a, N, G, R, W> {
    ghost use Rattle.api_desk.specs.HubDesk.{map_row, map_rows_stay};

    ghost keeps = { λ d. d };

    ghost answers = { map_row };

    ghost allowed = { λ old new message moment reply h. h };

    ghost rows_stay = { map_rows_stay };

    fn freshen(&mut self) -> Result<FoundFront<N, Entry>, Memory> {
        freshen(self.rt, self.hub, &mut self.session)
    }

    fn front(&self) -> &Front<N, Entry> {
        self.session.front()
    }

    fn behind(&mut self, front: &Front<N, Entry>) -> Result<Option<Vec<Entry>>, Memory> {
        behind(self.rt, self.hub, &mut self.session, front)
    }

    fn law(&self) {
        self.session.law();
    }
}

impl<'a, N: HubName, G: Gate + Drop, R: Wait + Drop, W: Wait> HasSession<
    N,
    MapMachine,
    Shown<N, MapMachine>,
> for HubDesk<'a, N, G, R, W> {
    fn into_session(self) -> MapSession<N> {
        self.session
    }
}
