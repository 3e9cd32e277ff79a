//! A desk of the notes for one session of a hub.
ghost use Rattle.std.specs.Prelude.{◌≡◌, ◌<◌, ℕ, Err, IfOk};
ghost use Rattle.osm_base.specs.Status.{IsStatus};
ghost use Rattle.http_wire.specs.declared.message.Message.{Message};
ghost use Rattle.http_link.specs.Desk.{counted_reply};
ghost use Rattle.session_desk.specs.Steps.{told, Answers};
ghost use Rattle.notes_core.specs.Machine.{note_rules};
ghost use Rattle.notes_core.specs.declared.commands.NoteEntry.{NoteEntry};
ghost use Rattle.snapshot_hub.specs.Known.{Known};
ghost use Rattle.user_table.specs.Users.{Users};
ghost use Rattle.desk_parts.specs.Faults.{HasShownFault};
ghost use Rattle.notes_desk.specs.Desk.{NoteReplies, AllowsNotes};
ghost use Rattle.notes_desk.specs.Request.{notes_request_of, shown_request, GivesRequest};

use crate::requests::{NoteRequest, notes_request_of};
use desk_parts::{RequestFault, refusal_reply, reply_from};
use http_link::{AlwaysTells, Desk, Reply, Withheld};
use http_wire::Message;
use notes_core::{NoteEntry, NotesMachine};
use osm_base::{Bytes, Memory, Steps};
use osm_outside::{Gate, Point, Witness};
use session_desk::{HasSession, SessionDesk, behind, command_bytes, freshen, query_bytes};
use shared_front::{FoundFront, Front, HubName};
use snapshot_hub::{Hub, Session, Shown};
use std::alloc::Global;
use std::marker::{Brand, Model};
use std::sync::Wait;
use std::sync::ledger::{Blank, Ledger};
use user_table::UserTable;

/// A hub of notes.
pub type NotesHub<N, G, R> = Hub<N, NotesMachine, Shown<N, NotesMachine>, G, R>;

/// A session of it.
pub type NotesSession<N> = Session<N, NotesMachine, Shown<N, NotesMachine>>;

/// Does what is asked, once the session owes nothing.
fn answer_bytes<N: HubName, G: Gate + Drop, R: Wait + Drop, W: Wait, L: Ledger>(
    rt: &W,
    hub: &NotesHub<N, G, R>,
    session: &mut NotesSession<N>,
    request: NoteRequest,
    moment: u64,
    steps: &mut Steps<L>,
) -> Result<Bytes, Memory>
    ensures { Answers note_rules session.old (shown_request request) moment (told result) session.new }
{
    match request {
        NoteRequest::Change(asked) => command_bytes(rt, hub, session, asked, moment, steps),
        NoteRequest::Read(query) => query_bytes(rt, hub, session, &query, moment, steps),
    }
}

/// The reply to a request. What tells the answer takes no memory, so a command that stands and is
/// published isn't told as want of memory.
fn answer_request<N: HubName, G: Gate + Drop, R: Wait + Drop, W: Wait, L: Ledger>(
    rt: &W,
    hub: &NotesHub<N, G, R>,
    session: &mut NotesSession<N>,
    request: NoteRequest,
    moment: u64,
    steps: &mut Steps<L>,
) -> Result<Reply, Memory>
    ensures answers { (users : Users) (message : Message) → notes_request_of users message ≡ shown_request request
        → NoteReplies users session.old message moment (counted_reply result) session.new }
    ensures status { IfOk result (λ reply. IsStatus reply.status) }
{
    match answer_bytes(rt, hub, session, request, moment, steps) {
        Ok(bytes) => Ok(reply_from(bytes)),
        Err(memory) => Err(memory),
    }
}

/// Tells why a message is no request. The session stays as it is.
fn refuse(alloc: Global, fault: RequestFault) -> Result<Reply, Memory>
    requires { HasShownFault fault }
    ensures answers { (users : Users) (it : Known NoteEntry) (message : Message) (moment : ℕ)
        → GivesRequest (notes_request_of users message) (Err fault)
        → NoteReplies users it message moment (counted_reply result) it }
    ensures status { IfOk result (λ reply. IsStatus reply.status) }
{
    match fault {
        RequestFault::Refused(refusal) => refusal_reply(alloc, refusal),
        RequestFault::Memory => Err(Memory),
    }
}

/// Answers the messages of one session of a hub, which it keeps. Contracts see it as the users and
/// what the session knows.
///
/// A session that owes a commit publishes it before it plans or asks anything.
#[derive(Drop)]
pub struct NotesDesk<'a, N: HubName, G: Gate + Drop, R: Wait + Drop, W: Wait> {
    rt: &'a W,
    hub: &'a NotesHub<N, G, R>,
    session: NotesSession<N>,
    users: &'a UserTable,
}

impl<'a, N: HubName, G: Gate + Drop, R: Wait + Drop, W: Wait> Model for NotesDesk<'a, N, G, R, W> {
    ghost use Rattle.session_desk.specs.Answered.{AtDesk};
    ghost use Rattle.notes_core.specs.declared.commands.NoteEntry.{NoteEntry};

    ghost Value = { AtDesk NoteEntry };

    ghost view = { λ d. record { users = d.users.now; known = d.session } };
}

impl<'a, N: HubName, G: Gate + Drop, R: Wait + Drop, W: Wait> NotesDesk<'a, N, G, R, W> {
    /// A desk of that session. It takes no memory.
    pub fn new(
        rt: &'a W,
        hub: &'a NotesHub<N, G, R>,
        session: NotesSession<N>,
        users: &'a UserTable,
    ) -> NotesDesk<'a, N, G, R, W>
        ensures { result ≡ record { users = users.now; known = session } }
    {
        NotesDesk {
            rt,
            hub,
            session,
            users,
        }
    }

    /// Answers one message, on a ledger of its own. The gate is told of the reply to a command or a query.
    fn answer_on<L: Ledger>(
        &mut self,
        alloc: Global,
        message: &Message,
        moment: u64,
        blank: Blank,
    ) -> Result<Reply, Memory>
        requires name { blank.name ≡ L.name }
        requires parts { blank.parts ≡ L.parts }
        requires some { 0 < blank.parts }
        ensures allows { AllowsNotes self.old message.now moment (counted_reply result) self.new }
        ensures status { IfOk result (λ reply. IsStatus reply.status) }
    {
        let (ledger, share) = blank.open::<L>();
        let mut steps = Steps::of(ledger, share);
        match notes_request_of(alloc, message, self.users) {
            Ok(request) => {
                let (rt, hub) = (self.rt, self.hub);
                let session = &mut self.session;
                let reply = answer_request(rt, hub, session, request, moment, &mut steps);
                hub.gate().at(Point::Answered {
                    session: session.number(),
                });
                reply
            }
            Err(fault) => refuse(alloc, fault),
        }
    }
}

impl<'a, N: HubName, G: Gate + Drop, R: Wait + Drop, W: Wait> Desk for NotesDesk<'a, N, G, R, W> {
    ghost use Rattle.std.specs.Prelude.{⊤, []};
    ghost use Rattle.notes_desk.specs.Desk.{AllowsNotes};

    ghost allows = { λ old message moment reply new. AllowsNotes old message moment reply new };

    ghost tells = { λ _. ⊤ };

    ghost shows = { λ _. [] };

    ghost withholds = { λ _ _. ⊥ };

    fn answer(&mut self, alloc: Global, message: Message, moment: u64) -> Result<Reply, Memory> {
        self.answer_on::<Brand>(alloc, &message, moment, Blank::new(1))
    }

    fn may_tell<L: Witness>(&mut self, _link: &mut L) -> Result<(), Withheld> {
        Ok(())
    }
}

impl<'a, N: HubName, G: Gate + Drop, R: Wait + Drop, W: Wait> AlwaysTells
    for NotesDesk<'a, N, G, R, W> {
    ghost never = { λ _ _ h. h };
}

impl<'a, N: HubName, G: Gate + Drop, R: Wait + Drop, W: Wait> SessionDesk<
    N,
    NotesMachine,
    Shown<N, NotesMachine>,
> for NotesDesk<'a, N, G, R, W> {
    ghost use Rattle.notes_desk.specs.Desk.{note_row, note_rows_stay};

    ghost keeps = { λ d. d };

    ghost answers = { note_row };

    ghost allowed = { λ old new message moment reply h. h };

    ghost rows_stay = { note_rows_stay };

    fn freshen(&mut self) -> Result<FoundFront<N, NoteEntry>, Memory> {
        freshen(self.rt, self.hub, &mut self.session)
    }

    fn front(&self) -> &Front<N, NoteEntry> {
        self.session.front()
    }

    fn behind(&mut self, front: &Front<N, NoteEntry>) -> Result<Option<Vec<NoteEntry>>, Memory> {
        behind(self.rt, self.hub, &mut self.session, front)
    }

    fn law(&self) {
        self.session.law();
    }
}

impl<'a, N: HubName, G: Gate + Drop, R: Wait + Drop, W: Wait> HasSession<
    N,
    NotesMachine,
    Shown<N, NotesMachine>,
> for NotesDesk<'a, N, G, R, W> {
    fn into_session(self) -> NotesSession<N> {
        self.session
    }
}
