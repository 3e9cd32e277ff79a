//! A desk for one thread, over the map's book.
//!
//! A desk holds the table of routes, so `OneDesk::new` can answer want of memory; the link is then
//! left alone. A desk that serves several sessions on one thread is switched from one to the next,
//! so that the table isn't made for each request.
ghost use Rattle.std.specs.Prelude.{◌≡◌, ◌<◌, ◌≤◌, ◌+◌, List, length, Some, IfOk, OnOk, OnErr};
ghost use Rattle.osm_model.specs.Act.{act};
ghost use Rattle.osm_model.specs.Ask.{ask};
ghost use Rattle.osm_model.specs.Journal.{IsLegal, replay, calls_of, journal_after};
ghost use Rattle.osm_world.specs.World.{state_of};
ghost use Rattle.http_link.specs.Desk.{counted_reply};
ghost use Rattle.osm_base.specs.Status.{IsStatus};
ghost use Rattle.http_wire.specs.declared.message.Message.{Message};
ghost use Rattle.osm_model.specs.declared.commands.Entry.{Entry};
ghost use Rattle.user_table.specs.Users.{Users};
ghost use Rattle.api_desk.specs.Answers.{reply_of, AnswersAlone};
ghost use Rattle.api_desk.specs.Desk.{Allows};
ghost use Rattle.api_desk.specs.Feed.{says};
ghost use Rattle.api_desk.specs.Gives.{shown_request};
ghost use Rattle.api_desk.specs.Request.{request_of};

use crate::answers::refuse;
use crate::feed::feed_reply;
use crate::requests::{Request, request_of};
use desk_parts::reply_from;
use http_link::{AlwaysTells, Desk, Reply, Withheld};
use http_wire::Message;
use hub_core::{Book, Entries, NoOutlet};
use machine_law::{Machine, Tag};
use map_machine::{Asked, MapMachine, book_law, commits_are_the_maps, next_call};
use osm_base::{Memory, Steps};
use osm_model::Query;
use osm_outside::Witness;
use osm_world::World;
use route_table::Routes;
use std::alloc::Global;
use std::marker::Brand;
use std::sync::ledger::{Blank, Ledger};
use user_table::UserTable;

/// Does a command. Its answer is made before it is kept, so that no command is kept whose answer
/// would be want of memory, and what tells the answer takes none.
fn change<L: Ledger>(
    book: &mut Book<MapMachine>,
    alloc: Global,
    session: u32,
    asked: Asked,
    moment: u64,
    steps: &mut Steps<L>,
) -> Result<Reply, Memory>
    ensures reply { IfOk result (λ reply. reply
        ≡ reply_of (Some (says (act (replay book.old) asked.user moment asked.command).1))) }
    ensures journal { OnOk result (book.new
        ≡ journal_after book.old session asked.user moment asked.command) }
    ensures memory { OnErr result (book.new ≡ book.old) }
    ensures status { IfOk result (λ reply. IsStatus reply.status) }
{
    let tag = Tag {
        session,
        call: next_call(book, session),
    };
    let plan = MapMachine::plan(alloc, book.world(), asked, steps)?;
    let done = book.commit(plan, moment, tag, &mut NoOutlet, steps)?;
    commits_are_the_maps();
    Ok(reply_from(done.answer))
}

/// The reply to a query by all of the journal.
pub fn query_reply<L: Ledger>(
    book: &Book<MapMachine>,
    alloc: Global,
    query: Query,
    moment: u64,
    steps: &mut Steps<L>,
) -> Result<Reply, Memory>
    ensures reply { IfOk result (λ reply. reply
        ≡ reply_of (Some (says (ask (replay book.now) moment query)))) }
    ensures status { IfOk result (λ reply. IsStatus reply.status) }
{
    let found = MapMachine::find(alloc, book.world(), &query, moment, steps)?;
    let answer = MapMachine::tell(alloc, found)?;
    Ok(reply_from(answer))
}

/// Does what is asked.
fn answer_request<L: Ledger>(
    book: &mut Book<MapMachine>,
    alloc: Global,
    session: u32,
    request: Request,
    moment: u64,
    steps: &mut Steps<L>,
) -> Result<Reply, Memory>
    ensures answers { (users : Users) (message : Message) → request_of users message ≡ shown_request request
        → AnswersAlone users session book.old book.new message moment (counted_reply result) }
    ensures status { IfOk result (λ reply. IsStatus reply.status) }
{
    match request {
        Request::Change(asked) => change(book, alloc, session, asked, moment, steps),
        Request::Read(query) => query_reply(book, alloc, query, moment, steps),
        Request::Feed(call) => feed_reply(alloc, book, call),
    }
}

/// Answers the requests of one session over a book that nobody else works on.
#[derive(Drop)]
pub struct OneDesk<'a> {
    book: &'a mut Book<MapMachine>,
    routes: Routes,
    users: &'a UserTable,
    session: u32,
}

impl<'a> OneDesk<'a> {
    ghost use Rattle.api_desk.specs.Desk.{entries_of, users_of, session_of};

    /// A desk of that session, with a table of the routes.
    pub fn new(
        alloc: Global,
        book: &'a mut Book<MapMachine>,
        users: &'a UserTable,
        session: u32,
    ) -> Result<OneDesk<'a>, Memory>
        ensures journal { IfOk result (λ desk. entries_of desk ≡ book.old) }
        ensures users { IfOk result (λ desk. users_of desk ≡ users.now) }
        ensures session { IfOk result (λ desk. session_of desk ≡ session) }
    {
        let routes = Routes::new(alloc)?;
        Ok(OneDesk {
            book,
            routes,
            users,
            session,
        })
    }

    /// Serves another session from now on.
    pub fn switch_to(&mut self, session: u32)
        ensures journal { entries_of self.new ≡ entries_of self.old }
        ensures users { users_of self.new ≡ users_of self.old }
        ensures session { session_of self.new ≡ session }
    {
        self.session = session;
    }

    /// The journal's entries, the first one first.
    pub fn entries(&self) -> Entries<'_, MapMachine>
        ensures journal { result ≡ entries_of self.now }
        ensures legal { IsLegal (entries_of self.now) }
    {
        book_law(self.book);
        self.book.journal()
    }

    /// The map that they make.
    pub fn world(&self) -> &World
        ensures { state_of result.now ≡ replay (entries_of self.now) }
    {
        self.book.world().world()
    }

    /// Answers one request, on a ledger of its own.
    fn answer_on<L: Ledger>(
        &mut self,
        alloc: Global,
        message: &Message,
        moment: u64,
        blank: Blank,
    ) -> Result<Reply, Memory>
        requires name { blank.name ≡ L.name }
        requires parts { blank.parts ≡ L.parts }
        requires some { 0 < blank.parts }
        ensures allows { Allows self.old message.now moment (counted_reply result) self.new }
        ensures status { IfOk result (λ reply. IsStatus reply.status) }
    {
        let (ledger, share) = blank.open::<L>();
        let mut steps = Steps::of(ledger, share);
        let reply = match request_of(alloc, message, &self.routes, self.users) {
            Ok(request) => {
                answer_request(self.book, alloc, self.session, request, moment, &mut steps)
            }
            Err(fault) => refuse(alloc, fault),
        };
        book_law(self.book);
        reply
    }
}

impl Desk for OneDesk<'_> {
    ghost use Rattle.std.specs.Prelude.{⊤, []};
    ghost use Rattle.api_desk.specs.Desk.{Allows};

    ghost allows = { λ old message moment reply new. Allows old message moment reply new };

    ghost tells = { λ _. ⊤ };

    ghost shows = { λ _. [] };

    ghost withholds = { λ _ _. ⊥ };

    fn answer(&mut self, alloc: Global, message: Message, moment: u64) -> Result<Reply, Memory> {
        self.answer_on::<Brand>(alloc, &message, moment, Blank::new(1))
    }

    fn may_tell<L: Witness>(&mut self, _link: &mut L) -> Result<(), Withheld> {
        Ok(())
    }
}

impl AlwaysTells for OneDesk<'_> {
    ghost never = { λ _ _ h. h };
}
