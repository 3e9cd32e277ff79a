//! The plain program as a desk: it reads a message as the fast one does, and follows the map's rules
//! over lists alone.
ghost use Rattle.std.specs.Prelude.{◌≡◌, Some, IfOk, OnOk, OnErr};
ghost use Rattle.osm_change.specs.Moments.{HasShownMoments};
ghost use Rattle.osm_model.specs.Act.{act};
ghost use Rattle.osm_model.specs.Ask.{ask};
ghost use Rattle.osm_model.specs.Journal.{replay, journal_after};
ghost use Rattle.plain_model.specs.Judgement.{IsJudgedOn, answer_of, kept_after};
ghost use Rattle.api_desk.specs.Answers.{reply_of};
ghost use Rattle.api_desk.specs.Feed.{says, fed};

use crate::desks::Sender;
use api_desk::{FeedCall, Request, list_reply, request_of};
use desk_parts::RequestFault;
use http_link::Reply;
use http_wire::Message;
use map_machine::Asked;
use osm_base::Memory;
use osm_change::Answer;
use osm_json::{answer_body, answer_status};
use osm_model::Query;
use plain_model::{Journal, Judgement};
use plain_reads::plain_ask;
use route_table::Routes;
use std::alloc::Global;
use user_table::UserTable;

fn reply_to(alloc: Global, answer: &Answer<'_>) -> Result<Reply, Memory>
    requires { HasShownMoments answer.now }
    ensures { IfOk result (λ reply. reply ≡ reply_of (Some (says answer.now))) }
{
    Ok(Reply {
        status: answer_status(answer),
        body: answer_body(alloc, answer)?,
    })
}

fn keep_judged(journal: &mut Journal, judged: Judgement) -> Result<(), Memory>
    requires judged { IsJudgedOn journal.old judged }
    ensures kept { OnOk result (journal.new ≡ kept_after journal.old judged) }
    ensures memory { OnErr result (journal.new ≡ journal.old) }
{
    match journal.keep(judged) {
        Ok(_) => Ok(()),
        Err(Memory) => Err(Memory),
    }
}

/// Keeps a judgement beside its reply, which it gives.
fn keep_replied(journal: &mut Journal, judged: Judgement, reply: Reply) -> Result<Reply, Memory>
    requires judged { IsJudgedOn journal.old judged }
    ensures reply { IfOk result (λ given. given ≡ reply) }
    ensures kept { OnOk result (journal.new ≡ kept_after journal.old judged) }
    ensures memory { OnErr result (journal.new ≡ journal.old) }
{
    keep_judged(journal, judged)?;
    Ok(reply)
}

/// Keeps a judgement, once its reply is made.
fn keep(journal: &mut Journal, alloc: Global, judged: Judgement) -> Result<Reply, Memory>
    requires shown { HasShownMoments (answer_of judged) }
    requires judged { IsJudgedOn journal.old judged }
    ensures reply { IfOk result (λ reply. reply ≡ reply_of (Some (says (answer_of judged)))) }
    ensures kept { OnOk result (journal.new ≡ kept_after journal.old judged) }
    ensures memory { OnErr result (journal.new ≡ journal.old) }
{
    let reply = reply_to(alloc, judged.answer())?;
    keep_replied(journal, judged, reply)
}

/// Does a command.
fn change(
    journal: &mut Journal,
    alloc: Global,
    session: u32,
    asked: Asked,
    moment: u64,
) -> Result<Reply, Memory>
    ensures reply { IfOk result (λ reply. reply
        ≡ reply_of (Some (says (act (replay journal.old) asked.user moment asked.command).1))) }
    ensures journal { OnOk result (journal.new
        ≡ journal_after journal.old session asked.user moment asked.command) }
    ensures memory { OnErr result (journal.new ≡ journal.old) }
{
    let Asked { user, command } = asked;
    let judged = journal.judge(alloc, session, user, moment, command)?;
    keep(journal, alloc, judged)
}

fn read(journal: &Journal, alloc: Global, query: &Query, moment: u64) -> Result<Reply, Memory>
    ensures { IfOk result (λ reply. reply
        ≡ reply_of (Some (says (ask (replay journal.now) moment query.now)))) }
{
    let answer = plain_ask(alloc, journal.state(), moment, query)?;
    reply_to(alloc, &answer)
}

/// Shows the entries of the journal as the feed does.
fn follow(journal: &Journal, alloc: Global, call: FeedCall) -> Result<Reply, Memory>
    ensures { IfOk result (λ reply. reply ≡ reply_of (Some (fed journal.now call))) }
{
    list_reply(alloc, journal.entries(), call)
}

/// A desk that answers from a journal.
#[derive(Clone, Copy)]
pub struct PlainDesk<'a> {
    pub alloc: Global,
    pub routes: &'a Routes,
    pub users: &'a UserTable,
}

impl PlainDesk<'_> {
    /// Answers a message of a session.
    pub fn answer(
        &self,
        journal: &mut Journal,
        sender: Sender,
        message: &Message,
    ) -> Result<Reply, Memory> {
        let alloc = self.alloc;
        let Sender { session, moment } = sender;
        match request_of(alloc, message, self.routes, self.users) {
            Ok(Request::Change(asked)) => change(journal, alloc, session, asked, moment),
            Ok(Request::Read(query)) => read(journal, alloc, &query, moment),
            Ok(Request::Feed(call)) => follow(journal, alloc, call),
            Err(RequestFault::Refused(refusal)) => reply_to(alloc, &Answer::Refused(refusal)),
            Err(RequestFault::Memory) => Err(Memory),
        }
    }
}
