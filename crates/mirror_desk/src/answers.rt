//! What a mirror answers.
ghost use Rattle.std.specs.Prelude.{◌≡◌, ◌<◌, IfOk, OnOk};
ghost use Rattle.osm_base.specs.Status.{IsStatus};
ghost use Rattle.osm_model.specs.Journal.{IsLegal};
ghost use Rattle.http_link.specs.Desk.{counted_reply};
ghost use Rattle.mirror_desk.specs.Answers.{AnswersAsk, MirrorAnswers, MirrorAnswersAt};
ghost use Rattle.mirror_desk.specs.Gives.{shown_ask};
ghost use Rattle.mirror_desk.specs.Level.{holds_back, level_after};
ghost use Rattle.mirror_desk.specs.Request.{reads, request_of};

use crate::level::Level;
use crate::pieces::{answer_piece, next_number};
use crate::replies::{levelled, not_level, read_only};
use crate::requests::{Request, request_of};
use crate::setting::MirrorSetting;
use api_desk::{FeedCall, feed_reply, query_reply, refuse};
use http_link::Reply;
use http_wire::Message;
use journal_follower::Follower;
use osm_base::{Memory, Steps};
use osm_model::Query;
use route_table::Routes;
use std::alloc::Global;
use std::marker::Brand;
use std::sync::ledger::{Blank, Ledger};

/// A law: what a follower has is a legal journal.
fn laws(follower: &Follower)
    ensures { IsLegal follower.now }
{
    let _entries = follower.book().journal();
}

/// Whether reads are told that the mirror isn't known to be level.
fn holds_back(only_level: bool, level: &Level, moment: u64) -> bool
    ensures { result ≡ holds_back only_level level.now moment }
{
    only_level && !level.at(moment)
}

/// Answers a query, or tells that the mirror isn't known to be level, where reads are held back.
fn answer_read<L: Ledger>(
    alloc: Global,
    follower: &Follower,
    is_held_back: bool,
    query: Query,
    moment: u64,
    steps: &mut Steps<L>,
) -> Result<Reply, Memory>
    ensures answers { AnswersAsk is_held_back follower.now moment (reads query) (counted_reply result) follower.now }
    ensures status { IfOk result (λ reply. IsStatus reply.status) }
{
    if is_held_back {
        not_level(alloc)
    } else {
        query_reply(follower.book(), alloc, query, moment, steps)
    }
}

/// Does what a message with that body asks.
fn answer_request<L: Ledger>(
    alloc: Global,
    follower: &mut Follower,
    level: &mut Level,
    is_held_back: bool,
    request: Request,
    body: &[u8],
    moment: u64,
    steps: &mut Steps<L>,
) -> Result<Reply, Memory>
    ensures answers { AnswersAsk is_held_back follower.old moment (shown_ask body.now request) (counted_reply result) follower.new }
    ensures level { level.new ≡ level_after (shown_ask body.now request) level.old moment }
    ensures status { IfOk result (λ reply. IsStatus reply.status) }
{
    match request {
        Request::Forbidden => read_only(alloc),
        Request::Read(query) => answer_read(alloc, follower, is_held_back, query, moment, steps),
        Request::State => feed_reply(alloc, follower.book(), FeedCall::State),
        Request::Piece => {
            level.hear(moment);
            answer_piece(alloc, follower, body)
        }
        Request::Level => {
            level.say(moment);
            levelled(alloc, next_number(follower))
        }
    }
}

/// Does what a message asks, or tells why it asks nothing.
fn answer_message<L: Ledger>(
    alloc: Global,
    routes: &Routes,
    setting: &MirrorSetting,
    follower: &mut Follower,
    level: &mut Level,
    message: &Message,
    moment: u64,
    steps: &mut Steps<L>,
) -> Result<Reply, Memory>
    ensures answers { AnswersAsk (holds_back setting.now.only_level level.old moment) follower.old moment (request_of setting.now.users message.now) (counted_reply result) follower.new }
    ensures level { OnOk result (level.new ≡ level_after (request_of setting.now.users message.now) level.old moment) }
    ensures status { IfOk result (λ reply. IsStatus reply.status) }
{
    let is_held_back = holds_back(setting.only_level, level, moment);
    match request_of(alloc, message, routes, &setting.users) {
        Ok(request) => {
            let body = message.body.as_slice();
            answer_request(
                alloc,
                follower,
                level,
                is_held_back,
                request,
                body,
                moment,
                steps,
            )
        }
        Err(fault) => refuse(alloc, fault),
    }
}

/// Answers one message, on a ledger of its own.
fn answer_on<L: Ledger>(
    alloc: Global,
    routes: &Routes,
    setting: &MirrorSetting,
    follower: &mut Follower,
    level: &mut Level,
    message: &Message,
    moment: u64,
    blank: Blank,
) -> Result<Reply, Memory>
    requires name { blank.name ≡ L.name }
    requires parts { blank.parts ≡ L.parts }
    requires some { 0 < blank.parts }
    ensures answers { MirrorAnswersAt setting.now.users (holds_back setting.now.only_level level.old moment) follower.old message.now moment (counted_reply result) follower.new }
    ensures level { OnOk result (level.new ≡ level_after (request_of setting.now.users message.now) level.old moment) }
    ensures status { IfOk result (λ reply. IsStatus reply.status) }
{
    let (ledger, share) = blank.open::<L>();
    let mut steps = Steps::of(ledger, share);
    let reply = answer_message(
        alloc, routes, setting, follower, level, message, moment, &mut steps,
    );
    laws(follower);
    reply
}

/// Answers a message on the entries that a follower has, at a moment in seconds since 1970. Want of
/// memory counts as the reply 503, and leaves the follower as it was.
pub fn answer_mirrored(
    alloc: Global,
    routes: &Routes,
    setting: &MirrorSetting,
    follower: &mut Follower,
    level: &mut Level,
    message: &Message,
    moment: u64,
) -> Result<Reply, Memory>
    ensures answers { MirrorAnswers setting.now follower.old message.now moment (counted_reply result) follower.new }
    // and, by what is known of it, exactly
    ensures exact { MirrorAnswersAt setting.now.users (holds_back setting.now.only_level level.old moment) follower.old message.now moment (counted_reply result) follower.new }
    ensures level { OnOk result (level.new ≡ level_after (request_of setting.now.users message.now) level.old moment) }
    ensures status { IfOk result (λ reply. IsStatus reply.status) }
{
    answer_on::<Brand>(
        alloc,
        routes,
        setting,
        follower,
        level,
        message,
        moment,
        Blank::new(1),
    )
}
