//! Calls of the replication feed, answered by what a session of a hub sees.
ghost use Rattle.std.specs.Prelude.{◌≡◌, ℕ, IfOk, OnErr};
ghost use Rattle.osm_base.specs.Status.{IsStatus};
ghost use Rattle.http_wire.specs.declared.message.Message.{Message};
ghost use Rattle.http_link.specs.Desk.{counted_reply};
ghost use Rattle.user_table.specs.Users.{Users};
ghost use Rattle.api_desk.specs.HubDesk.{MapReplies, GoesOn, ShowsFeed};
ghost use Rattle.api_desk.specs.Request.{request_of, of_feed};
ghost use Rattle.api_desk.specs.declared.feed.FeedCall.TheVariants as feed;

use crate::feed::{FeedCall, LastStamp, piece_reply, state_reply};
use crate::hub_desk::{MapHub, MapSession, map_law};
use http_link::Reply;
use map_machine::MapMachine;
use osm_base::Memory;
use osm_outside::Gate;
use shared_front::HubName;
use snapshot_hub::{Session, Snapshot};
use std::alloc::Global;
use std::sync::Wait;

/// The reply to a call for the state, by the map that is published. All that any session was told of
/// is in it.
fn answer_state<N: HubName, S: Snapshot<N, MapMachine>>(
    session: &mut Session<N, MapMachine, S>,
    alloc: Global,
) -> Result<Reply, Memory>
    ensures ok { IfOk result (λ reply. ShowsFeed session.old feed.State reply session.new) }
    ensures err { OnErr result (GoesOn session.old session.new) }
    ensures status { IfOk result (λ reply. IsStatus reply.status) }
{
    let last = session.read::<LastStamp>()?;
    map_law(session);
    state_reply(alloc, session.seen(), last)
}

/// The reply to a call for a piece, by the journal that is found under the lock.
fn answer_piece<N: HubName, G: Gate + Drop, R: Wait + Drop, W: Wait>(
    rt: &W,
    hub: &MapHub<N, G, R>,
    session: &mut MapSession<N>,
    alloc: Global,
    number: u64,
) -> Result<Reply, Memory>
    ensures ok { IfOk result (λ reply. ShowsFeed session.old (feed.Piece number) reply session.new) }
    ensures err { OnErr result (GoesOn session.old session.new) }
    ensures status { IfOk result (λ reply. IsStatus reply.status) }
{
    let found = hub.part(rt, session, number.saturating_sub(1), 1)?;
    piece_reply(alloc, session.seen(), number, found.first())
}

/// The reply to a call of the feed. A call for a piece publishes what the session owes.
pub(crate) fn answer_feed<N: HubName, G: Gate + Drop, R: Wait + Drop, W: Wait>(
    rt: &W,
    hub: &MapHub<N, G, R>,
    session: &mut MapSession<N>,
    alloc: Global,
    call: FeedCall,
) -> Result<Reply, Memory>
    ensures answers { (users : Users) (message : Message) (moment : ℕ) → request_of users message ≡ of_feed call
        → MapReplies users session.old message moment (counted_reply result) session.new }
    ensures status { IfOk result (λ reply. IsStatus reply.status) }
{
    match call {
        FeedCall::State => answer_state(session, alloc),
        FeedCall::Piece { number } => answer_piece(rt, hub, session, alloc, number),
    }
}
