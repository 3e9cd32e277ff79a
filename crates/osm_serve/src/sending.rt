//! The requests of a load, sent to one desk.
//!
//! A load is sent to one desk that is switched to the session of each request, and a message is
//! read of each request's bytes as of any link's; a request that no message begins would count as
//! refused. A reply that tells of want of memory is told as refused, since it is one to its
//! client.
ghost use Rattle.std.specs.Prelude.{◌≡◌, IfOk};
ghost use Rattle.api_desk.specs.Desk.{entries_of, users_of};
ghost use Rattle.osm_serve.specs.Sending.{IsAnswered, IsSent, refuses, lacks_memory};
ghost use Rattle.osm_serve.specs.Played.{AreReplied};

use api_desk::OneDesk;
use http_link::Desk;
use http_wire::{Message, whole_message};
use osm_base::Memory;
use std::alloc::Global;
use workload::{Load, Sent};

/// The moment of every request, in seconds since 1970: 2023-11-14T22:13:20Z.
const MOMENT: u64 = 1_700_000_000;

/// The status of a reply that says yes.
const DONE: u16 = 200;

/// The status of a reply that tells of want of memory.
const LACKING: u16 = 503;

/// Answers a message of a session, and gives the status of the reply.
fn answer(alloc: Global, desk: &mut OneDesk<'_>, session: u32, message: Message) -> u16
    ensures answered { IsAnswered (users_of desk.old) session message (entries_of desk.old) (entries_of desk.new) result }
    ensures users { users_of desk.new ≡ users_of desk.old }
{
    desk.switch_to(session);
    match desk.answer(alloc, message, MOMENT) {
        Ok(reply) => reply.status,
        Err(_) => LACKING,
    }
}

/// Sends a request, and gives the status of its reply. Bytes that are no message have none.
fn send(alloc: Global, desk: &mut OneDesk<'_>, sent: Sent) -> Result<Option<u16>, Memory>
    ensures sent { IfOk result (λ status. IsSent (users_of desk.old) sent (entries_of desk.old) (entries_of desk.new) status) }
    ensures users { users_of desk.new ≡ users_of desk.old }
{
    let Sent { session, bytes } = sent;
    match whole_message(alloc, bytes)? {
        Some(message) => Ok(Some(answer(alloc, desk, session, message))),
        None => Ok(None),
    }
}

fn refuses(status: Option<u16>) -> bool
    ensures { result ≡ refuses status }
{
    match status {
        Some(status) => status != DONE,
        None => true,
    }
}

fn lacks_memory(status: Option<u16>) -> bool
    ensures { result ≡ lacks_memory status }
{
    match status {
        Some(status) => status == LACKING,
        None => false,
    }
}

/// How a load was answered.
#[derive(Clone, Copy)]
pub struct Replies {
    /// One for each request.
    pub all: u64,
    /// Those whose status isn't 200.
    pub refused: u64,
    /// Those of them that tell of want of memory.
    pub lacking: u64,
}

/// Sends what is left of a load to a desk, one request after another.
pub fn send_each(alloc: Global, load: Load, desk: &mut OneDesk<'_>) -> Result<Replies, Memory>
    ensures { IfOk result (λ replies. AreReplied (users_of desk.old) load (entries_of desk.old) (entries_of desk.new) replies) }
{
    let mut load = load;
    let mut replies = Replies {
        all: load.len() as u64,
        refused: 0,
        lacking: 0,
    };
    'requests: while let Some(sent) = load.next_request(alloc)? {
        let status = send(alloc, desk, sent)?;
        replies.refused += u64::from(refuses(status));
        replies.lacking += u64::from(lacks_memory(status));
    }
    Ok(replies)
}
