//! One message and its reply.
ghost use Rattle.std.specs.Prelude.{◌≡◌, ◌+◌, ◌<◌, IsErr, IsFalse, IfOk};
ghost use Rattle.osm_base.specs.declared.limits.TheConstants.{REQUEST_LIMIT};
ghost use Rattle.osm_outside.specs.Told.{Rose};
ghost use Rattle.http_wire.specs.Reply.{reply};
ghost use Rattle.osm_base.specs.Status.{IsStatus};
ghost use Rattle.http_wire.specs.Written.{Writes};
ghost use Rattle.http_link.specs.Desk.{counted_reply, memory_body};
ghost use Rattle.http_link.specs.Exchange.{closes};
ghost use Rattle.http_link.specs.Refusal.{refusal, end_of};
ghost use Rattle.http_link.specs.Turn.{RepliesOrHolds, Refuses, TakesTurn};

use crate::desk::{Desk, Reply, Withheld};
use crate::end::LinkEnd;
use http_wire::{Message, Wire, WireEnd, write_reply};
use osm_base::{Memory, REQUEST_LIMIT};
use osm_outside::{Clock, Failed, Link, Outside, Sink};
use std::alloc::Global;

/// What a turn leads to.
#[derive(Clone, Copy)]
pub enum Next {
    /// The link goes on.
    GoesOn,
    Over(LinkEnd),
}

/// Writes the reply to want of memory.
fn send_memory<S: Sink>(alloc: Global, sink: &mut S, close: bool) -> Result<(), Failed>
    ensures writes { Writes (S.told sink.old) (S.told sink.new) (reply 503 memory_body close) result }
    ensures failed { IsErr result → Rose (S.told sink.old).write_faults (S.told sink.new).write_faults }
{
    write_reply(alloc, sink, 503, b"{\"error\":\"memory\"}", close)
}

/// Writes the reply that an answer stands for.
fn send<S: Sink>(
    alloc: Global,
    sink: &mut S,
    answer: &Result<Reply, Memory>,
    close: bool,
) -> Result<(), Failed>
    requires { IsStatus (counted_reply answer.now).status }
    ensures writes { Writes (S.told sink.old) (S.told sink.new)
        (reply (counted_reply answer.now).status (counted_reply answer.now).body close) result }
    ensures failed { IsErr result → Rose (S.told sink.old).write_faults (S.told sink.new).write_faults }
{
    match answer {
        Ok(reply) => write_reply(alloc, sink, reply.status, reply.body.as_slice(), close),
        Err(_) => send_memory(alloc, sink, close),
    }
}

/// Whether the reply to the message ends the link and says so: it does where the message asked for that, and at the last request
/// that is answered. So many were answered before it.
fn closes(message: &Message, count: usize) -> bool
    requires { count < REQUEST_LIMIT }
    ensures { result ≡ closes count message.now }
{
    message.close || count + 1 == REQUEST_LIMIT
}

/// Answers a message, before which so many were answered. The error is why the desk withholds its reply.
pub fn answer_message<D: Desk, L: Link>(
    alloc: Global,
    desk: &mut D,
    link: &mut L,
    message: Message,
    count: usize,
) -> Result<Result<(), Failed>, Withheld>
    requires { count < REQUEST_LIMIT }
    ensures replies { RepliesOrHolds D.allows D.tells D.shows D.withholds desk.old desk.new (L.told link.old) (L.told link.new) count message result }
    ensures failed { IfOk result (λ sent. IsErr sent → Rose (L.told link.old).write_faults (L.told link.new).write_faults) }
{
    let close = closes(&message, count);
    let moment = link.now();
    let answer = desk.answer(alloc, message, moment);
    match desk.may_tell(link) {
        Ok(()) => Ok(send(alloc, link, &answer, close)),
        Err(why) => Err(why),
    }
}

/// Writes the reply to an end, where it has one.
fn send_refusal<S: Sink>(alloc: Global, sink: &mut S, why: WireEnd) -> Result<(), Failed>
    ensures writes { Writes (S.told sink.old) (S.told sink.new) (refusal why) result }
    ensures failed { IsErr result → Rose (S.told sink.old).write_faults (S.told sink.new).write_faults }
{
    match why {
        WireEnd::BadHead => write_reply(alloc, sink, 400, b"{\"error\":\"bad_head\"}", true),
        WireEnd::HeadLong => write_reply(alloc, sink, 431, b"{\"error\":\"head_long\"}", true),
        WireEnd::Coded => write_reply(alloc, sink, 501, b"{\"error\":\"coded\"}", true),
        WireEnd::BadLength => write_reply(alloc, sink, 400, b"{\"error\":\"bad_length\"}", true),
        WireEnd::BodyLong => write_reply(alloc, sink, 413, b"{\"error\":\"body_long\"}", true),
        WireEnd::Memory => send_memory(alloc, sink, true),
        WireEnd::End | WireEnd::Truncated | WireEnd::ReadFault => Ok(()),
    }
}

/// Answers an end, and says how the link ends.
fn refuse<S: Sink>(alloc: Global, sink: &mut S, why: WireEnd) -> LinkEnd
    ensures { Refuses (S.told sink.old) (S.told sink.new) why result }
{
    match send_refusal(alloc, sink, why) {
        Ok(()) => end_of(why),
        Err(_) => LinkEnd::WriteFault,
    }
}

/// How the link ends where its wire does.
fn end_of(why: WireEnd) -> LinkEnd
    ensures { result ≡ end_of why }
{
    match why {
        WireEnd::End => LinkEnd::Ended,
        WireEnd::ReadFault => LinkEnd::ReadFault,
        WireEnd::Memory => LinkEnd::Memory,
        WireEnd::Truncated
        | WireEnd::BadHead
        | WireEnd::HeadLong
        | WireEnd::BadLength
        | WireEnd::BodyLong
        | WireEnd::Coded => LinkEnd::Refused(why),
    }
}

/// Reads a message and answers it, where so many were answered before it.
pub fn take_turn<D: Desk, L: Link>(
    alloc: Global,
    wire: &mut Wire,
    desk: &mut D,
    link: &mut L,
    count: usize,
) -> Next
    requires few { count < REQUEST_LIMIT }
    requires going_on { IsFalse wire.old.ended }
    ensures turn { TakesTurn wire.old.body_limit D.allows D.tells D.shows D.withholds desk.old desk.new (L.told link.old) (L.told link.new)
        wire.old.kept wire.new.kept count result }
    ensures going_on { result ≡ Next.GoesOn → IsFalse wire.new.ended }
    ensures body_limit { wire.new.body_limit ≡ wire.old.body_limit }
{
    match wire.read_message(alloc, link) {
        Ok(message) => {
            let close = message.close;
            match answer_message(alloc, desk, link, message, count) {
                Err(why) => Next::Over(LinkEnd::Unkept(why)),
                Ok(Err(_)) => Next::Over(LinkEnd::WriteFault),
                Ok(Ok(())) => {
                    if close {
                        Next::Over(LinkEnd::Closed)
                    } else {
                        Next::GoesOn
                    }
                }
            }
        }
        Err(why) => Next::Over(refuse(alloc, link, why)),
    }
}
