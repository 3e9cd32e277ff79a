//! Why a message is no request, as a reply.
//!
//! A message that is no request is told so by one function for both desks, whose clause names no
//! journal: the session stays at whatever place it stands.
ghost use Rattle.std.specs.Prelude.{ℕ, List, Err, IfOk};
ghost use Rattle.osm_base.specs.Status.{IsStatus};
ghost use Rattle.osm_model.specs.Answered.{Place};
ghost use Rattle.osm_model.specs.declared.commands.Entry.{Entry};
ghost use Rattle.http_link.specs.Desk.{counted_reply};
ghost use Rattle.http_wire.specs.declared.message.Message.{Message};
ghost use Rattle.user_table.specs.Users.{Users};
ghost use Rattle.api_desk.specs.Answers.{Answers};
ghost use Rattle.desk_parts.specs.Faults.{HasShownFault};
ghost use Rattle.api_desk.specs.Gives.{GivesRequest, TellsFault};
ghost use Rattle.api_desk.specs.Request.{request_of};

use desk_parts::{RequestFault, refusal_reply};
use http_link::Reply;
use osm_base::Memory;
use std::alloc::Global;

/// Tells why a message is no request. Whatever the session stands at, it stays there.
pub fn refuse(alloc: Global, fault: RequestFault) -> Result<Reply, Memory>
    requires { HasShownFault fault }
    ensures told { TellsFault fault result }
    ensures answers { (users : Users) (session : ℕ) (F : List Entry) (place : Place) (message : Message) (moment : ℕ)
        → GivesRequest (request_of users message) (Err fault)
        → Answers users session F place message moment (counted_reply result) place }
    ensures status { IfOk result (λ reply. IsStatus reply.status) }
{
    match fault {
        RequestFault::Refused(refusal) => refusal_reply(alloc, refusal),
        RequestFault::Memory => Err(Memory),
    }
}
