//! What a message asks of a mirror.
//!
//! A mirror has no request for what it doesn't take. Every call that isn't a read comes to one
//! answer, by the call and the caller alone, and its body isn't looked at. A piece by its number
//! is among them, since whoever posts pieces has them.
ghost use Rattle.std.specs.Prelude.{ℕ, List, option_copied, IfErr};
ghost use Rattle.desk_parts.specs.Faults.{HasShownFault};
ghost use Rattle.mirror_desk.specs.Request.{forbidden_to, followed, asked_by_task, piece_from, level_from, asked_by, request_of};
ghost use Rattle.mirror_desk.specs.Gives.{GivesAsked, GivesAsk};

use crate::lines::{Line, line_of};
use api_desk::{FeedCall, Task, is_moderator, known_moderator, known_user, task_of};
use desk_parts::{RequestFault, caller_of, is_xml};
use http_wire::Message;
use osm_base::User;
use osm_change::Refusal;
use osm_model::Query;
use route_table::Routes;
use std::alloc::Global;
use user_table::UserTable;

/// What a message asks of a mirror.
#[derive(Drop)]
pub enum Request {
    /// A call of the server that a mirror doesn't take.
    Forbidden,
    Read(Query),
    /// The state of the feed.
    State,
    /// To take the piece whose text the body is.
    Piece,
    /// To count as level.
    Level,
}

/// A call that a mirror doesn't take, where the caller says who it is.
fn forbidden_to(caller: Option<&User>) -> Result<Request, RequestFault>
    ensures gives { (body : List ℕ) → GivesAsked (forbidden_to (option_copied caller.entry)) body result }
    ensures shown { IfErr result HasShownFault }
{
    let _user = known_user(caller)?;
    Ok(Request::Forbidden)
}

/// To take a piece, where the caller is a moderator.
fn piece_from(caller: Option<&User>) -> Result<Request, RequestFault>
    ensures gives { (body : List ℕ) → GivesAsked (piece_from (option_copied caller.entry) body) body result }
    ensures shown { IfErr result HasShownFault }
{
    let _user = known_moderator(caller)?;
    Ok(Request::Piece)
}

/// To count as level, where the caller is a moderator.
fn level_from(caller: Option<&User>) -> Result<Request, RequestFault>
    ensures gives { (body : List ℕ) → GivesAsked (level_from (option_copied caller.entry)) body result }
    ensures shown { IfErr result HasShownFault }
{
    let _user = known_moderator(caller)?;
    Ok(Request::Level)
}

/// What a call of the feed asks of a mirror.
fn followed(caller: Option<&User>, call: FeedCall) -> Result<Request, RequestFault>
    ensures gives { (body : List ℕ) → GivesAsked (followed (option_copied caller.entry) call) body result }
    ensures shown { IfErr result HasShownFault }
{
    match call {
        FeedCall::State => Ok(Request::State),
        FeedCall::Piece { number: _ } => forbidden_to(caller),
    }
}

/// What a task of the server asks of a mirror.
fn asked_by_task(caller: Option<&User>, task: Task) -> Result<Request, RequestFault>
    ensures gives { (body : List ℕ) → GivesAsked (asked_by_task (option_copied caller.entry) task) body result }
    ensures shown { IfErr result HasShownFault }
{
    match task {
        Task::Read(query) => Ok(Request::Read(query)),
        Task::Follow(call) => followed(caller, call),
        Task::Change(_) => forbidden_to(caller),
        Task::Moderate(_) => forbidden_to(caller),
    }
}

/// What a request line asks, where the caller may.
fn asked_by(
    caller: Option<&User>,
    line: Line,
    large_from: Option<u64>,
) -> Result<Request, RequestFault>
    ensures gives { (body : List ℕ) → GivesAsked (asked_by large_from (option_copied caller.entry) body line) body result }
    ensures shown { IfErr result HasShownFault }
{
    match line {
        Line::Piece => piece_from(caller),
        Line::Level => level_from(caller),
        Line::Served(call) => {
            let task = task_of(call, is_moderator(caller), large_from);
            asked_by_task(caller, task)
        }
    }
}

/// What the message asks, or the first cause for which it is refused: its request line has no call,
/// its body is XML, its caller isn't known or may not. It depends on the message and the users alone,
/// and looks at no body.
#[tactic(auto, unfolding(crate::specs::Request::asked))]
pub fn request_of(
    alloc: Global,
    message: &Message,
    routes: &Routes,
    users: &UserTable,
) -> Result<Request, RequestFault>
    ensures gives { GivesAsk (request_of users.now message.now) message.now.body result }
    ensures shown { IfErr result HasShownFault }
{
    let line = line_of(alloc, message, routes)?;
    if is_xml(message) {
        return Err(RequestFault::Refused(Refusal::Xml));
    }
    let caller = caller_of(message, users)?;
    asked_by(caller, line, users.large_from())
}
