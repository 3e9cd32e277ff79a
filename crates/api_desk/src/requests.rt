//! What a message asks.
//!
//! A request is a command with its user, a query, or a call of the feed, so a read can't be taken
//! for a change by any caller of `request_of`.
//!
//! Who may ask is told by the kind of call: whoever changes the map must be known, whoever redacts
//! must be a moderator; whoever reads may leave the field out, but a wrong token is refused there
//! too, and before the role is looked at.
//!
//! The parameter that asks to see what is redacted counts for a moderator alone. It is read all
//! the same, so a value that can't be read is refused to everybody.
ghost use Rattle.std.specs.Prelude.{◌≡◌, option_copied, option_map, MatchResult, Ok, Err, IfErr};
ghost use Rattle.api_desk.specs.declared.tasks.Task.TheVariants as task;
ghost use Rattle.api_desk.specs.Request.{is_moderator, known_user, known_moderator, work_of, piece_asked, asked_by, request_of};
ghost use Rattle.api_desk.specs.Tasks.{HasPathNumber, HasTaskNumbers};
ghost use Rattle.desk_parts.specs.Faults.{HasShownFault};
ghost use Rattle.api_desk.specs.Gives.{GivesRequest, GivesAsked};

use crate::bodies::command_of;
use crate::feed::FeedCall;
use crate::tasks::{Edit, Task, task_of};
use desk_parts::{RequestFault, caller_of, is_xml};
use http_wire::Message;
use map_machine::Asked;
use osm_base::{TryCopy, User};
use osm_change::Refusal;
use osm_model::Query;
use route_table::Routes;
use std::alloc::Global;
use user_table::UserTable;

/// What a message asks of the map, or of the feed.
#[derive(Drop)]
pub enum Request {
    Change(Asked),
    Read(Query),
    Feed(FeedCall),
}

/// Whether the caller is a moderator.
pub fn is_moderator(caller: Option<&User>) -> bool
    ensures { result ≡ is_moderator (option_copied caller.entry) }
{
    match caller {
        Some(user) => user.moderator,
        None => false,
    }
}

/// A caller who says who it is.
pub fn known_user(caller: Option<&User>) -> Result<&User, Refusal>
    ensures { MatchResult result (λ user. known_user (option_copied caller.entry) ≡ Ok user.now)
        (λ r. known_user (option_copied caller.entry) ≡ Err r) }
{
    caller.ok_or(Refusal::NoUser)
}

/// A caller who says who it is, and is a moderator.
pub fn known_moderator(caller: Option<&User>) -> Result<&User, Refusal>
    ensures { MatchResult result (λ user. known_moderator (option_copied caller.entry) ≡ Ok user.now)
        (λ r. known_moderator (option_copied caller.entry) ≡ Err r) }
{
    let user = known_user(caller)?;
    if user.moderator {
        Ok(user)
    } else {
        Err(Refusal::Role)
    }
}

/// The work that a user asks for, by its body.
fn work_of(alloc: Global, edit: Edit, body: &[u8], user: &User) -> Result<Request, RequestFault>
    requires { HasPathNumber edit }
    ensures gives { GivesAsked (work_of edit body.now user.now) result }
    ensures shown { IfErr result HasShownFault }
{
    let user = user.copy(alloc)?;
    let command = command_of(alloc, edit, body)?;
    Ok(Request::Change(Asked { user, command }))
}

/// The work, where the caller is a user.
fn work_by_user(
    alloc: Global,
    caller: Option<&User>,
    body: &[u8],
    edit: Edit,
) -> Result<Request, RequestFault>
    requires { HasPathNumber edit }
    ensures gives { GivesAsked (asked_by (option_copied caller.entry) body.now (task.Change edit)) result }
    ensures shown { IfErr result HasShownFault }
{
    let user = known_user(caller)?;
    work_of(alloc, edit, body, user)
}

/// The work, where the caller is a moderator.
fn work_by_moderator(
    alloc: Global,
    caller: Option<&User>,
    body: &[u8],
    edit: Edit,
) -> Result<Request, RequestFault>
    requires { HasPathNumber edit }
    ensures gives { GivesAsked (asked_by (option_copied caller.entry) body.now (task.Moderate edit)) result }
    ensures shown { IfErr result HasShownFault }
{
    let user = known_moderator(caller)?;
    work_of(alloc, edit, body, user)
}

/// The call for a piece, where the caller is a moderator.
fn piece_by_moderator(caller: Option<&User>, number: u64) -> Result<Request, RequestFault>
    ensures gives { GivesAsked (piece_asked (option_copied caller.entry) number) result }
    ensures shown { IfErr result HasShownFault }
{
    let _moderator = known_moderator(caller)?;
    Ok(Request::Feed(FeedCall::Piece { number }))
}

/// What a task asks, where the caller may.
fn asked_by(
    alloc: Global,
    caller: Option<&User>,
    body: &[u8],
    task: Task,
) -> Result<Request, RequestFault>
    requires { HasTaskNumbers task }
    ensures gives { GivesAsked (asked_by (option_copied caller.entry) body.now task) result }
    ensures shown { IfErr result HasShownFault }
{
    match task {
        Task::Read(query) => Ok(Request::Read(query)),
        Task::Change(edit) => work_by_user(alloc, caller, body, edit),
        Task::Moderate(edit) => work_by_moderator(alloc, caller, body, edit),
        Task::Follow(FeedCall::State) => Ok(Request::Feed(FeedCall::State)),
        Task::Follow(FeedCall::Piece { number }) => piece_by_moderator(caller, number),
    }
}

/// What the message asks, or the first cause for which it is refused: its request line has no call,
/// its body is XML, its caller isn't known or may not, its body is none of the call. It depends on
/// the message and the users alone.
#[tactic(auto, unfolding(crate::specs::Request::asked))]
pub fn request_of(
    alloc: Global,
    message: &Message,
    routes: &Routes,
    users: &UserTable,
) -> Result<Request, RequestFault>
    ensures gives { GivesRequest (request_of users.now message.now) result }
    ensures shown { IfErr result HasShownFault }
{
    let call = routes.route(alloc, message.method.as_slice(), message.target.as_slice())?;
    if is_xml(message) {
        return Err(RequestFault::Refused(Refusal::Xml));
    }
    let caller = caller_of(message, users)?;
    let task = task_of(call, is_moderator(caller), users.large_from());
    asked_by(alloc, caller, message.body.as_slice(), task)
}
