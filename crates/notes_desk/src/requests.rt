//! What a message asks.
ghost use Rattle.std.specs.Prelude.{◌≡◌, option_copied, MatchResult, Ok, Err, IfErr};
ghost use Rattle.osm_change.specs.declared.refusals.Refusal.TheVariants.{NoUser};
ghost use Rattle.desk_parts.specs.Faults.{Gives, HasShownFault};
ghost use Rattle.notes_desk.specs.Request.{may, work_of, asked_by, notes_request_of, shown_request, GivesRequest};

use crate::bodies::command_of;
use crate::calls::{NoteCall, NoteEdit, call_of};
use desk_parts::{RequestFault, caller_of, is_xml, owner_of};
use http_wire::Message;
use notes_core::{NoteAsked, NoteQuery};
use osm_base::User;
use osm_change::Refusal;
use std::alloc::Global;
use user_table::UserTable;

/// What a message asks of the notes.
#[derive(Drop)]
pub enum NoteRequest {
    Change(NoteAsked),
    Read(NoteQuery),
}

/// Whether the caller may do that work: anybody may open a note, and only a user may do the rest.
fn may(caller: Option<&User>, edit: NoteEdit) -> Result<(), Refusal>
    ensures { MatchResult result (λ done. may (option_copied caller.entry) edit ≡ Ok tt)
        (λ r. (may (option_copied caller.entry) edit ≡ Err r) × (r ≡ NoUser)) }
{
    match edit {
        NoteEdit::Open => Ok(()),
        NoteEdit::Comment { .. } | NoteEdit::Close { .. } | NoteEdit::Reopen { .. } => {
            match caller {
                Some(_) => Ok(()),
                None => Err(Refusal::NoUser),
            }
        }
    }
}

/// The work that a caller asks for, by its body.
fn work_of(
    alloc: Global,
    caller: Option<&User>,
    edit: NoteEdit,
    body: &[u8],
) -> Result<NoteRequest, RequestFault>
    ensures gives { Gives shown_request (work_of (option_copied caller.entry) edit body.now) result }
    ensures shown { IfErr result HasShownFault }
{
    let caller = owner_of(alloc, caller)?;
    let command = command_of(alloc, edit, body)?;
    Ok(NoteRequest::Change(NoteAsked { caller, command }))
}

/// What a call asks, where the caller may.
fn asked_by(
    alloc: Global,
    caller: Option<&User>,
    body: &[u8],
    call: NoteCall,
) -> Result<NoteRequest, RequestFault>
    ensures gives { Gives shown_request (asked_by (option_copied caller.entry) body.now call) result }
    ensures shown { IfErr result HasShownFault }
{
    match call {
        NoteCall::Read(query) => Ok(NoteRequest::Read(query)),
        NoteCall::Write(edit) => {
            may(caller, edit)?;
            work_of(alloc, caller, edit, body)
        }
    }
}

/// What the message asks of the notes, or the first cause for which it is refused: its request line
/// has no call, its body is XML, its caller isn't known or may not, its body is none of the call. It
/// depends on the message and the users alone.
#[tactic(auto, unfolding(crate::specs::Request::asked))]
pub fn notes_request_of(
    alloc: Global,
    message: &Message,
    users: &UserTable,
) -> Result<NoteRequest, RequestFault>
    ensures gives { GivesRequest (notes_request_of users.now message.now) result }
    ensures shown { IfErr result HasShownFault }
{
    let call = call_of(alloc, message.method.as_slice(), message.target.as_slice())?;
    if is_xml(message) {
        return Err(RequestFault::Refused(Refusal::Xml));
    }
    let caller = caller_of(message, users)?;
    asked_by(alloc, caller, message.body.as_slice(), call)
}
