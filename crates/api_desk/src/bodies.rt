//! What the body of a call asks.
ghost use Rattle.std.specs.Prelude.{◌≡◌, ◌∷◌, [], IfOk, IfErr};
ghost use Rattle.osm_change.specs.Build.{change_of as built, IsRawOp, IsReference};
ghost use Rattle.desk_parts.specs.Faults.{or_refused, of_change, HasShownFault};
ghost use Rattle.api_desk.specs.Bodies.{of_tags, tags_in, upload_in, change_in, command_of};
ghost use Rattle.api_desk.specs.Tasks.{HasPathNumber};
ghost use Rattle.api_desk.specs.Gives.{Gives};

use crate::tasks::Edit;
use desk_parts::RequestFault;
use osm_base::{Kind, Memory};
use osm_change::{Action, Change, OneOp, RawOp, Refusal};
use osm_element::{LocalFault, Tags};
use osm_json::{read_change, read_single, read_tags, read_title};
use osm_model::Command;
use std::alloc::Global;

/// The id that a creation is given, whose path has none.
const NO_ID: i64 = -1;

/// A changeset's tags are beyond a limit. They count as operation 0.
fn tags_fault(fault: LocalFault) -> RequestFault
    ensures { result ≡ of_tags fault }
{
    RequestFault::Refused(Refusal::Local { fault, op: Some(0) })
}

/// The tags of a changeset, within the limits.
#[tactic(auto, unfolding(crate::specs::Bodies::tags_in))]
fn tags_in(alloc: Global, body: &[u8], needed: bool) -> Result<Tags, RequestFault>
    ensures gives { Gives (tags_in needed body.now) result }
    ensures shown { IfErr result HasShownFault }
{
    let tags = read_tags(alloc, body, needed)?;
    tags.check().map_err(tags_fault)?;
    Ok(tags)
}

/// The operations of an upload.
#[tactic(auto, unfolding(crate::specs::Bodies::upload_in))]
fn upload_in(alloc: Global, changeset: u64, body: &[u8]) -> Result<Change, RequestFault>
    ensures gives { Gives (upload_in changeset body.now) result }
    ensures shown { IfErr result HasShownFault }
{
    let raw = read_change(alloc, body)?;
    Ok(Change::build(alloc, changeset, raw)?)
}

fn one(alloc: Global, op: RawOp) -> Result<Vec<RawOp>, Memory>
    ensures { IfOk result (λ ops. ops.items ≡ op ∷ []) }
{
    Ok(vec![in alloc; op]?)
}

/// One operation as an upload to a changeset.
fn single(alloc: Global, changeset: u64, op: RawOp) -> Result<OneOp, RequestFault>
    requires { IsRawOp op }
    ensures gives { Gives (or_refused of_change (built changeset (op ∷ []))) result }
    ensures shown { IfErr result HasShownFault }
{
    let change = Change::build(alloc, changeset, one(alloc, op)?)?;
    match OneOp::of(change) {
        Ok(change) => Ok(change),
        Err(_) => unreachable!(),
    }
}

/// A single change as an upload of one operation.
#[tactic(auto, unfolding(crate::specs::Bodies::change_in))]
fn change_in(
    alloc: Global,
    action: Action,
    kind: Kind,
    id: i64,
    body: &[u8],
) -> Result<Command, RequestFault>
    requires { IsReference id }
    ensures gives { Gives (change_in action kind id body.now) result }
    ensures shown { IfErr result HasShownFault }
{
    let (changeset, op) = read_single(alloc, body, action, kind, id)?;
    let change = single(alloc, changeset, op)?;
    Ok(Command::Single { changeset, change })
}

/// The command that a call and its body ask for (OpenStreetMap wiki, API v0.6).
pub fn command_of(alloc: Global, edit: Edit, body: &[u8]) -> Result<Command, RequestFault>
    requires { HasPathNumber edit }
    ensures gives { Gives (command_of edit body.now) result }
    ensures shown { IfErr result HasShownFault }
{
    match edit {
        Edit::CreateChangeset { large_from } => Ok(Command::CreateChangeset {
            tags: tags_in(alloc, body, false)?,
            large_from,
        }),
        Edit::Retag { id } => Ok(Command::Retag {
            changeset: id,
            tags: tags_in(alloc, body, true)?,
        }),
        Edit::CloseChangeset { id } => Ok(Command::CloseChangeset { changeset: id }),
        Edit::Upload { id } => Ok(Command::Upload {
            changeset: id,
            change: upload_in(alloc, id, body)?,
        }),
        Edit::CreateSingle { kind } => change_in(alloc, Action::Create, kind, NO_ID, body),
        Edit::ModifySingle { key } => {
            change_in(alloc, Action::Modify, key.kind, key.id as i64, body)
        }
        Edit::DeleteSingle { key } => {
            let action = Action::Delete { if_unused: false };
            change_in(alloc, action, key.kind, key.id as i64, body)
        }
        Edit::MakeRedaction => Ok(Command::MakeRedaction {
            title: read_title(alloc, body)?,
        }),
        Edit::Redact {
            key,
            version,
            redaction,
        } => Ok(Command::Redact {
            key,
            version,
            redaction,
        }),
        Edit::Unredact { key, version } => Ok(Command::Unredact { key, version }),
    }
}
