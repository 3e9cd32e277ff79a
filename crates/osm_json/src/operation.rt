//! One operation.
ghost use Rattle.std.specs.Prelude.{◌≡◌, ◌<◌, ◌≤◌, length, OnOk};
ghost use Rattle.osm_json.specs.Reading.{operation_of};
ghost use Rattle.osm_json.specs.Found.{put_field, fields_of, allowed, version_in, tags_in, content_in, given_content, operation_in};
ghost use Rattle.osm_json.specs.Pull.{next_data, next_members, Pulled};
ghost use Rattle.serde_json.specs.Data.{no_members};

use crate::fault::{ReadFault, keep};
use crate::lists::{ids, references};
use crate::names::{Name, name_of};
use crate::pass::pass_value;
use crate::scalar::{enter_object, next_count, next_id, next_integer, next_kind};
use crate::tags::tags;
use json::Reader;
use osm_base::Kind;
use osm_change::{Action, RawOp};
use osm_element::{Members, RawContent, Refs, Tags};
use std::alloc::Global;

/// What was found of an operation: of each member the last, and whether it reads.
#[derive(Drop)]
pub(crate) struct Fields {
    pub(crate) kind: Option<Option<Kind>>,
    pub(crate) id: Option<Option<i64>>,
    pub(crate) version: Option<Option<u64>>,
    pub(crate) changeset: Option<Option<u64>>,
    pub(crate) lat7: Option<Option<i64>>,
    pub(crate) lon7: Option<Option<i64>>,
    pub(crate) nodes: Option<Option<Refs<i64>>>,
    pub(crate) members: Option<Option<Members<i64>>>,
    pub(crate) tags: Option<Option<Tags>>,
}

fn no_fields() -> Fields
    ensures { result ≡ fields_of no_members }
{
    Fields {
        kind: None,
        id: None,
        version: None,
        changeset: None,
        lat7: None,
        lon7: None,
        nodes: None,
        members: None,
        tags: None,
    }
}

/// Reads a member of that name.
fn field(
    alloc: Global,
    reader: &mut Reader<'_>,
    depth: usize,
    name: Name,
    found: &mut Fields,
) -> Result<(), ReadFault>
    ensures value { Pulled (λ _. found.new) (λ d. put_field name d found.old) result (next_data depth reader.old) reader.new }
    ensures shorter { OnOk result (length reader.new < length reader.old) }
{
    match name {
        Name::Type => keep(&mut found.kind, next_kind(reader, depth)),
        Name::Id => keep(&mut found.id, next_id(reader, depth)),
        Name::Version => keep(&mut found.version, next_count(reader, depth)),
        Name::Changeset => keep(&mut found.changeset, next_count(reader, depth)),
        Name::Lat7 => keep(&mut found.lat7, next_integer(reader, depth)),
        Name::Lon7 => keep(&mut found.lon7, next_integer(reader, depth)),
        Name::Nodes => keep(&mut found.nodes, ids(alloc, reader, depth)),
        Name::Members => keep(&mut found.members, references(alloc, reader, depth)),
        Name::Tags => keep(&mut found.tags, tags(alloc, reader, depth)),
        Name::Other => pass_value(reader, depth),
    }
}

/// The members of the object that was entered.
pub(crate) fn read_fields(
    alloc: Global,
    reader: &mut Reader<'_>,
    depth: usize,
) -> Result<Fields, ReadFault>
    ensures value { Pulled (λ x. x) fields_of result (next_members depth reader.old) reader.new }
    ensures shorter { OnOk result (length reader.new ≤ length reader.old) }
{
    let mut found = no_fields();
    while let Some(key) = reader.next_key()? {
        field(alloc, reader, depth, name_of(key), &mut found)?;
    }
    Ok(found)
}

fn optional(found: Option<Option<u64>>) -> Option<Option<u64>>
    ensures { result ≡ allowed found }
{
    match found {
        None => Some(None),
        Some(read) => Some(Some(read?)),
    }
}

pub(crate) fn version(action: Action, found: Option<Option<u64>>) -> Option<Option<u64>>
    ensures { result ≡ version_in action found }
{
    match action {
        Action::Create => Some(None),
        Action::Modify | Action::Delete { .. } => optional(found),
    }
}

pub(crate) fn given_tags(alloc: Global, action: Action, found: Option<Option<Tags>>) -> Option<Tags>
    ensures { result ≡ tags_in action found }
{
    match (action, found) {
        (Action::Delete { .. }, _) | (_, None) => Some(Tags::none(alloc)),
        (_, Some(tags)) => tags,
    }
}

/// The content of a kind, taken from what was found.
fn content(kind: Kind, found: &mut Fields) -> Option<RawContent>
    ensures { result ≡ content_in kind found.old }
{
    match kind {
        Kind::Node => {
            let lat7 = found.lat7??;
            let lon7 = found.lon7??;
            Some(RawContent::Node { lat7, lon7 })
        }
        Kind::Way => Some(RawContent::Way(found.nodes.take()??)),
        Kind::Relation => Some(RawContent::Relation(found.members.take()??)),
    }
}

/// The content, which a deletion has not.
pub(crate) fn content_of(
    action: Action,
    kind: Kind,
    found: &mut Fields,
) -> Option<Option<RawContent>>
    ensures { result ≡ given_content action kind found.old }
{
    match action {
        Action::Create | Action::Modify => Some(Some(content(kind, found)?)),
        Action::Delete { .. } => Some(None),
    }
}

/// The operation, whose lists and tags are taken from what was found.
#[tactic(auto, unfolding(crate::specs::Found::operation_in))]
fn operation_from(alloc: Global, action: Action, found: &mut Fields) -> Option<RawOp>
    ensures { result ≡ operation_in action found.old }
{
    let kind = found.kind??;
    let id = found.id??;
    let version = version(action, found.version)?;
    let changeset = optional(found.changeset)?;
    let tags = given_tags(alloc, action, found.tags.take())?;
    let content = content_of(action, kind, found)?;
    Some(RawOp {
        action,
        kind,
        id,
        version,
        changeset,
        content,
        tags,
    })
}

/// The operation that is next. None where it is malformed.
pub(crate) fn operation(
    alloc: Global,
    reader: &mut Reader<'_>,
    depth: usize,
    action: Action,
) -> Result<Option<RawOp>, ReadFault>
    ensures value { Pulled (λ x. x) (operation_of action) result (next_data depth reader.old) reader.new }
    ensures shorter { OnOk result (length reader.new < length reader.old) }
{
    match enter_object(reader, depth)? {
        Some(within) => {
            let mut found = read_fields(alloc, reader, within)?;
            Ok(operation_from(alloc, action, &mut found))
        }
        None => Ok(None),
    }
}
