//! The bodies of changesets and of single elements.
ghost use Rattle.std.specs.Prelude.{◌≡◌, IfOk, [], option_map};
ghost use Rattle.serde_json.specs.Find.{as_object};
ghost use Rattle.serde_json.specs.Read.{read};
ghost use Rattle.osm_change.specs.Build.{IsReference, IsRawOp};
ghost use Rattle.osm_json.specs.Reading.{Gives, data_of, changeset_tags, single_in};
ghost use Rattle.osm_json.specs.Found.{fields_of, tags_wanted, single_id_in, same_kind, single_of_fields};
ghost use Rattle.osm_json.specs.Pull.{next_data, ended, Pulled};
ghost use Rattle.osm_json.specs.Bodies.{Finds};

use crate::fault::{BodyFault, ReadFault};
use crate::operation::{Fields, content_of, given_tags, read_fields, version};
use crate::scalar::{DEPTH_LIMIT, enter_object};
use json::{Reader, Scratch};
use osm_base::Kind;
use osm_change::{Action, RawOp};
use osm_element::Tags;
use std::alloc::Global;

/// The members of the object that is next. None where another value is.
fn object(alloc: Global, reader: &mut Reader<'_>) -> Result<Option<Fields>, ReadFault>
    ensures { Pulled (λ x. x) (λ d. option_map fields_of (as_object d)) result (next_data 127 reader.old) reader.new }
{
    match enter_object(reader, DEPTH_LIMIT)? {
        Some(within) => {
            let found = read_fields(alloc, reader, within)?;
            Ok(Some(found))
        }
        None => Ok(None),
    }
}

/// The same of an object that nothing follows.
fn whole_object(alloc: Global, reader: &mut Reader<'_>) -> Result<Option<Fields>, ReadFault>
    ensures { Pulled (λ x. x) (λ d. option_map fields_of (as_object d)) result (ended (next_data 127 reader.old)) [] }
{
    let found = object(alloc, reader)?;
    match reader.next() {
        None => Ok(found),
        Some(_) => Err(ReadFault::NotJson),
    }
}

fn object_text(alloc: Global, text: &str) -> Result<Option<Fields>, BodyFault>
    ensures { Finds result (read text.now) }
{
    let mut scratch = Scratch::new(alloc);
    let mut reader = Reader::new(text, &mut scratch)?;
    match whole_object(alloc, &mut reader) {
        Ok(found) => Ok(found),
        Err(ReadFault::NotJson) => Err(BodyFault::NotJson),
        Err(ReadFault::Memory) => Err(BodyFault::Memory),
    }
}

fn object_body(alloc: Global, body: &[u8]) -> Result<Option<Fields>, BodyFault>
    ensures { Finds result (data_of body.now) }
{
    match simdutf8::compat::from_utf8(body) {
        Ok(text) => object_text(alloc, text),
        Err(_) => Err(BodyFault::NotJson),
    }
}

fn wanted_tags(alloc: Global, found: Option<Option<Tags>>, needed: bool) -> Option<Tags>
    ensures { result ≡ tags_wanted needed found }
{
    match found {
        Some(tags) => tags,
        None => if needed {
            None
        } else {
            Some(Tags::none(alloc))
        },
    }
}

/// The tags of a changeset, for a creation or, where they are needed, for a change of its tags.
/// Where they aren't needed the body may be empty. Their lengths aren't tested yet.
pub fn read_tags(alloc: Global, body: &[u8], needed: bool) -> Result<Tags, BodyFault>
    ensures { Gives (λ t. t) result (changeset_tags needed body.now) }
{
    if !needed && body.is_empty() {
        return Ok(Tags::none(alloc));
    }
    let object = object_body(alloc, body)?;
    match object {
        None => Err(BodyFault::Shape { op: 0 }),
        Some(found) => match wanted_tags(alloc, found.tags, needed) {
            Some(tags) => Ok(tags),
            None => Err(BodyFault::Shape { op: 0 }),
        },
    }
}

/// Whether the body names no other kind than the path.
fn is_same_kind(found: Option<Option<Kind>>, kind: Kind) -> bool
    ensures { result ≡ same_kind kind found }
{
    match found {
        None => true,
        Some(None) => false,
        Some(Some(said)) => kind.is(said),
    }
}

/// The id that the path names, unless the body names another; for a creation a placeholder.
fn path_id(found: Option<Option<i64>>, action: Action, id: i64) -> Option<i64>
    ensures { result ≡ single_id_in action id found }
{
    match (action, found) {
        (Action::Create, _) => Some(-1),
        (_, None) => Some(id),
        (_, Some(None)) => None,
        (_, Some(Some(said))) => if id == said { Some(id) } else { None },
    }
}

/// The changeset and the operation, whose lists and tags are taken from what was found.
#[tactic(auto, unfolding(crate::specs::Found::single_of_fields))]
fn single_from(
    alloc: Global,
    found: &mut Fields,
    action: Action,
    kind: Kind,
    id: i64,
) -> Option<(u64, RawOp)>
    ensures { result ≡ single_of_fields action kind id found.old }
{
    if !is_same_kind(found.kind, kind) {
        return None;
    }
    let named = path_id(found.id, action, id)?;
    let version = version(action, found.version)?;
    let changeset = found.changeset??;
    let tags = given_tags(alloc, action, found.tags.take())?;
    let content = content_of(action, kind, found)?;
    Some((
        changeset,
        RawOp {
            action,
            kind,
            id: named,
            version,
            changeset: Some(changeset),
            content,
            tags,
        },
    ))
}

/// The changeset and the operation that a single element's body and its path give. A creation has
/// the placeholder -1. For a modification or a deletion `id` is the path's.
pub fn read_single(
    alloc: Global,
    body: &[u8],
    action: Action,
    kind: Kind,
    id: i64,
) -> Result<(u64, RawOp), BodyFault>
    ensures value { Gives (λ p. p) result (single_in action kind id body.now) }
    ensures raw { IsReference id → IfOk result (λ p. IsRawOp p.1) }
{
    let object = object_body(alloc, body)?;
    match object {
        None => Err(BodyFault::Shape { op: 1 }),
        Some(mut found) => match single_from(alloc, &mut found, action, kind, id) {
            Some(single) => Ok(single),
            None => Err(BodyFault::Shape { op: 1 }),
        },
    }
}
