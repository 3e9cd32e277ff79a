//! The blocks of a change, written one operation after another.
#![tactic(auto, unfolding(crate::specs::Sent::tokens_of, crate::specs::Sent::field_tokens))]

ghost use Rattle.std.specs.Prelude.{◌≡◌, List, ◌∷◌, ◌++◌, [], flat_map, map, codes, All};
ghost use Rattle.osm_change.specs.Change.{kind_of, names_listed, names_given};
ghost use Rattle.osm_change.specs.Document.{member_said, content_said, op_said, document_of};
ghost use Rattle.osm_change.specs.Said.{IsSaid, said};
ghost use Rattle.osm_change.specs.declared.operations.Op.{Op};
ghost use Rattle.osm_json.specs.Fields.{IsMember, shown_field};
ghost use Rattle.osm_json.specs.Rows.{tags as tags_data};
ghost use Rattle.osm_json.specs.Sent.{Sends, SendsFields, tokens_of};
ghost use Rattle.osm_json.specs.Shown.{field, field_if, natural, integer, kind, record_of};
ghost use Rattle.osm_json.specs.Uploads.{text_if_some, given_member, content_given, tags_if_some, given_op, action_eq, name_of_action, if_unused_field, in_blocks, given_block, step_of, change as change_data};
ghost use Rattle.osm_json.specs.Blocks.{opened, closed, turned};

use crate::contents::tags;
use crate::send::{FieldValue, kind_name, members, optional, record};
use json::Writer;
use osm_base::Kind;
use osm_change::{Action, Change, Name, Op, kind_of, names_are_said};
use osm_element::{Content, Member, Tags};
use std::alloc::AllocError;

// The parts of an operation.

fn text_if_some(text: &str) -> FieldValue<'_>
    ensures { IsMember result (λ name. text_if_some name text.now) }
{
    if text.is_empty() {
        FieldValue::Absent
    } else {
        FieldValue::Text(text)
    }
}

#[tactic(auto, unfolding(crate::specs::Uploads::given_member))]
fn member(out: &mut Writer, change: &Change, member: &Member<Name>) -> Result<(), AllocError>
    requires { IsSaid change.now member.now.name }
    ensures { Sends result out.old out.new (tokens_of (given_member (member_said change.now member.now))) }
{
    record(
        out,
        &[
            ("ref", FieldValue::Integer(change.said(member.name))),
            ("role", text_if_some(member.role.as_str())),
            ("type", FieldValue::Text(kind_name(member.kind))),
        ],
    )
}

fn member_list(out: &mut Writer, change: &Change, list: &[Member<Name>]) -> Result<(), AllocError>
    requires { All (λ m. IsSaid change.now m.name) list.now }
    ensures { Sends result out.old out.new (flat_map (λ m. tokens_of (given_member (member_said change.now m))) list.now) }
{
    for listed in list {
        member(out, change, listed)?;
    }
    Ok(())
}

fn node_list(out: &mut Writer, change: &Change, names: &[Name]) -> Result<(), AllocError>
    requires { All (IsSaid change.now) names.now }
    ensures { Sends result out.old out.new (flat_map (λ name. tokens_of (integer (said change.now name))) names.now) }
{
    for name in names {
        out.i64(change.said(*name))?;
    }
    Ok(())
}

fn position(out: &mut Writer, lat7: i32, lon7: i32) -> Result<(), AllocError>
    ensures { SendsFields result out.old out.new (field (codes "lat7") (integer lat7) ∷ field (codes "lon7") (integer lon7) ∷ []) }
{
    members(
        out,
        &[
            ("lat7", FieldValue::Integer(lat7 as i64)),
            ("lon7", FieldValue::Integer(lon7 as i64)),
        ],
    )
}

fn content(out: &mut Writer, change: &Change, content: &Content<Name>) -> Result<(), AllocError>
    requires { All (λ given. IsSaid change.now given.name) (names_listed content.now) }
    ensures { SendsFields result out.old out.new (content_given (content_said change.now content.now)) }
{
    match content {
        Content::Node(at) => position(out, at.lat7(), at.lon7()),
        Content::Way(names) => {
            out.key("nodes")?;
            out.begin_array()?;
            node_list(out, change, names.items())?;
            out.end_array()?;
            Ok(())
        }
        Content::Relation(list) => {
            out.key("members")?;
            out.begin_array()?;
            member_list(out, change, list.items())?;
            out.end_array()?;
            Ok(())
        }
    }
}

fn tags_if_some(out: &mut Writer, of: &Tags) -> Result<(), AllocError>
    ensures { SendsFields result out.old out.new (tags_if_some of.now ∷ []) }
{
    if of.len() == 0 {
        return Ok(());
    }
    out.key("tags")?;
    tags(out, &of.list())?;
    Ok(())
}

// Operations.

fn type_and_version(out: &mut Writer, of: Kind, version: Option<u64>) -> Result<(), AllocError>
    ensures { SendsFields result out.old out.new (field (codes "type") (kind of) ∷ field_if (codes "version") natural version ∷ []) }
{
    members(
        out,
        &[
            ("type", FieldValue::Text(kind_name(of))),
            ("version", optional(version)),
        ],
    )
}

/// A creation or a modification.
fn kept(
    out: &mut Writer,
    change: &Change,
    id: i64,
    version: Option<u64>,
    holds: &Content<Name>,
    tags: &Tags,
) -> Result<(), AllocError>
    requires { All (λ given. IsSaid change.now given.name) (names_listed holds.now) }
    ensures { Sends result out.old out.new (tokens_of (record_of (
        field (codes "id") (integer id)
        ∷ (content_given (content_said change.now holds.now)
        ++ (tags_if_some tags.now
        ∷ field (codes "type") (kind (kind_of holds.now))
        ∷ field_if (codes "version") natural version ∷ []))))) }
{
    out.begin_object()?;
    members(out, &[("id", FieldValue::Integer(id))])?;
    content(out, change, holds)?;
    tags_if_some(out, tags)?;
    type_and_version(out, kind_of(holds), version)?;
    out.end_object()
}

#[tactic(auto, unfolding(crate::specs::Uploads::given_op))]
fn operation(out: &mut Writer, change: &Change, op: &Op) -> Result<(), AllocError>
    requires { All (λ given. IsSaid change.now given.name) (names_given op.now) }
    ensures { Sends result out.old out.new (tokens_of (given_op (op_said change.now op.now))) }
{
    match op {
        Op::Create {
            placeholder,
            content,
            tags,
        } => kept(out, change, *placeholder, None, content, tags),
        Op::Modify {
            name,
            version,
            content,
            tags,
        } => kept(
            out,
            change,
            change.said(*name),
            Some(*version),
            content,
            tags,
        ),
        Op::Delete {
            kind,
            name,
            version,
            ..
        } => record(
            out,
            &[
                ("id", FieldValue::Integer(change.said(*name))),
                ("tags", FieldValue::Absent),
                ("type", FieldValue::Text(kind_name(*kind))),
                ("version", FieldValue::Natural(*version)),
            ],
        ),
    }
}

fn action_of(op: &Op) -> Action
    ensures { (all : List Op) → (op_said all op.now).action ≡ result }
{
    match op {
        Op::Create { .. } => Action::Create,
        Op::Modify { .. } => Action::Modify,
        Op::Delete { if_unused, .. } => Action::Delete {
            if_unused: *if_unused,
        },
    }
}

// Blocks.

fn is_same(action: Action, other: Action) -> bool
    ensures { result ≡ action_eq action other }
{
    match (action, other) {
        (Action::Create, Action::Create) | (Action::Modify, Action::Modify) => true,
        (Action::Delete { if_unused: a }, Action::Delete { if_unused: b }) => a == b,
        _ => false,
    }
}

fn name_of_action(action: Action) -> &'static str
    ensures { result.now ≡ name_of_action action }
{
    match action {
        Action::Create => "create",
        Action::Modify => "modify",
        Action::Delete { .. } => "delete",
    }
}

fn open(out: &mut Writer, action: Action) -> Result<(), AllocError>
    ensures { Sends result out.old out.new (opened action) }
{
    out.begin_object()?;
    out.key(name_of_action(action))?;
    out.begin_array()?;
    Ok(())
}

fn if_unused(action: Action) -> FieldValue<'static>
    ensures { shown_field (codes "if-unused") result ≡ if_unused_field action }
{
    match action {
        Action::Create | Action::Modify => FieldValue::Absent,
        Action::Delete { if_unused } => if if_unused {
            FieldValue::Flag(true)
        } else {
            FieldValue::Absent
        },
    }
}

fn close(out: &mut Writer, action: Action) -> Result<(), AllocError>
    ensures { Sends result out.old out.new (closed action) }
{
    out.end_array()?;
    members(out, &[("if-unused", if_unused(action))])?;
    out.end_object()
}

/// Goes on to an operation of that action, from those of the block that is open.
fn turn(out: &mut Writer, last: Option<Action>, action: Action) -> Result<(), AllocError>
    ensures { Sends result out.old out.new (turned last action) }
{
    match last {
        None => open(out, action),
        Some(last) => if is_same(last, action) {
            Ok(())
        } else {
            close(out, last)?;
            open(out, action)
        },
    }
}

fn blocks(out: &mut Writer, change: &Change) -> Result<(), AllocError>
    ensures { Sends result out.old out.new (flat_map (λ b. tokens_of (given_block b)) (in_blocks (map step_of (document_of change.now)))) }
{
    names_are_said();
    let mut last = None;
    for op in change.operations() {
        let action = action_of(op);
        turn(out, last, action)?;
        operation(out, change, op)?;
        last = Some(action);
    }
    match last {
        None => Ok(()),
        Some(action) => close(out, action),
    }
}

/// Writes the list of blocks of a change, as the value that is next. Neighbouring operations of
/// one action stand in one block, and none names its changeset.
#[tactic(auto, unfolding(crate::specs::Uploads::given_ops))]
pub fn write_change(out: &mut Writer, change: &Change) -> Result<(), AllocError>
    ensures { Sends result out.old out.new (tokens_of (change_data change.now)) }
{
    out.begin_array()?;
    blocks(out, change)?;
    out.end_array()?;
    Ok(())
}

/// Writes the object of tags, as the value that is next.
pub fn write_tags(out: &mut Writer, of: &Tags) -> Result<(), AllocError>
    ensures { Sends result out.old out.new (tokens_of (tags_data of.now)) }
{
    tags(out, &of.list())
}
