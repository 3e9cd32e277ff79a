//! From what a body says to operations whose names stand for elements.
//!
//! A create's references are named before its placeholder is bound, so no element of an upload
//! lists itself by its own placeholder; a double placeholder still comes before an unknown one.
//!
//! A delete's content and tags aren't looked at.
ghost use Rattle.std.specs.Prelude.{◌≡◌, true, ◌+◌, ◌^◌, ◌<◌, length, [], None, Some, Ok, Err, OnOk, MatchOption, ⊤};
ghost use Rattle.osm_base.specs.Outcome.{unless};
ghost use Rattle.osm_base.specs.Place.{is_position};
ghost use Rattle.placeholder_map.specs.Placeholders.{no_placeholders, look_of, bound};
ghost use Rattle.osm_change.specs.Outcome.{Gives, each, GivesChange};
ghost use Rattle.osm_change.specs.Build.{IsRaw, IsRawOp, IsReference, IsPlaced, name_of, member_named, content_unless, local_cause, created, modified, deleted, op_of, noted, operations_after, other_name, other_changeset, change_of};

use crate::causes::{Cause, ShapeFault};
use crate::changes::Change;
use crate::operations::{Name, Op};
use crate::raw::{Action, RawOp};
use osm_base::{Coord, Items, Kind};
use osm_element::{BoxedItems, Content, Member, RawContent, Tags, check_local};
use placeholder_map::PlaceholderMap;
use std::alloc::Global;

/// The element that an id of a document names.
fn name_of(placeholders: &PlaceholderMap, kind: Kind, id: i64) -> Result<Name, Cause>
    ensures { result ≡ name_of (look_of placeholders.now) kind id }
{
    if id >= 0 {
        return Ok(Name::old(id as u64));
    }
    match placeholders.look(kind, id) {
        Some(place) => Ok(Name::new(place)),
        None => Err(Cause::UnknownPlaceholder),
    }
}

fn names_of(
    alloc: Global,
    placeholders: &PlaceholderMap,
    ids: &[i64],
) -> Result<BoxedItems<Name>, Cause>
    ensures { Gives (each (name_of (look_of placeholders.now) Kind.Node) ids.now) result }
{
    let mut names = Vec::with_capacity(alloc, ids.len())?;
    for id in ids {
        names.push(name_of(placeholders, Kind::Node, *id)?)?;
    }
    Ok(BoxedItems::of(alloc, names)?)
}

/// The roles are moved, not copied.
fn members_named(
    alloc: Global,
    placeholders: &PlaceholderMap,
    members: Vec<Member<i64>>,
) -> Result<BoxedItems<Member<Name>>, Cause>
    ensures { Gives (each (member_named (look_of placeholders.now)) members.items) result }
{
    let mut named = Vec::with_capacity(alloc, members.len())?;
    for member in members {
        let name = name_of(placeholders, member.kind, member.name)?;
        named.push(Member {
            kind: member.kind,
            name,
            role: member.role,
        })?;
    }
    Ok(BoxedItems::of(alloc, named)?)
}

fn position(lat7: i64, lon7: i64) -> Coord
    requires { is_position lat7 lon7 ≡ true }
    ensures { result ≡ record { lat7 = lat7; lon7 = lon7 } }
{
    Coord::new(lat7 as i32, lon7 as i32).unwrap()
}

/// A content with names. `later` is a cause that counts where each reference has a name.
fn content_named(
    alloc: Global,
    placeholders: &PlaceholderMap,
    content: RawContent,
    later: Option<Cause>,
) -> Result<Content<Name>, Cause>
    requires { MatchOption later (IsPlaced content) (λ _. ⊤) }
    ensures { Gives (content_unless (look_of placeholders.now) content later) result }
{
    match content {
        RawContent::Node { lat7, lon7 } => {
            refuse(later)?;
            Ok(Content::Node(position(lat7, lon7)))
        }
        RawContent::Way(nodes) => {
            let names = names_of(alloc, placeholders, nodes.items())?;
            refuse(later)?;
            Ok(Content::Way(names))
        }
        RawContent::Relation(members) => {
            let named = members_named(alloc, placeholders, members.into_vec())?;
            refuse(later)?;
            Ok(Content::Relation(named))
        }
    }
}

fn refuse(cause: Option<Cause>) -> Result<(), Cause>
    ensures { result ≡ unless cause (Ok tt) }
{
    match cause {
        Some(cause) => Err(cause),
        None => Ok(()),
    }
}

fn local_cause(tags: &Tags, content: &RawContent) -> Option<Cause>
    ensures value { result ≡ local_cause tags.now content.now }
    ensures placed { MatchOption result (IsPlaced content.now) (λ _. ⊤) }
{
    match check_local(tags, content) {
        Ok(()) => None,
        Err(fault) => Some(Cause::Local(fault)),
    }
}

/// References are named before the placeholder is bound, so no element lists itself. A double
/// placeholder is told all the same.
fn created(
    alloc: Global,
    placeholders: &mut PlaceholderMap,
    place: u32,
    op: RawOp,
    content: RawContent,
) -> Result<Op, Cause>
    requires { IsReference op.id }
    ensures gives { Gives (created (look_of placeholders.old) op content) result }
    ensures bound { OnOk result (placeholders.new ≡ bound placeholders.old op.kind op.id place) }
{
    if op.id > 0 {
        return Err(Cause::NotNegative);
    }
    let later = local_cause(&op.tags, &content);
    let named = content_named(alloc, placeholders, content, later);
    if !placeholders.bind(op.kind, op.id, place)? {
        return Err(Cause::DoublePlaceholder);
    }
    Ok(Op::Create {
        placeholder: op.id,
        content: named?,
        tags: op.tags,
    })
}

fn modified(
    alloc: Global,
    placeholders: &PlaceholderMap,
    op: RawOp,
    content: RawContent,
) -> Result<Op, Cause>
    ensures { Gives (modified (look_of placeholders.now) op content) result }
{
    let name = name_of(placeholders, op.kind, op.id)?;
    let local = local_cause(&op.tags, &content);
    let later = match op.version {
        Some(_) => local,
        None => Some(Cause::NoVersion),
    };
    let content = content_named(alloc, placeholders, content, later)?;
    let version = op.version.ok_or(Cause::NoVersion)?;
    Ok(Op::Modify {
        name,
        version,
        content,
        tags: op.tags,
    })
}

fn deleted(placeholders: &PlaceholderMap, op: &RawOp, if_unused: bool) -> Result<Op, Cause>
    ensures { Gives (deleted (look_of placeholders.now) op.now if_unused) result }
{
    let name = name_of(placeholders, op.kind, op.id)?;
    let version = op.version.ok_or(Cause::NoVersion)?;
    Ok(Op::Delete {
        kind: op.kind,
        name,
        version,
        if_unused,
    })
}

fn operation(
    alloc: Global,
    placeholders: &mut PlaceholderMap,
    place: u32,
    mut op: RawOp,
) -> Result<Op, Cause>
    requires { IsRawOp op }
    ensures gives { Gives (op_of (look_of placeholders.old) op) result }
    ensures noted { OnOk result (placeholders.new ≡ noted placeholders.old op place) }
{
    let content = op.content.take();
    match (op.action, content) {
        (Action::Create, Some(content)) => created(alloc, placeholders, place, op, content),
        (Action::Modify, Some(content)) => modified(alloc, placeholders, op, content),
        (Action::Delete { if_unused }, _) => deleted(placeholders, &op, if_unused),
        (Action::Create | Action::Modify, None) => unreachable!(),
    }
}

/// The operations, by placeholders that bind nothing yet.
fn operations_with(
    alloc: Global,
    placeholders: &mut PlaceholderMap,
    raw: Vec<RawOp>,
) -> Result<Items<Op>, ShapeFault>
    requires bare { placeholders.old ≡ no_placeholders }
    requires raw { IsRaw raw.items }
    ensures { GivesChange (operations_after [] raw.items) result }
{
    let mut operations = Vec::with_capacity(alloc, raw.len())?;
    let mut place = 0;
    for op in raw {
        match operation(alloc, placeholders, place, op) {
            Ok(operation) => operations.push(operation)?,
            Err(cause) => return Err(ShapeFault::at(place, cause)),
        }
        place += 1;
    }
    Ok(Items::of(operations))
}

fn operations(alloc: Global, raw: Vec<RawOp>) -> Result<Items<Op>, ShapeFault>
    requires { IsRaw raw.items }
    ensures { GivesChange (operations_after [] raw.items) result }
{
    let mut placeholders = PlaceholderMap::new(alloc);
    operations_with(alloc, &mut placeholders, raw)
}

/// The changeset that an operation names, where it is another one.
fn other_name(changeset: u64, named: Option<u64>) -> Option<u64>
    ensures { result ≡ other_name changeset named }
{
    match named {
        Some(named) if named != changeset => Some(named),
        _ => None,
    }
}

/// The first operation that names another changeset.
fn other_changeset(changeset: u64, raw: &[RawOp]) -> Option<ShapeFault>
    requires { length raw.now < 2 ^ 32 }
    ensures { result ≡ other_changeset changeset 0 raw.now }
{
    for place in 0..raw.len() {
        if let Some(named) = other_name(changeset, raw[place].changeset) {
            let cause = Cause::OtherChangeset { named };
            return Some(ShapeFault::at(place as u32, cause));
        }
    }
    None
}

impl Change {
    /// Reads the operations of an upload to the changeset. First the first operation with one of
    /// the lower causes counts, then the first that names another changeset.
    pub fn build(alloc: Global, changeset: u64, raw: Vec<RawOp>) -> Result<Change, ShapeFault>
        requires { IsRaw raw.items }
        ensures { GivesChange (change_of changeset raw.items) result }
    {
        let other = other_changeset(changeset, raw.as_slice());
        let operations = operations(alloc, raw)?;
        match other {
            Some(fault) => Err(fault),
            None => Ok(Change::of(operations)),
        }
    }
}
