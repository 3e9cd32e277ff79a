//! The elements that an operation looks at.
ghost use Rattle.std.specs.Prelude.{◌≡◌, ◌++◌, map, OnOk};
ghost use Rattle.osm_change.specs.Change.{named, named_member, names_listed, names_given};
ghost use Rattle.osm_later.specs.Looked.{old_key, old_keys, replaced_key, deleted_key, user_named, listed_by};
ghost use Rattle.osm_world.specs.World.{state_of};

use crate::references::add_refs;
use crate::sights::stored;
use osm_base::{Key, Kind, Memory};
use osm_change::{Name, Op, Referent, Refusal, Said, kind_of};
use osm_element::{Content, Member};
use osm_world::World;

/// Adds an element that is named by its id.
fn add_old(kind: Kind, name: Name, listed: &mut Vec<Key>) -> Result<(), Memory>
    ensures { OnOk result (listed.new.items ≡ listed.old.items ++ old_key kind name) }
{
    match name.referent() {
        Referent::Old(id) => Ok(listed.push(Key { kind, id })?),
        Referent::New(_) => Ok(()),
    }
}

fn add_nodes(nodes: &[Name], listed: &mut Vec<Key>) -> Result<(), Memory>
    ensures { OnOk result (listed.new.items ≡ listed.old.items ++ old_keys (map (named Kind.Node) nodes.now)) }
{
    for name in nodes {
        add_old(Kind::Node, *name, listed)?;
    }
    Ok(())
}

fn add_members(members: &[Member<Name>], listed: &mut Vec<Key>) -> Result<(), Memory>
    ensures { OnOk result (listed.new.items ≡ listed.old.items ++ old_keys (map named_member members.now)) }
{
    for member in members {
        add_old(member.kind, member.name, listed)?;
    }
    Ok(())
}

fn add_content(content: &Content<Name>, listed: &mut Vec<Key>) -> Result<(), Memory>
    ensures { OnOk result (listed.new.items ≡ listed.old.items ++ old_keys (names_listed content.now)) }
{
    match content {
        Content::Node(_) => Ok(()),
        Content::Way(nodes) => add_nodes(nodes.items(), listed),
        Content::Relation(members) => add_members(members.items(), listed),
    }
}

/// Adds what an operation names by ids.
pub fn add_names(operation: &Op, listed: &mut Vec<Key>) -> Result<(), Memory>
    ensures { OnOk result (listed.new.items ≡ listed.old.items ++ old_keys (names_given operation.now)) }
{
    match operation {
        Op::Create { content, .. } => add_content(content, listed),
        Op::Modify { name, content, .. } => {
            add_old(kind_of(content), *name, listed)?;
            add_content(content, listed)
        }
        Op::Delete { kind, name, .. } => add_old(*kind, *name, listed),
    }
}

/// Adds what an element lists on the world.
fn add_stored(world: &World, kind: Kind, name: Name, listed: &mut Vec<Key>) -> Result<(), Memory>
    ensures { OnOk result (listed.new.items ≡ listed.old.items ++ listed_by (state_of world.now).elements (old_key kind name)) }
{
    match name.referent() {
        Referent::Old(id) => match stored(world, Key { kind, id }) {
            Some(content) => add_refs(&content, listed),
            None => Ok(()),
        },
        Referent::New(_) => Ok(()),
    }
}

/// Adds what the content lists that an operation replaces, as it is on the world.
pub fn add_replaced(world: &World, operation: &Op, listed: &mut Vec<Key>) -> Result<(), Memory>
    ensures { OnOk result (listed.new.items ≡ listed.old.items ++ listed_by (state_of world.now).elements (replaced_key operation.now)) }
{
    match operation {
        Op::Create { .. } => Ok(()),
        Op::Modify { name, content, .. } => add_stored(world, kind_of(content), *name, listed),
        Op::Delete { kind, name, .. } => add_stored(world, *kind, *name, listed),
    }
}

/// Adds the element that an operation deletes, if it is named by its id.
pub fn add_deleted(operation: &Op, listed: &mut Vec<Key>) -> Result<(), Memory>
    ensures { OnOk result (listed.new.items ≡ listed.old.items ++ deleted_key operation.now) }
{
    match operation {
        Op::Create { .. } | Op::Modify { .. } => Ok(()),
        Op::Delete { kind, name, .. } => add_old(*kind, *name, listed),
    }
}

ghost use Rattle.std.specs.Prelude.{Err};

/// Adds the user that a refusal names by its id.
pub fn add_user(refusal: &Refusal, listed: &mut Vec<Key>) -> Result<(), Memory>
    ensures { OnOk result (listed.new.items ≡ listed.old.items ++ user_named (Err refusal.now)) }
{
    match refusal {
        Refusal::Used {
            user_id: Said::Id(id),
            user_kind,
            ..
        } => {
            listed.push(Key {
                kind: *user_kind,
                id: *id,
            })?;
            Ok(())
        }
        _ => Ok(()),
    }
}
