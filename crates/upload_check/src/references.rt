//! What contents list.
//!
//! References are sorted in a list that is kept from one operation to the next, so an operation
//! makes no list of names. Where that list is too short, it takes room for all that a content lists.
ghost use Rattle.std.specs.Prelude.{◌≡◌, ◌++◌, map, OnOk};
ghost use Rattle.std.specs.List.{list_any};
ghost use Rattle.osm_base.specs.Key.{key_eq, lists_key};
ghost use Rattle.osm_element.specs.Elements.{key, key_of_member, refs, refs_in};
ghost use Rattle.osm_element.specs.Held.{held_content};
ghost use Rattle.osm_change.specs.Keys.{id_of};
ghost use Rattle.osm_model.specs.Names.{with_ids};
ghost use Rattle.osm_world.specs.Beds.{content_of_op};

use osm_base::{Key, Kind, Memory};
use osm_change::{Name, Op};
use osm_element::{Content, Held, Member};

fn is_node(keys: &[Key], name: Name, used: Key) -> bool
    ensures { result ≡ key_eq (key Kind.Node (id_of keys.now name)) used }
{
    name.key(Kind::Node, keys).is(used)
}

fn is_member(keys: &[Key], member: &Member<Name>, used: Key) -> bool
    ensures { result ≡ key_eq (key member.now.kind (id_of keys.now member.now.name)) used }
{
    member.name.key(member.kind, keys).is(used)
}

fn nodes_list(keys: &[Key], nodes: &[Name], used: Key) -> bool
    ensures { result ≡ list_any (λ name. key_eq (key Kind.Node (id_of keys.now name)) used) nodes.now }
{
    nodes.iter().any(|name| is_node(keys, *name, used))
}

fn members_list(keys: &[Key], members: &[Member<Name>], used: Key) -> bool
    ensures { result ≡ list_any (λ m. key_eq (key m.kind (id_of keys.now m.name)) used) members.now }
{
    members.iter().any(|member| is_member(keys, member, used))
}

/// Whether a content lists an element, by the elements that its names stand for.
#[tactic(auto, using(crate::proofs::Named::nodes_listed, crate::proofs::Named::members_listed))]
fn content_lists(keys: &[Key], content: &Content<Name>, used: Key) -> bool
    ensures { result ≡ lists_key (refs (with_ids keys.now content.now)) used }
{
    match content {
        Content::Node(_) => false,
        Content::Way(nodes) => nodes_list(keys, nodes.items(), used),
        Content::Relation(members) => members_list(keys, members.items(), used),
    }
}

/// Whether the content that an operation gives lists an element.
pub fn op_lists(keys: &[Key], operation: &Op, used: Key) -> bool
    ensures { result ≡ lists_key (refs_in (content_of_op keys.now operation.now)) used }
{
    match operation {
        Op::Create { content, .. } | Op::Modify { content, .. } => {
            content_lists(keys, content, used)
        }
        Op::Delete { .. } => false,
    }
}

fn add_nodes(keys: &[Key], nodes: &[Name], listed: &mut Vec<Key>) -> Result<(), Memory>
    ensures { OnOk result (listed.new.items ≡ listed.old.items ++ map (λ name. key Kind.Node (id_of keys.now name)) nodes.now) }
{
    listed.reserve(nodes.len())?;
    for name in nodes {
        listed.push(name.key(Kind::Node, keys))?;
    }
    Ok(())
}

fn add_members(keys: &[Key], members: &[Member<Name>], listed: &mut Vec<Key>) -> Result<(), Memory>
    ensures { OnOk result (listed.new.items ≡ listed.old.items ++ map (λ m. key m.kind (id_of keys.now m.name)) members.now) }
{
    listed.reserve(members.len())?;
    for member in members {
        listed.push(member.name.key(member.kind, keys))?;
    }
    Ok(())
}

/// Adds what a content lists, in list order, by the elements that its names stand for.
fn add_named(keys: &[Key], content: &Content<Name>, listed: &mut Vec<Key>) -> Result<(), Memory>
    ensures { OnOk result (listed.new.items ≡ listed.old.items ++ refs (with_ids keys.now content.now)) }
{
    match content {
        Content::Node(_) => Ok(()),
        Content::Way(nodes) => add_nodes(keys, nodes.items(), listed),
        Content::Relation(members) => add_members(keys, members.items(), listed),
    }
}

/// Adds what the content that an operation gives lists, in list order.
pub fn add_given(keys: &[Key], operation: &Op, listed: &mut Vec<Key>) -> Result<(), Memory>
    ensures { OnOk result (listed.new.items ≡ listed.old.items ++ refs_in (content_of_op keys.now operation.now)) }
{
    match operation {
        Op::Create { content, .. } | Op::Modify { content, .. } => {
            add_named(keys, content, listed)
        }
        Op::Delete { .. } => Ok(()),
    }
}

fn add_node_ids(nodes: &[u64], listed: &mut Vec<Key>) -> Result<(), Memory>
    ensures { OnOk result (listed.new.items ≡ listed.old.items ++ map (key Kind.Node) nodes.now) }
{
    listed.reserve(nodes.len())?;
    for id in nodes {
        let node = Key {
            kind: Kind::Node,
            id: *id,
        };
        listed.push(node)?;
    }
    Ok(())
}

fn add_member_ids(members: &[Member<u64>], listed: &mut Vec<Key>) -> Result<(), Memory>
    ensures { OnOk result (listed.new.items ≡ listed.old.items ++ map key_of_member members.now) }
{
    listed.reserve(members.len())?;
    for member in members {
        listed.push(member.key())?;
    }
    Ok(())
}

/// Adds what a stored content lists, in list order.
pub fn add_refs(content: &Held<'_>, listed: &mut Vec<Key>) -> Result<(), Memory>
    ensures { OnOk result (listed.new.items ≡ listed.old.items ++ refs (held_content content.now)) }
{
    match content {
        Held::Node(_) => Ok(()),
        Held::Way(nodes) => add_node_ids(nodes, listed),
        Held::Relation(members) => add_member_ids(members, listed),
    }
}
