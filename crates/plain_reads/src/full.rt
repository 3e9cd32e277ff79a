//! An element with what it lists.
ghost use Rattle.std.specs.Prelude.{◌≡◌, ◌++◌, Bool, map, filter, if◌then◌else◌, [], IfOk};
ghost use Rattle.osm_base.specs.Key.{lists_key};
ghost use Rattle.osm_base.specs.declared.keys.Key.{Key};
ghost use Rattle.osm_element.specs.Elements.{key, key_of_member, keys, refs, refs_of};
ghost use Rattle.osm_element.specs.Held.{held_content};
ghost use Rattle.osm_model.specs.Reads.{current_shown, full, in_full, is_way};
ghost use Rattle.plain_reads.specs.Read.{IsRead, way_refs};

use crate::elements::one;
use crate::lists::{given_keys_once, shown_keys};
use osm_base::{Items, Key, Kind, Memory};
use osm_change::{ReadFault, VersionId};
use osm_element::{Elements, Held, Member};
use std::alloc::Global;

/// An element with what it lists, and with the nodes of the ways that it lists, in the order of
/// keys.
pub fn full(alloc: Global, elements: &Elements, key: Key) -> Result<Items<VersionId>, ReadFault>
    ensures { IsRead (full elements.now key) result }
{
    one(elements, key)?;
    let shown = with_listed(alloc, elements, key)?;
    Ok(shown)
}

fn with_listed(alloc: Global, elements: &Elements, key: Key) -> Result<Items<VersionId>, Memory>
    ensures { IfOk result (λ found. found ≡ map (current_shown elements.now) (filter (in_full elements.now key) (keys elements.now))) }
{
    let listed = gathered(alloc, elements, key)?;
    let rising = given_keys_once(elements, listed);
    shown_keys(alloc, elements, rising.as_slice())
}

/// The element, what it lists, and what the ways that it lists list, in no order.
fn gathered(alloc: Global, elements: &Elements, key: Key) -> Result<Vec<Key>, Memory>
    ensures { IfOk result (λ found. (x : Key) → lists_key found.items x ≡ in_full elements.now key x) }
{
    let mut found = elements.refs(alloc, key)?;
    let listed = found.len();
    found.push(key)?;
    for place in 0..listed {
        let member = found[place];
        add_way_refs(elements, member, &mut found)?;
    }
    Ok(found)
}

/// Adds what a way lists, and nothing for another element.
pub fn add_way_refs(elements: &Elements, key: Key, found: &mut Vec<Key>) -> Result<(), Memory>
    ensures { IfOk result (λ _. found.new.items ≡ found.old.items ++ way_refs elements.now key) }
{
    if !key.kind.is(Kind::Way) {
        return Ok(());
    }
    match elements.content(key) {
        Some(content) => add_refs(&content, found),
        None => Ok(()),
    }
}

fn add_refs(content: &Held<'_>, found: &mut Vec<Key>) -> Result<(), Memory>
    ensures { IfOk result (λ _. found.new.items ≡ found.old.items ++ refs (held_content content.now)) }
{
    match content {
        Held::Node(_) => Ok(()),
        Held::Way(nodes) => add_nodes(nodes, found),
        Held::Relation(members) => add_members(members, found),
    }
}

fn add_nodes(ids: &[u64], found: &mut Vec<Key>) -> Result<(), Memory>
    ensures { IfOk result (λ _. found.new.items ≡ found.old.items ++ map (key Kind.Node) ids.now) }
{
    for id in ids {
        found.push(Key {
            kind: Kind::Node,
            id: *id,
        })?;
    }
    Ok(())
}

fn add_members(members: &[Member<u64>], found: &mut Vec<Key>) -> Result<(), Memory>
    ensures { IfOk result (λ _. found.new.items ≡ found.old.items ++ map key_of_member members.now) }
{
    for member in members {
        found.push(member.key())?;
    }
    Ok(())
}
