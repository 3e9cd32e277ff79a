//! What a box holds and what that brings with it.
ghost use Rattle.std.specs.Prelude.{◌≡◌, ◌==◌, ◌&&◌, ◌||◌, ℕ, IfOk, OnOk};
ghost use Rattle.std.specs.List.{list_any};
ghost use Rattle.std.specs.List.Sorted.{IsStrictlyIncreasing};
ghost use Rattle.osm_base.specs.Key.{kind_eq, key_eq, lists_key};
ghost use Rattle.osm_element.specs.Elements.{key, key_of_member, refs};
ghost use Rattle.osm_element.specs.Held.{held_content};
ghost use Rattle.osm_model.specs.Selection.{lists, is_inside, nodes_within};
ghost use Rattle.rising_lists.specs.Ids.{lists_id};
ghost use Rattle.plain_reads.specs.Met.{ways_listing, nodes_with_listed, relations_listing, relations_with_listing};

use crate::lists::{add_id, given_once};
use osm_base::{Box7, Key, Kind, Memory};
use osm_element::{Elements, Held, Member};
use rising_lists::has;
use std::alloc::Global;

fn is_inside(elements: &Elements, within: &Box7, id: u64) -> bool
    ensures { result ≡ is_inside elements.now within.now id }
{
    let node = Key {
        kind: Kind::Node,
        id,
    };
    match elements.position(node) {
        Some(at) => within.holds(at),
        None => false,
    }
}

/// The visible nodes in a box, by id. It looks at every node.
pub fn nodes_within(alloc: Global, elements: &Elements, within: &Box7) -> Result<Vec<u64>, Memory>
    ensures { IfOk result (λ ids. ids.items ≡ nodes_within elements.now within.now) }
{
    let mut ids = Vec::new(alloc);
    for place in 0..elements.histories(Kind::Node).len() {
        let id = place as u64 + 1;
        add_id(is_inside(elements, within, id), id, &mut ids)?;
    }
    Ok(ids)
}

// ---- what lists one of some elements

fn way_lists(nodes: &[u64], ids: &[u64]) -> bool
    requires { IsStrictlyIncreasing ids.now }
    ensures { result ≡ list_any (λ node. lists_id ids.now node) nodes.now }
{
    for node in nodes {
        if has(ids, *node) {
            return true;
        }
    }
    false
}

fn member_is(member: &Member<u64>, kind: Kind, ids: &[u64]) -> bool
    requires { IsStrictlyIncreasing ids.now }
    ensures { result ≡ kind_eq member.now.kind kind && lists_id ids.now member.now.name }
{
    member.kind.is(kind) && has(ids, member.name)
}

fn relation_lists(members: &[Member<u64>], kind: Kind, ids: &[u64]) -> bool
    requires { IsStrictlyIncreasing ids.now }
    ensures { result ≡ list_any (λ member. kind_eq member.kind kind && lists_id ids.now member.name) members.now }
{
    for member in members {
        if member_is(member, kind, ids) {
            return true;
        }
    }
    false
}

/// Whether a content lists one of some elements of a kind.
#[tactic(auto, using(crate::proofs::Meets::way_meets, crate::proofs::Meets::relation_meets, crate::proofs::Meets::none_meets))]
fn content_lists(content: &Held<'_>, kind: Kind, ids: &[u64]) -> bool
    requires { IsStrictlyIncreasing ids.now }
    ensures { result ≡ list_any (λ n. lists_key (refs (held_content content.now)) (key kind n)) ids.now }
{
    match content {
        Held::Node(_) => false,
        Held::Way(nodes) => Kind::Node.is(kind) && way_lists(nodes, ids),
        Held::Relation(members) => relation_lists(members, kind, ids),
    }
}

/// Whether an element is visible and lists one of some elements of a kind.
#[tactic(auto, using(crate::proofs::Meets::none_meets))]
fn lists_one(elements: &Elements, user: Key, kind: Kind, ids: &[u64]) -> bool
    requires { IsStrictlyIncreasing ids.now }
    ensures { result ≡ list_any (λ n. lists elements.now user (key kind n)) ids.now }
{
    match elements.content(user) {
        Some(content) => content_lists(&content, kind, ids),
        None => false,
    }
}

/// The ways that list one of some nodes, by id. It looks at every way.
pub fn ways_met(alloc: Global, elements: &Elements, nodes: &[u64]) -> Result<Vec<u64>, Memory>
    requires { IsStrictlyIncreasing nodes.now }
    ensures { IfOk result (λ ids. ids.items ≡ ways_listing elements.now nodes.now) }
{
    let mut ids = Vec::new(alloc);
    for place in 0..elements.histories(Kind::Way).len() {
        let id = place as u64 + 1;
        let way = Key {
            kind: Kind::Way,
            id,
        };
        add_id(lists_one(elements, way, Kind::Node, nodes), id, &mut ids)?;
    }
    Ok(ids)
}

/// Whether an element lists one of some nodes or of some ways.
fn lists_either(elements: &Elements, user: Key, nodes: &[u64], ways: &[u64]) -> bool
    requires nodes { IsStrictlyIncreasing nodes.now }
    requires ways { IsStrictlyIncreasing ways.now }
    ensures { result ≡ list_any (λ n. lists elements.now user (key Kind.Node n)) nodes.now || list_any
        (λ w. lists elements.now user (key Kind.Way w)) ways.now }
{
    lists_one(elements, user, Kind::Node, nodes) || lists_one(elements, user, Kind::Way, ways)
}

/// The relations that list one of some nodes or one of some ways, by id. It looks at every
/// relation.
pub fn first_relations(
    alloc: Global,
    elements: &Elements,
    nodes: &[u64],
    ways: &[u64],
) -> Result<Vec<u64>, Memory>
    requires nodes { IsStrictlyIncreasing nodes.now }
    requires ways { IsStrictlyIncreasing ways.now }
    ensures { IfOk result (λ ids. ids.items ≡ relations_listing elements.now nodes.now ways.now) }
{
    let mut ids = Vec::new(alloc);
    for place in 0..elements.histories(Kind::Relation).len() {
        let id = place as u64 + 1;
        let relation = Key {
            kind: Kind::Relation,
            id,
        };
        add_id(lists_either(elements, relation, nodes, ways), id, &mut ids)?;
    }
    Ok(ids)
}

/// Whether a relation is one of some, or lists one of them.
fn is_or_lists(elements: &Elements, relation: Key, first: &[u64]) -> bool
    requires { IsStrictlyIncreasing first.now }
    ensures { result ≡ lists_id first.now relation.id || list_any (λ q. lists elements.now relation (key Kind.Relation q)) first.now }
{
    has(first, relation.id) || lists_one(elements, relation, Kind::Relation, first)
}

/// Some relations, and those that list one of them, by id. It looks at every relation.
pub fn relations_met(alloc: Global, elements: &Elements, first: &[u64]) -> Result<Vec<u64>, Memory>
    requires { IsStrictlyIncreasing first.now }
    ensures { IfOk result (λ ids. ids.items ≡ relations_with_listing elements.now first.now) }
{
    let mut ids = Vec::new(alloc);
    for place in 0..elements.histories(Kind::Relation).len() {
        let id = place as u64 + 1;
        let relation = Key {
            kind: Kind::Relation,
            id,
        };
        add_id(is_or_lists(elements, relation, first), id, &mut ids)?;
    }
    Ok(ids)
}

// ---- the nodes of ways

fn list_member(member: &Member<u64>, ids: &mut Vec<u64>) -> Result<(), Memory>
    ensures { OnOk result ((id : ℕ)
        → lists_id ids.new.items id ≡ lists_id ids.old.items id || key_eq (key_of_member member.now) (key Kind.Node id)) }
{
    if member.kind.is(Kind::Node) {
        ids.push(member.name)?;
    }
    Ok(())
}

fn list_members(members: &[Member<u64>], ids: &mut Vec<u64>) -> Result<(), Memory>
    ensures { OnOk result ((id : ℕ) → lists_id ids.new.items id ≡ lists_id ids.old.items id || list_any
        (λ m. key_eq (key_of_member m) (key Kind.Node id)) members.now) }
{
    for member in members {
        list_member(member, ids)?;
    }
    Ok(())
}

fn list_nodes(nodes: &[u64], ids: &mut Vec<u64>) -> Result<(), Memory>
    ensures { OnOk result ((id : ℕ) → lists_id ids.new.items id ≡ lists_id ids.old.items id || list_any (λ n. n == id) nodes.now) }
{
    ids.extend_from_slice(nodes)?;
    Ok(())
}

/// Adds the nodes that a content lists.
#[tactic(auto, using(crate::proofs::Meets::lists_nodes, crate::proofs::Meets::lists_members))]
fn list_content(content: &Held<'_>, ids: &mut Vec<u64>) -> Result<(), Memory>
    ensures { OnOk result ((id : ℕ)
        → lists_id ids.new.items id ≡ lists_id ids.old.items id || lists_key (refs (held_content content.now)) (key Kind.Node id)) }
{
    match content {
        Held::Node(_) => Ok(()),
        Held::Way(nodes) => list_nodes(nodes, ids),
        Held::Relation(members) => list_members(members, ids),
    }
}

fn list_way(elements: &Elements, way: Key, ids: &mut Vec<u64>) -> Result<(), Memory>
    ensures { OnOk result ((id : ℕ) → lists_id ids.new.items id ≡ lists_id ids.old.items id || lists elements.now way (key Kind.Node id)) }
{
    match elements.content(way) {
        Some(content) => list_content(&content, ids),
        None => Ok(()),
    }
}

/// Adds the nodes that some ways list.
fn list_ways(elements: &Elements, ways: &[u64], ids: &mut Vec<u64>) -> Result<(), Memory>
    ensures { OnOk result ((id : ℕ) → lists_id ids.new.items id ≡ lists_id ids.old.items id || list_any
        (λ w. lists elements.now (key Kind.Way w) (key Kind.Node id)) ways.now) }
{
    for id in ways {
        let way = Key {
            kind: Kind::Way,
            id: *id,
        };
        list_way(elements, way, ids)?;
    }
    Ok(())
}

/// Some nodes, and those that the ways list, by id.
pub fn nodes_met(elements: &Elements, nodes: Vec<u64>, ways: &[u64]) -> Result<Vec<u64>, Memory>
    ensures { IfOk result (λ ids. ids.items ≡ nodes_with_listed elements.now nodes.items ways.now) }
{
    let mut ids = nodes;
    list_ways(elements, ways, &mut ids)?;
    Ok(given_once(elements, Kind::Node, ids))
}
