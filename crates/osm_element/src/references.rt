//! What contents and versions list.
ghost use Rattle.std.specs.Prelude.{◌≡◌, map, IfOk};
ghost use Rattle.std.specs.List.{list_any};
ghost use Rattle.osm_base.specs.Key.{key_eq, lists_key};
ghost use Rattle.osm_element.specs.Elements.{key, key_of_member, refs, refs_of};
ghost use Rattle.osm_element.specs.Held.{held_content};

use crate::contents::{Held, Member};
use crate::elements::Elements;
use osm_base::{Key, Kind, Memory};
use std::alloc::{AllocError, Global};

impl Member<u64> {
    /// The element that the relation lists.
    pub fn key(&self) -> Key
        ensures { result ≡ key_of_member self.now }
    {
        Key {
            kind: self.kind,
            id: self.name,
        }
    }
}

impl Held<'_> {
    /// The elements that a content lists, in list order, as often as it lists them.
    pub fn refs(&self, alloc: Global) -> Result<Vec<Key>, Memory>
        ensures { IfOk result (λ made. made.items ≡ refs (held_content self.now)) }
    {
        match self {
            Held::Node(_) => Ok(Vec::new(alloc)),
            Held::Way(nodes) => Ok(node_keys(alloc, nodes)?),
            Held::Relation(members) => Ok(member_keys(alloc, members)?),
        }
    }

    /// Whether a content lists the element.
    #[tactic(auto, using(crate::proofs::Listed::lists_node_mapped, crate::proofs::Listed::lists_member_mapped))]
    pub fn lists(&self, used: Key) -> bool
        ensures { result ≡ lists_key (refs (held_content self.now)) used }
    {
        match self {
            Held::Node(_) => false,
            Held::Way(nodes) => lists_node(nodes, used),
            Held::Relation(members) => lists_member(members, used),
        }
    }
}

impl Elements {
    /// What an element lists, where it is visible.
    pub fn refs(&self, alloc: Global, key: Key) -> Result<Vec<Key>, Memory>
        ensures { IfOk result (λ made. made.items ≡ refs_of self.now key) }
    {
        match self.content(key) {
            Some(content) => content.refs(alloc),
            None => Ok(Vec::new(alloc)),
        }
    }
}

fn node_keys(alloc: Global, ids: &[u64]) -> Result<Vec<Key>, AllocError>
    ensures { IfOk result (λ made. made.items ≡ map (key Kind.Node) ids.now) }
{
    ids.iter()
        .map(|id| Key {
            kind: Kind::Node,
            id: *id,
        })
        .collect(alloc)
}

fn member_keys(alloc: Global, members: &[Member<u64>]) -> Result<Vec<Key>, AllocError>
    ensures { IfOk result (λ made. made.items ≡ map key_of_member members.now) }
{
    members.iter().map(|member| member.key()).collect(alloc)
}

fn is_node(id: u64, used: Key) -> bool
    ensures { result ≡ key_eq (key Kind.Node id) used }
{
    let node = Key {
        kind: Kind::Node,
        id,
    };
    node.is(used)
}

fn is_member(member: &Member<u64>, used: Key) -> bool
    ensures { result ≡ key_eq (key_of_member member.now) used }
{
    member.key().is(used)
}

fn lists_node(ids: &[u64], used: Key) -> bool
    ensures { result ≡ list_any (λ id. key_eq (key Kind.Node id) used) ids.now }
{
    ids.iter().any(|id| is_node(*id, used))
}

fn lists_member(members: &[Member<u64>], used: Key) -> bool
    ensures { result ≡ list_any (λ m. key_eq (key_of_member m) used) members.now }
{
    members.iter().any(|member| is_member(member, used))
}
