//! What the elements that are shown held.
ghost use Rattle.std.specs.Prelude.{◌≡◌, ◌&&◌, false, option_map};
ghost use Rattle.std.specs.List.{list_any};
ghost use Rattle.std.specs.Option.{option_map_or};
ghost use Rattle.osm_base.specs.Key.{lists_key, IsRising};
ghost use Rattle.osm_base.specs.Place.{area_holds};
ghost use Rattle.osm_element.specs.Elements.{key, key_of_member, position_in, refs};
ghost use Rattle.osm_element.specs.Held.{held_content};
ghost use Rattle.osm_model.specs.Past.{elements_by, is_last_shown};
ghost use Rattle.osm_model.specs.PastMap.{is_in, lists_one};
ghost use Rattle.attic_reads.specs.Attic.{AreInOrder, held, unmarked_content};

use crate::histories::{last_of, versions_at};
use history_store::Store;
use osm_base::{Box7, Key, Kind, is_listed};
use osm_element::{Held, Member, Version};

/// What a version holds, if it isn't marked.
fn unmarked_content(version: &Version) -> Option<Held<'_>>
    ensures { option_map held_content result ≡ unmarked_content version.now }
{
    if version.redaction().is_some() {
        return None;
    }
    version.content()
}

/// What an element held at a stamp, if it was visible and its version isn't marked.
pub fn held(store: &Store, key: Key, at: u64) -> Option<Held<'_>>
    requires { AreInOrder store.now.elements }
    ensures { option_map held_content result ≡ held (elements_by at store.now.elements) key }
{
    match last_of(versions_at(store, key, at)) {
        Some(version) => unmarked_content(version),
        None => None,
    }
}

/// Whether an element that is shown lay in a box.
pub fn lay_in(store: &Store, key: Key, at: u64, within: &Box7) -> bool
    requires { AreInOrder store.now.elements }
    ensures { result ≡ is_last_shown (elements_by at store.now.elements) key && is_in (elements_by at store.now.elements) within.now key }
{
    match held(store, key, at) {
        Some(content) => lies_in(&content, within),
        None => false,
    }
}

fn lies_in(content: &Held<'_>, within: &Box7) -> bool
    ensures { result ≡ option_map_or (area_holds within.now) (position_in (held_content content.now)) false }
{
    match content {
        Held::Node(place) => within.holds(*place),
        Held::Way(_) | Held::Relation(_) => false,
    }
}

/// Whether an element that is shown listed one of some keys in order.
pub fn listed_one(store: &Store, key: Key, at: u64, among: &[Key]) -> bool
    requires order { AreInOrder store.now.elements }
    requires rising { IsRising among.now }
    ensures { result
        ≡ is_last_shown (elements_by at store.now.elements) key && lists_one (elements_by at store.now.elements) among.now key }
{
    match held(store, key, at) {
        Some(content) => lists_one(&content, among),
        None => false,
    }
}

#[tactic(auto, using(crate::proofs::Held::any_node, crate::proofs::Held::any_member))]
fn lists_one(content: &Held<'_>, among: &[Key]) -> bool
    requires { IsRising among.now }
    ensures { result ≡ list_any (λ x. lists_key among.now x) (refs (held_content content.now)) }
{
    match content {
        Held::Node(_) => false,
        Held::Way(nodes) => has_node(nodes, among),
        Held::Relation(members) => has_member(members, among),
    }
}

fn has_node(ids: &[u64], among: &[Key]) -> bool
    requires { IsRising among.now }
    ensures { result ≡ list_any (λ id. lists_key among.now (key Kind.Node id)) ids.now }
{
    ids.iter().any(|id| is_node_listed(*id, among))
}

fn is_node_listed(id: u64, among: &[Key]) -> bool
    requires { IsRising among.now }
    ensures { result ≡ lists_key among.now (key Kind.Node id) }
{
    let node = Key {
        kind: Kind::Node,
        id,
    };
    is_listed(among, node)
}

fn has_member(members: &[Member<u64>], among: &[Key]) -> bool
    requires { IsRising among.now }
    ensures { result ≡ list_any (λ m. lists_key among.now (key_of_member m)) members.now }
{
    members.iter().any(|member| is_listed(among, member.key()))
}
