//! Lists of ids by kind, from keys and contents.
ghost use Rattle.std.specs.Prelude.{◌≡◌, ◌==◌, ◌&&◌, ◌||◌, ℕ, not, OnOk};
ghost use Rattle.std.specs.List.{list_any};
ghost use Rattle.std.specs.List.Sorted.{IsStrictlyIncreasing};
ghost use Rattle.osm_base.specs.Key.{key_eq, lists_key};
ghost use Rattle.osm_element.specs.Elements.{key, key_of_member, refs, refs_of, users};
ghost use Rattle.osm_element.specs.Held.{held_content};
ghost use Rattle.osm_model.specs.Selection.{lists};
ghost use Rattle.osm_world.specs.World.{state_of};
ghost use Rattle.rising_lists.specs.Ids.{lists_id};

use history_store::Store;
use osm_base::{Key, Kind, Memory};
use osm_element::{Held, Member};
use osm_world::World;
use rising_lists::has;

/// The ids of some users, by kind. Nodes use nothing.
#[derive(Drop)]
pub struct Users {
    pub ways: Vec<u64>,
    pub relations: Vec<u64>,
}

// ---- users

/// Adds the id of a key, where that is of a kind.
fn list_key(listed: Key, kind: Kind, ids: &mut Vec<u64>) -> Result<(), Memory>
    ensures { OnOk result ((id : ℕ) → lists_id ids.new.items id ≡ lists_id ids.old.items id || key_eq listed (key kind id)) }
{
    if listed.kind.is(kind) {
        ids.push(listed.id)?;
    }
    Ok(())
}

/// Adds the ids of the relations among some keys.
fn list_relations(keys: &[Key], ids: &mut Vec<u64>) -> Result<(), Memory>
    ensures { OnOk result ((id : ℕ) → lists_id ids.new.items id ≡ lists_id ids.old.items id || lists_key keys.now (key Kind.Relation id)) }
{
    for listed in keys {
        list_key(*listed, Kind::Relation, ids)?;
    }
    Ok(())
}

/// Adds the ids of the ways and of the relations among some keys.
fn list_both(keys: &[Key], users: &mut Users) -> Result<(), Memory>
    ensures ways { OnOk result ((id : ℕ)
        → lists_id users.new.ways.items id ≡ lists_id users.old.ways.items id || lists_key keys.now (key Kind.Way id)) }
    ensures relations { OnOk result ((id : ℕ)
        → lists_id users.new.relations.items id ≡ lists_id users.old.relations.items id || lists_key keys.now (key Kind.Relation id)) }
{
    for listed in keys {
        list_key(*listed, Kind::Way, &mut users.ways)?;
        list_key(*listed, Kind::Relation, &mut users.relations)?;
    }
    Ok(())
}

/// Adds the users of some nodes.
pub fn list_users(world: &World, nodes: &[u64], found: &mut Users) -> Result<(), Memory>
    ensures ways { OnOk result ((id : ℕ) → lists_id found.new.ways.items id ≡ lists_id found.old.ways.items id || list_any
        (λ n. lists_key (users (state_of world.now).elements (key Kind.Node n)) (key Kind.Way id)) nodes.now) }
    ensures relations { OnOk result ((id : ℕ) → lists_id found.new.relations.items id ≡ lists_id found.old.relations.items id || list_any
        (λ n. lists_key (users (state_of world.now).elements (key Kind.Node n)) (key Kind.Relation id)) nodes.now) }
{
    for id in nodes {
        let node = Key {
            kind: Kind::Node,
            id: *id,
        };
        let listing = world.users(node);
        list_both(listing.items(), found)?;
    }
    Ok(())
}

/// Adds the relations that use one of some elements of a kind.
pub fn list_relation_users(
    world: &World,
    kind: Kind,
    used: &[u64],
    ids: &mut Vec<u64>,
) -> Result<(), Memory>
    ensures { OnOk result ((id : ℕ) → lists_id ids.new.items id ≡ lists_id ids.old.items id || list_any
        (λ u. lists_key (users (state_of world.now).elements (key kind u)) (key Kind.Relation id)) used.now) }
{
    for id in used {
        let of = Key { kind, id: *id };
        let listing = world.users(of);
        list_relations(listing.items(), ids)?;
    }
    Ok(())
}

/// Adds the relations that use a node, where that isn't one of `known`.
fn list_new_users(world: &World, known: &[u64], id: u64, ids: &mut Vec<u64>) -> Result<(), Memory>
    requires { IsStrictlyIncreasing known.now }
    ensures { OnOk result ((r : ℕ)
        → lists_id ids.new.items r
        ≡ lists_id ids.old.items r || (not (lists_id known.now id) && lists_key (users (state_of world.now).elements (key Kind.Node id)) (key Kind.Relation r))) }
{
    if has(known, id) {
        return Ok(());
    }
    let node = Key {
        kind: Kind::Node,
        id,
    };
    let listing = world.users(node);
    list_relations(listing.items(), ids)
}

/// Adds the relations that use one of some nodes which aren't `known`.
pub fn list_users_of_new(
    world: &World,
    known: &[u64],
    nodes: &[u64],
    ids: &mut Vec<u64>,
) -> Result<(), Memory>
    requires { IsStrictlyIncreasing known.now }
    ensures { OnOk result ((r : ℕ) → lists_id ids.new.items r ≡ lists_id ids.old.items r || list_any
        (λ n. not (lists_id known.now n) && lists_key (users (state_of world.now).elements (key Kind.Node n)) (key Kind.Relation r)) nodes.now) }
{
    for id in nodes {
        list_new_users(world, known, *id, ids)?;
    }
    Ok(())
}

// ---- the nodes of ways

/// Adds ids.
pub fn list_ids(listed: &[u64], ids: &mut Vec<u64>) -> Result<(), Memory>
    ensures { OnOk result ((id : ℕ) → lists_id ids.new.items id ≡ lists_id ids.old.items id || lists_id listed.now id) }
{
    ids.extend_from_slice(listed)?;
    Ok(())
}

fn list_members(members: &[Member<u64>], ids: &mut Vec<u64>) -> Result<(), Memory>
    ensures { OnOk result ((id : ℕ) → lists_id ids.new.items id ≡ lists_id ids.old.items id || list_any
        (λ m. key_eq (key_of_member m) (key Kind.Node id)) members.now) }
{
    for member in members {
        let listed = Key {
            kind: member.kind,
            id: member.name,
        };
        list_key(listed, Kind::Node, ids)?;
    }
    Ok(())
}

/// Adds the nodes that a content lists.
#[tactic(auto, using(osm_element::proofs::Listed::lists_node_mapped, osm_element::proofs::Listed::lists_member_mapped))]
fn list_content(content: &Held<'_>, ids: &mut Vec<u64>) -> Result<(), Memory>
    ensures { OnOk result ((id : ℕ)
        → lists_id ids.new.items id ≡ lists_id ids.old.items id || lists_key (refs (held_content content.now)) (key Kind.Node id)) }
{
    match content {
        Held::Node(_) => Ok(()),
        Held::Way(nodes) => list_ids(nodes, ids),
        Held::Relation(members) => list_members(members, ids),
    }
}

/// Adds the nodes that an element lists.
fn list_element(store: &Store, of: Key, ids: &mut Vec<u64>) -> Result<(), Memory>
    ensures { OnOk result ((id : ℕ) → lists_id ids.new.items id ≡ lists_id ids.old.items id || lists store.now.elements of (key Kind.Node id)) }
{
    match store.current(of) {
        Some(version) => match version.content() {
            Some(content) => list_content(&content, ids),
            None => Ok(()),
        },
        None => Ok(()),
    }
}

/// Adds the nodes that some ways list.
pub fn list_nodes(store: &Store, ways: &[u64], ids: &mut Vec<u64>) -> Result<(), Memory>
    ensures { OnOk result ((id : ℕ) → lists_id ids.new.items id ≡ lists_id ids.old.items id || list_any
        (λ w. lists store.now.elements (key Kind.Way w) (key Kind.Node id)) ways.now) }
{
    for id in ways {
        let way = Key {
            kind: Kind::Way,
            id: *id,
        };
        list_element(store, way, ids)?;
    }
    Ok(())
}
