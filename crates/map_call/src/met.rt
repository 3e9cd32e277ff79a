//! What the nodes of a box bring with them.
ghost use Rattle.std.specs.Prelude.{◌≡◌, ◌&&◌, ◌||◌, ℕ, not, IfOk};
ghost use Rattle.std.specs.List.{list_any};
ghost use Rattle.std.specs.List.Sorted.{IsStrictlyIncreasing};
ghost use Rattle.osm_base.specs.Key.{lists_key};
ghost use Rattle.osm_element.specs.Elements.{key, users};
ghost use Rattle.osm_model.specs.Selection.{lists};
ghost use Rattle.osm_world.specs.World.{state_of};
ghost use Rattle.rising_lists.specs.Ids.{lists_id};

use crate::lists::{
    Users, list_ids, list_nodes, list_relation_users, list_users, list_users_of_new,
};
use osm_base::{Kind, Memory};
use osm_world::World;
use rising_lists::sorted_once;
use std::alloc::Global;

/// The ways and the relations that use one of some nodes.
pub fn users_of_nodes(alloc: Global, world: &World, nodes: &[u64]) -> Result<Users, Memory>
    ensures ways { IfOk result
        (λ found. (id : ℕ) → lists_id found.ways.items id ≡ list_any
        (λ n. lists_key (users (state_of world.now).elements (key Kind.Node n)) (key Kind.Way id)) nodes.now) }
    ensures relations { IfOk result
        (λ found. (id : ℕ) → lists_id found.relations.items id ≡ list_any
        (λ n. lists_key (users (state_of world.now).elements (key Kind.Node n)) (key Kind.Relation id)) nodes.now) }
{
    let mut found = Users {
        ways: Vec::new(alloc),
        relations: Vec::new(alloc),
    };
    list_users(world, nodes, &mut found)?;
    Ok(found)
}

/// The nodes that some ways list, by id.
pub fn nodes_of_ways(alloc: Global, world: &World, ways: &[u64]) -> Result<Vec<u64>, Memory>
    ensures rising { IfOk result (λ ids. IsStrictlyIncreasing ids.items) }
    ensures listed { IfOk result
        (λ ids. (n : ℕ) → lists_id ids.items n ≡ list_any
        (λ w. lists (state_of world.now).elements (key Kind.Way w) (key Kind.Node n)) ways.now) }
{
    let mut ids = Vec::new(alloc);
    list_nodes(world.store(), ways, &mut ids)?;
    Ok(sorted_once(ids))
}

/// The ids of two lists, in order.
pub fn united(base: Vec<u64>, listed: &[u64]) -> Result<Vec<u64>, Memory>
    ensures rising { IfOk result (λ ids. IsStrictlyIncreasing ids.items) }
    ensures same { IfOk result (λ ids. (n : ℕ) → lists_id ids.items n ≡ lists_id base.items n || lists_id listed.now n) }
{
    let mut ids = base;
    list_ids(listed, &mut ids)?;
    Ok(sorted_once(ids))
}

/// Some relations, and those that use one of some ways or nodes, by id. The users of the nodes in
/// `base` are there already.
pub fn first_relations(
    world: &World,
    base: &[u64],
    listed: &[u64],
    ways: &[u64],
    relations: Vec<u64>,
) -> Result<Vec<u64>, Memory>
    requires { IsStrictlyIncreasing base.now }
    ensures rising { IfOk result (λ ids. IsStrictlyIncreasing ids.items) }
    ensures same { IfOk result
        (λ ids. (r : ℕ) → lists_id ids.items r ≡ (lists_id relations.items r || list_any
        (λ n. not (lists_id base.now n) && lists_key (users (state_of world.now).elements (key Kind.Node n)) (key Kind.Relation r)) listed.now) || list_any (λ w. lists_key (users (state_of world.now).elements (key Kind.Way w)) (key Kind.Relation r)) ways.now) }
{
    let mut ids = relations;
    list_users_of_new(world, base, listed, &mut ids)?;
    list_relation_users(world, Kind::Way, ways, &mut ids)?;
    Ok(sorted_once(ids))
}

/// Some relations, and those that use one of them, by id.
pub fn relations_met(alloc: Global, world: &World, first: &[u64]) -> Result<Vec<u64>, Memory>
    ensures rising { IfOk result (λ ids. IsStrictlyIncreasing ids.items) }
    ensures same { IfOk result (λ ids. (r : ℕ) → lists_id ids.items r ≡ lists_id first.now r || list_any
        (λ q. lists_key (users (state_of world.now).elements (key Kind.Relation q)) (key Kind.Relation r)) first.now) }
{
    let mut ids = first.to_vec(alloc)?;
    list_relation_users(world, Kind::Relation, first, &mut ids)?;
    Ok(sorted_once(ids))
}
