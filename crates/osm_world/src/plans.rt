//! What an entry will need, found before it is taken.
//!
//! Room may be taken for any entry, accepted or not: for one that the rules never accept (no such
//! changeset) the answer is want of memory. To apply an entry needs that the map takes it, in the
//! word that legal journals use.
//!
//! Room of a cell is promised for each operation that brings a position, also where the node
//! leaves that very cell; what wasn't used is taken back.
ghost use Rattle.std.specs.Prelude.{◌≡◌, ◌+◌, ◌≤◌, [], ◌∷◌, ◌++◌, if◌then◌else◌, length, map, IfOk, OnOk};
ghost use Rattle.osm_base.specs.Key.{key_eq, lists_key, IsRising};
ghost use Rattle.osm_base.specs.Place.{Position};
ghost use Rattle.osm_base.specs.declared.keys.Key.{Key};
ghost use Rattle.osm_element.specs.Elements.{key, refs};
ghost use Rattle.osm_change.specs.Keys.{ids_after, id_of};
ghost use Rattle.osm_model.specs.Names.{with_ids};
ghost use Rattle.history_store.specs.Store.{free};
ghost use Rattle.reverse_refs.specs.Users.{free_in};
ghost use Rattle.tile_grid.specs.Grid.{free_at};
ghost use Rattle.indexed_map.specs.Indexed.{times_new};
ghost use Rattle.indexed_map.specs.Placed.{enters};
ghost use Rattle.osm_world.specs.declared.beds.Bed.{Bed};
ghost use Rattle.osm_world.specs.Beds.{first_ids, place_in, place_of_op, HasPlaces, IsBedOf, IsLaidFor, AreBedsOf, made, begun, entered};

use crate::beds::{Bed, BoxedRoom, Laid, Places};
use indexed_map::IndexedMap;
use osm_base::{Coord, Items, Key, Kind, Memory, Roomy};
use osm_change::{FirstIds, Name, Op, kind_of};
use osm_element::{Content, Member};
use rising_lists::keys_sorted_once;
use std::alloc::{AllocError, Global};

fn node_keys(alloc: Global, keys: &[Key], nodes: &[Name]) -> Result<Vec<Key>, AllocError>
    ensures { IfOk result (λ made. made.items ≡ map (λ name. key Kind.Node (id_of keys.now name)) nodes.now) }
{
    nodes
        .iter()
        .map(|name| name.key(Kind::Node, keys))
        .collect(alloc)
}

fn member_keys(
    alloc: Global,
    keys: &[Key],
    members: &[Member<Name>],
) -> Result<Vec<Key>, AllocError>
    ensures { IfOk result (λ made. made.items ≡ map (λ m. key m.kind (id_of keys.now m.name)) members.now) }
{
    members
        .iter()
        .map(|member| member.name.key(member.kind, keys))
        .collect(alloc)
}

#[tactic(auto, using(crate::proofs::Planned::nodes_named, crate::proofs::Planned::members_named))]
fn keys_listed(alloc: Global, keys: &[Key], content: &Content<Name>) -> Result<Vec<Key>, Memory>
    ensures { IfOk result (λ made. made.items ≡ refs (with_ids keys.now content.now)) }
{
    match content {
        Content::Node(_) => Ok(Vec::new(alloc)),
        Content::Way(nodes) => Ok(node_keys(alloc, keys, nodes.items())?),
        Content::Relation(members) => Ok(member_keys(alloc, keys, members.items())?),
    }
}

/// The elements that a content lists, in order, each once.
fn listed_by(alloc: Global, keys: &[Key], content: &Content<Name>) -> Result<Items<Key>, Memory>
    ensures rising { IfOk result (λ made. IsRising made) }
    ensures same { IfOk result (λ made. (b : Key) → lists_key made b ≡ lists_key (refs (with_ids keys.now content.now)) b) }
{
    let listed = keys_listed(alloc, keys, content)?;
    Ok(Items::of(keys_sorted_once(listed)))
}

fn places_for(alloc: Global, content: &Content<Name>) -> Result<Places, Memory>
    ensures { IfOk result (λ made. HasPlaces content.now made) }
{
    match content {
        Content::Node(_) => Ok(Places::None),
        Content::Way(nodes) => Ok(Places::Nodes(BoxedRoom::for_items(alloc, nodes.len())?)),
        Content::Relation(members) => {
            let places = BoxedRoom::for_items(alloc, members.len())?;
            Ok(Places::Members(places))
        }
    }
}

fn lay_content(
    alloc: Global,
    keys: &[Key],
    key: Key,
    content: &Content<Name>,
) -> Result<Bed, Memory>
    ensures { IfOk result (λ bed. IsLaidFor keys.now key content.now bed) }
{
    let listed = listed_by(alloc, keys, content)?;
    let places = places_for(alloc, content)?;
    Ok(Bed {
        key,
        listed,
        places,
    })
}

fn lay_one(alloc: Global, keys: &[Key], ids: FirstIds, operation: &Op) -> Result<Bed, Memory>
    ensures { IfOk result (λ bed. IsBedOf keys.now ids operation.now bed) }
{
    match operation {
        Op::Create { content, .. } => {
            let kind = kind_of(content);
            let key = Key {
                kind,
                id: ids.next(kind),
            };
            lay_content(alloc, keys, key, content)
        }
        Op::Modify { name, content, .. } => {
            lay_content(alloc, keys, name.key(kind_of(content), keys), content)
        }
        Op::Delete { kind, name, .. } => Ok(Bed::none(alloc, name.key(*kind, keys))),
    }
}

fn first_ids(map: &IndexedMap) -> FirstIds
    ensures { result ≡ first_ids map.now.elements }
{
    FirstIds {
        node: map.next_id(Kind::Node),
        way: map.next_id(Kind::Way),
        relation: map.next_id(Kind::Relation),
    }
}

/// Lays by what the operations of an upload need, and promises room for them.
pub fn lay_all(alloc: Global, map: &mut IndexedMap, operations: &[Op]) -> Result<Laid, Memory>
    ensures same { map.new.elements ≡ map.old.elements }
    ensures beds { IfOk result (λ laid. AreBedsOf [] (first_ids map.new.elements) operations.now laid.beds) }
    ensures unused { IfOk result (λ laid. laid.keys.items ≡ []) }
    ensures keys { IfOk result (λ laid. length operations.now ≤ laid.keys.free) }
    ensures versions { IfOk result (λ laid. (k : Key) → made laid.beds k ≤ free map.new.versions k) }
    ensures users { IfOk result (λ laid. (b : Key) → begun map.new.elements laid.beds b ≤ free_in map.new.users b) }
    ensures cells { OnOk result ((p : Position) → entered operations.now p ≤ free_at map.new.cells p) }
{
    let mut ids = first_ids(map);
    let mut keys = Vec::with_capacity(alloc, operations.len())?;
    let mut beds = Vec::with_capacity(alloc, operations.len())?;
    for operation in operations {
        ids = lay_next(alloc, map, &mut keys, &mut beds, ids, operation)?;
    }
    Ok(Laid {
        keys: places_for_keys(alloc, operations.len())?,
        beds: Items::of(beds),
    })
}

fn places_for_keys(alloc: Global, count: usize) -> Result<Roomy<Key>, Memory>
    ensures { IfOk result (λ places. (places.items ≡ []) × (count ≤ places.free)) }
{
    let mut places = Roomy::none(alloc);
    places.promise(count)?;
    Ok(places)
}

/// Lays by what the next operation needs, promises room for it, and gives the ids that come next
/// then.
fn lay_next(
    alloc: Global,
    map: &mut IndexedMap,
    keys: &mut Vec<Key>,
    beds: &mut Vec<Bed>,
    ids: FirstIds,
    operation: &Op,
) -> Result<FirstIds, Memory>
    ensures same { map.new.elements ≡ map.old.elements }
    ensures next { IfOk result (λ next. next ≡ ids_after ids operation.now) }
    ensures laid { OnOk result ((bed : Bed) × IsBedOf keys.old.items ids operation.now bed
        × (keys.new.items ≡ keys.old.items ++ bed.key ∷ [])
        × (beds.new.items ≡ beds.old.items ++ bed ∷ [])
        × ((k : Key) → free map.new.versions k ≡ free map.old.versions k + (if key_eq k bed.key then 1 else 0))
        × ((b : Key) → free_in map.new.users b ≡ free_in map.old.users b + times_new map.old.elements bed.key bed.listed b)
        × ((p : Position) → free_at map.new.cells p ≡ free_at map.old.cells p + (if enters p (place_of_op operation.now) then 1 else 0))) }
{
    let next = ids.after(operation)?;
    let bed = lay_one(alloc, keys.as_slice(), ids, operation)?;
    let key = bed.key;
    promise_for(alloc, map, &bed, operation)?;
    beds.push(bed)?;
    keys.push(key)?;
    Ok(next)
}

/// There is no element with id 0, so the rules accept no operation on it.
fn promise_for(alloc: Global, map: &mut IndexedMap, bed: &Bed, operation: &Op) -> Result<(), Memory>
    ensures same { map.new.elements ≡ map.old.elements }
    ensures versions { OnOk result ((k : Key) → free map.new.versions k ≡ free map.old.versions k + (if key_eq k bed.now.key then 1 else 0)) }
    ensures users { OnOk result ((b : Key) → free_in map.new.users b ≡ free_in map.old.users b + times_new map.old.elements bed.now.key bed.now.listed b) }
    ensures cells { OnOk result ((p : Position)
        → free_at map.new.cells p ≡ free_at map.old.cells p + (if enters p (place_of_op operation.now) then 1 else 0)) }
{
    if bed.key.id == 0 {
        return Err(Memory);
    }
    map.promise(alloc, bed.key, bed.listed.items(), place_of(operation))
}

fn place_in(content: &Content<Name>) -> Option<Coord>
    ensures { result ≡ place_in content.now }
{
    match content {
        Content::Node(at) => Some(*at),
        _ => None,
    }
}

/// Where an operation puts a node.
fn place_of(operation: &Op) -> Option<Coord>
    ensures { result ≡ place_of_op operation.now }
{
    match operation {
        Op::Create { content, .. } | Op::Modify { content, .. } => place_in(content),
        Op::Delete { .. } => None,
    }
}
