//! An accepted upload, done operation by operation.
//!
//! An entry is applied operation by operation over the present world, which tells then which uses
//! end and begin and whether a delete is skipped. So what is laid by can be read off the entry.
ghost use Rattle.std.specs.Prelude.{◌≡◌, ℕ, true, ◌+◌, ◌-◌, ◌≤◌, ◌<◌, ◌^◌, ◌∷◌, ◌++◌, [], length, map, drop, Some, None, if◌then◌else◌};
ghost use Rattle.osm_base.specs.Key.{key_eq};
ghost use Rattle.osm_base.specs.Place.{Position};
ghost use Rattle.osm_base.specs.declared.keys.Key.{Key};
ghost use Rattle.osm_element.specs.Elements.{next_id, count, push_version};
ghost use Rattle.changeset_core.specs.Changeset.{new_position, touched_area};
ghost use Rattle.osm_change.specs.Keys.{id_of};
ghost use Rattle.osm_model.specs.Names.{member_with_id, with_ids};
ghost use Rattle.osm_model.specs.declared.uploads.Progress.{Progress};
ghost use Rattle.history_store.specs.Store.{free};
ghost use Rattle.reverse_refs.specs.Users.{free_in};
ghost use Rattle.tile_grid.specs.Grid.{free_at};
ghost use Rattle.indexed_map.specs.Ever.{has_used};
ghost use Rattle.indexed_map.specs.Indexed.{times_new, IsListOf, HasRoom};
ghost use Rattle.indexed_map.specs.Placed.{enters};
ghost use Rattle.osm_world.specs.Beds.{first_ids, content_of_op, tags_of_op, place_of_op, makes, version_of, version_of_op, HasPlaces, HasPlacesFor, AreBedsOf, made, begun, entered};
ghost use Rattle.osm_world.specs.World.{Runs, IsDone};

use crate::beds::{Bed, BoxedRoom, Laid, Places};
use changeset_core::{Changeset, join_boxes};
use indexed_map::IndexedMap;
use osm_base::{Box7, Items, Key, Kind, Stamp};
use osm_change::{Name, Op};
use osm_element::{BoxedItems, Content, Member, Tags, Version};
use std::alloc::Global;

fn nodes_with_ids(keys: &[Key], nodes: &[Name], places: BoxedRoom<u64>) -> BoxedItems<u64>
    requires empty { places.room.items ≡ [] }
    requires room { length nodes.now ≤ places.room.free }
    ensures { result ≡ map (id_of keys.now) nodes.now }
{
    let BoxedRoom { room, place } = places;
    let mut made = room;
    for name in nodes {
        made.push(name.id(keys));
    }
    place.with(made.into_vec())
}

fn members_with_ids(
    keys: &[Key],
    members: BoxedItems<Member<Name>>,
    places: BoxedRoom<Member<u64>>,
) -> BoxedItems<Member<u64>>
    requires empty { places.room.items ≡ [] }
    requires room { length members ≤ places.room.free }
    ensures { result ≡ map (member_with_id keys.now) members }
{
    let BoxedRoom { room, place } = places;
    let mut made = room;
    for member in members.into_vec() {
        made.push(Member {
            kind: member.kind,
            name: member.name.id(keys),
            role: member.role,
        });
    }
    place.with(made.into_vec())
}

/// A content with the ids that its names stand for. Roles are moved.
fn with_ids(keys: &[Key], content: Content<Name>, places: Places) -> Content<u64>
    requires { HasPlaces content places }
    ensures { result ≡ with_ids keys.now content }
{
    match content {
        Content::Node(at) => Content::Node(at),
        Content::Way(nodes) => {
            let Places::Nodes(places) = places else {
                unreachable!()
            };
            Content::Way(nodes_with_ids(keys, nodes.items(), places))
        }
        Content::Relation(members) => {
            let Places::Members(places) = places else {
                unreachable!()
            };
            Content::Relation(members_with_ids(keys, members, places))
        }
    }
}

/// The content and the tags that an operation gives a new version: no content where it deletes.
#[derive(Drop)]
struct NewVersion {
    content: Option<Content<u64>>,
    tags: Tags,
}

/// Makes the next version of an element, enters it in its changeset, and gives the box of what it
/// touches.
fn make_version(
    map: &mut IndexedMap,
    changeset: &mut Changeset,
    at: Stamp,
    key: Key,
    fresh: NewVersion,
    listed: &[Key],
) -> Option<Box7>
    requires counted { 0 < key.id }
    requires follows { key.id ≤ next_id map.old.elements key.kind }
    requires listed { IsListOf fresh.content listed.now }
    requires room { HasRoom map.old key listed.now (new_position fresh.content) }
    requires work { 0 < changeset.old.free }
    requires short { changeset.old.id < 2 ^ 32 }
    requires timely { at < 2 ^ 40 }
    ensures touched { result ≡ touched_area map.old.elements key fresh.content }
    ensures elements { map.new.elements ≡ push_version map.old.elements key (version_of changeset.old.id at fresh.content fresh.tags) }
    ensures entered { changeset.new
        ≡ record {
          id = changeset.old.id;
          kept = record changeset.old.kept {
            did = changeset.old.kept.did
                ++ record { key = key; version = count map.old.elements key + 1 } ∷ [];
          };
          free = changeset.old.free - 1;
        } }
    ensures versions { (k : Key) → free map.new.versions k + (if key_eq k key then 1 else 0) ≡ free map.old.versions k }
    ensures users { (b : Key) → free_in map.old.users b ≤ free_in map.new.users b + times_new map.old.elements key listed.now b }
    ensures cells { (p : Position)
        → free_at map.old.cells p ≤ free_at map.new.cells p + (if enters p (new_position fresh.content) then 1 else 0) }
    ensures ever { (a b : Key) → has_used map.old.elements a b ≡ true → has_used map.new.elements a b ≡ true }
{
    let number = map.count(key) + 1;
    let touched = map.touched_area(key, &fresh.content);
    let version = Version::new(fresh.content, fresh.tags, changeset.id(), at);
    changeset.worked(key, number);
    map.revise(key, version, listed);
    touched
}

/// Whether an operation makes a version of its element: a delete may be skipped.
fn makes(map: &IndexedMap, key: Key, operation: &Op) -> bool
    ensures { result ≡ makes map.now.elements key operation.now }
{
    match operation {
        Op::Create { .. } | Op::Modify { .. } => true,
        Op::Delete { .. } => map.is_visible(key) && map.is_unused(key),
    }
}

fn given(alloc: Global, keys: &[Key], operation: Op, places: Places) -> NewVersion
    requires { HasPlacesFor operation places }
    ensures content { result.content ≡ content_of_op keys.now operation }
    ensures tags { result.tags ≡ tags_of_op operation }
    ensures place { new_position result.content ≡ place_of_op operation }
{
    match operation {
        Op::Create { content, tags, .. } | Op::Modify { content, tags, .. } => NewVersion {
            content: Some(with_ids(keys, content, places)),
            tags,
        },
        Op::Delete { .. } => NewVersion {
            content: None,
            tags: Tags::none(alloc),
        },
    }
}

/// Does one operation of an accepted upload, and gives the box of what it touches: `None` too where
/// it is skipped.
fn apply_one(
    alloc: Global,
    map: &mut IndexedMap,
    changeset: &mut Changeset,
    at: Stamp,
    keys: &[Key],
    operation: Op,
    bed: Bed,
) -> Option<Box7>
    requires counted { 0 < bed.key.id }
    requires follows { bed.key.id ≤ next_id map.old.elements bed.key.kind }
    requires listed { IsListOf (content_of_op keys.now operation) bed.listed }
    requires places { HasPlacesFor operation bed.places }
    requires room { HasRoom map.old bed.key bed.listed (place_of_op operation) }
    requires work { 0 < changeset.old.free }
    requires short { changeset.old.id < 2 ^ 32 }
    requires timely { at < 2 ^ 40 }
    ensures touched { result ≡ (if makes map.old.elements bed.key operation then touched_area map.old.elements bed.key (content_of_op keys.now operation) else None) }
    ensures elements { map.new.elements
        ≡ (if makes map.old.elements bed.key operation then push_version map.old.elements bed.key (version_of_op changeset.old.id at keys.now operation) else map.old.elements) }
    ensures entered { changeset.new.kept
        ≡ (if makes map.old.elements bed.key operation then record changeset.old.kept {
          did = changeset.old.kept.did
              ++ record { key = bed.key; version = count map.old.elements bed.key + 1 } ∷ [];
        } else changeset.old.kept) }
    ensures id { changeset.new.id ≡ changeset.old.id }
    ensures versions { (k : Key) → free map.old.versions k ≤ free map.new.versions k + (if key_eq k bed.key then 1 else 0) }
    ensures users { (b : Key) → free_in map.old.users b ≤ free_in map.new.users b + times_new map.old.elements bed.key bed.listed b }
    ensures cells { (p : Position) → free_at map.old.cells p ≤ free_at map.new.cells p + (if enters p (place_of_op operation) then 1 else 0) }
    ensures ever { (a b : Key) → has_used map.old.elements a b ≡ true → has_used map.new.elements a b ≡ true }
    ensures work { changeset.old.free ≤ changeset.new.free + 1 }
    ensures no_more { changeset.new.free ≤ changeset.old.free }
{
    if !makes(map, bed.key, &operation) {
        return None;
    }
    let Bed {
        key,
        listed,
        places,
    } = bed;
    let fresh = given(alloc, keys, operation, places);
    make_version(map, changeset, at, key, fresh, listed.items())
}

/// Takes what was laid by for one operation.
fn take_bed(alloc: Global, beds: &mut Items<Bed>, place: usize) -> Bed
    requires { place < length beds.old }
    ensures { drop place beds.old ≡ result ∷ drop (place + 1) beds.new }
{
    let key = Key {
        kind: Kind::Node,
        id: 0,
    };
    beds.replace(place, Bed::none(alloc, key))
}

/// Does the operations of an accepted upload to a changeset, and gives the box of what they touch.
/// The versions that they make are entered in the changeset.
pub fn apply_all(
    alloc: Global,
    map: &mut IndexedMap,
    changeset: &mut Changeset,
    at: Stamp,
    operations: Items<Op>,
    laid: &mut Laid,
) -> Option<Box7>
    requires accepted { (final : Progress) × Runs map.old.elements changeset.old.id at operations final }
    requires beds { AreBedsOf [] (first_ids map.old.elements) operations laid.old.beds }
    requires unused { laid.old.keys.items ≡ [] }
    requires keys { length operations ≤ laid.old.keys.free }
    requires versions { (k : Key) → made laid.old.beds k ≤ free map.old.versions k }
    requires users { (b : Key) → begun map.old.elements laid.old.beds b ≤ free_in map.old.users b }
    requires cells { (p : Position) → entered operations p ≤ free_at map.old.cells p }
    requires work { length operations ≤ changeset.old.free }
    requires short { changeset.old.id < 2 ^ 32 }
    requires timely { at < 2 ^ 40 }
    ensures done { (final : Progress) → Runs map.old.elements changeset.old.id at operations final
        → IsDone map.new.elements changeset.old.kept changeset.new.kept result final }
    ensures id { changeset.new.id ≡ changeset.old.id }
    ensures no_more { changeset.new.free ≤ changeset.old.free }
{
    let mut area = None;
    for operation in operations.into_vec() {
        let place = laid.keys.items().len();
        let bed = take_bed(alloc, &mut laid.beds, place);
        let key = bed.key;
        let touched = apply_one(alloc, map, changeset, at, laid.keys.items(), operation, bed);
        area = join_boxes(area, touched);
        laid.keys.push(key);
    }
    area
}
