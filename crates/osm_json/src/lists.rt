//! The lists of an element.
ghost use Rattle.std.specs.Prelude.{◌≡◌, ◌<◌, ◌≤◌, [], length, option_map, unwrap_or, OnOk};
ghost use Rattle.osm_json.specs.Reading.{id_of, each_of, list_of, reference_of};
ghost use Rattle.osm_json.specs.Found.{Makes, parts_view, put_part, parts_of, reference_in, allowed, text_in};
ghost use Rattle.osm_json.specs.Pull.{next_data, next_items, next_members, Pulled};

use crate::fault::{ReadFault, keep};
use crate::names::{Part, part_of};
use crate::pass::{pass_items, pass_value};
use crate::scalar::{enter_array, enter_object, next_id, next_kind, next_text};
use json::Reader;
use osm_base::{Kind, Text};
use osm_element::{Member, Members, Refs};
use std::alloc::Global;

fn ids_inside(
    alloc: Global,
    reader: &mut Reader<'_>,
    depth: usize,
) -> Result<Option<Refs<i64>>, ReadFault>
    ensures value { Pulled (λ x. x) (each_of id_of) result (next_items depth reader.old) reader.new }
    ensures shorter { OnOk result (length reader.new ≤ length reader.old) }
{
    let mut found = Vec::new(alloc);
    while !reader.take_end_array() {
        match next_id(reader, depth)? {
            Some(number) => found.push(number)?,
            None => {
                pass_items(reader, depth)?;
                return Ok(None);
            }
        }
    }
    Ok(Some(Refs::of(found)))
}

/// A list of ids.
pub(crate) fn ids(
    alloc: Global,
    reader: &mut Reader<'_>,
    depth: usize,
) -> Result<Option<Refs<i64>>, ReadFault>
    ensures value { Pulled (λ x. x) (list_of id_of) result (next_data depth reader.old) reader.new }
    ensures shorter { OnOk result (length reader.new < length reader.old) }
{
    match enter_array(reader, depth)? {
        Some(within) => ids_inside(alloc, reader, within),
        None => Ok(None),
    }
}

/// What was found of a relation's member.
#[derive(Clone, Copy, Drop)]
struct Parts<'a> {
    kind: Option<Option<Kind>>,
    name: Option<Option<i64>>,
    role: Option<Option<&'a str>>,
}

fn part<'a>(
    reader: &mut Reader<'a>,
    depth: usize,
    name: Part,
    found: &mut Parts<'a>,
) -> Result<(), ReadFault>
    ensures value { Pulled (λ _. parts_view found.new)
        (λ d. put_part name d (parts_view found.old)) result (next_data depth reader.old) reader.new }
    ensures shorter { OnOk result (length reader.new < length reader.old) }
{
    match name {
        Part::Type => keep(&mut found.kind, next_kind(reader, depth)),
        Part::Ref => keep(&mut found.name, next_id(reader, depth)),
        Part::Role => keep(&mut found.role, next_text(reader, depth)),
        Part::Other => pass_value(reader, depth),
    }
}

fn read_parts<'a>(reader: &mut Reader<'a>, depth: usize) -> Result<Parts<'a>, ReadFault>
    ensures value { Pulled parts_view parts_of result (next_members depth reader.old) reader.new }
    ensures shorter { OnOk result (length reader.new ≤ length reader.old) }
{
    let mut found = Parts {
        kind: None,
        name: None,
        role: None,
    };
    while let Some(key) = reader.next_key()? {
        part(reader, depth, part_of(key), &mut found)?;
    }
    Ok(found)
}

/// The role, which may be missing.
fn role_text<'a>(role: Option<Option<&'a str>>) -> Option<&'a str>
    ensures { option_map (λ t. t.now) result
        ≡ option_map (λ r. unwrap_or r []) (allowed (option_map text_in role.entry)) }
{
    match role {
        None => Some(""),
        Some(text) => text,
    }
}

fn reference_from(alloc: Global, found: Parts<'_>) -> Result<Option<Member<i64>>, ReadFault>
    ensures { Makes (λ x. x) result (reference_in (parts_view found.entry)) }
{
    match (found.kind, found.name, role_text(found.role)) {
        (Some(Some(kind)), Some(Some(name)), Some(role)) => {
            let role = Text::of(alloc, role)?;
            Ok(Some(Member { kind, name, role }))
        }
        _ => Ok(None),
    }
}

fn reference(
    alloc: Global,
    reader: &mut Reader<'_>,
    depth: usize,
) -> Result<Option<Member<i64>>, ReadFault>
    ensures value { Pulled (λ x. x) reference_of result (next_data depth reader.old) reader.new }
    ensures shorter { OnOk result (length reader.new < length reader.old) }
{
    match enter_object(reader, depth)? {
        Some(within) => {
            let found = read_parts(reader, within)?;
            reference_from(alloc, found)
        }
        None => Ok(None),
    }
}

fn references_inside(
    alloc: Global,
    reader: &mut Reader<'_>,
    depth: usize,
) -> Result<Option<Members<i64>>, ReadFault>
    ensures value { Pulled (λ x. x) (each_of reference_of) result (next_items depth reader.old) reader.new }
    ensures shorter { OnOk result (length reader.new ≤ length reader.old) }
{
    let mut found = Vec::new(alloc);
    while !reader.take_end_array() {
        match reference(alloc, reader, depth)? {
            Some(member) => found.push(member)?,
            None => {
                pass_items(reader, depth)?;
                return Ok(None);
            }
        }
    }
    Ok(Some(Members::of(found)))
}

/// A list of a relation's members.
pub(crate) fn references(
    alloc: Global,
    reader: &mut Reader<'_>,
    depth: usize,
) -> Result<Option<Members<i64>>, ReadFault>
    ensures value { Pulled (λ x. x) (list_of reference_of) result (next_data depth reader.old) reader.new }
    ensures shorter { OnOk result (length reader.new < length reader.old) }
{
    match enter_array(reader, depth)? {
        Some(within) => references_inside(alloc, reader, within),
        None => Ok(None),
    }
}
