//! What elements hold. The kind of a content stands elsewhere.
//!
//! Lists are put and read apart from their callers, so that the code for a node stays small.
ghost use Rattle.std.specs.Prelude.{◌≡◌, ◌++◌, OnOk, All};
ghost use Rattle.std.specs.List.{flat_map};
ghost use Rattle.osm_base.specs.Place.{IsPosition};
ghost use Rattle.osm_change.specs.Referents.{Fits};
ghost use Rattle.packed_entry.specs.Packed.{packed_name, position_bits, packed_position, packed_member, packed_list, packed_content};
ghost use Rattle.packed_entry.specs.Read.{Gives, name_at, position_at, member_at, each_at, list_at, content_at};
ghost use Rattle.packed_entry.specs.Typed.{IsMember, AreAll, IsContent};

use crate::faults::Fault;
use crate::names::{kind, kind_code, name, put_name};
use crate::numbers::put_number;
use crate::reader::Reader;
use crate::texts::{put_text, text};
use osm_base::{Box7, Coord, Kind, Memory};
use osm_change::Name;
use osm_element::{BoxedItems, Content, Member};
use std::alloc::Global;

// Positions.

/// Two numbers of 32 bits in one, in two's complement.
fn position_bits(at: Coord) -> u64
    ensures { result ≡ position_bits at }
{
    let lat7 = u64::from(at.lat7().cast_unsigned());
    let lon7 = u64::from(at.lon7().cast_unsigned());
    lat7 * 0x1_0000_0000 + lon7
}

/// That a position lies on the globe is told by the box that holds it alone.
#[tactic(auto, unfolding(crate::specs::Packed::packed_position))]
fn put_position(out: &mut Vec<u8>, at: Coord) -> Result<(), Memory>
    ensures bytes { OnOk result (out.new.items ≡ out.old.items ++ packed_position at) }
    ensures typed { IsPosition at.lat7 at.lon7 }
{
    let _area = Box7::at(at).area();
    out.extend_from_slice(&position_bits(at).to_be_bytes())?;
    Ok(())
}

#[tactic(auto, unfolding(crate::specs::Read::position_at))]
fn position(reader: &mut Reader<'_>) -> Result<Coord, Fault>
    ensures { Gives (λ x. x) result (position_at reader.old) reader.new }
{
    let bits = reader.eight_bytes()?;
    let lat7 = (bits / 0x1_0000_0000) as u32;
    let lon7 = (bits % 0x1_0000_0000) as u32;
    match Coord::new(lat7.cast_signed(), lon7.cast_signed()) {
        Some(at) => Ok(at),
        None => Err(Fault::Malformed),
    }
}

// Nodes of ways.

fn put_each_name(out: &mut Vec<u8>, names: &[Name]) -> Result<(), Memory>
    ensures bytes { OnOk result (out.new.items ≡ out.old.items ++ flat_map packed_name names.now) }
    ensures typed { OnOk result (All Fits names.now) }
{
    for name in names {
        put_name(out, *name)?;
    }
    Ok(())
}

#[inline(never)]
#[tactic(auto, unfolding(crate::specs::Packed::packed_list))]
fn put_names(out: &mut Vec<u8>, names: &[Name]) -> Result<(), Memory>
    ensures bytes { OnOk result (out.new.items ≡ out.old.items ++ packed_list packed_name names.now) }
    ensures typed { OnOk result (AreAll Fits names.now) }
{
    put_number(out, names.len() as u64)?;
    put_each_name(out, names)
}

fn each_name(alloc: Global, count: u64, reader: &mut Reader<'_>) -> Result<Vec<Name>, Fault>
    ensures { Gives (λ x. x.items) result (each_at name_at count reader.old) reader.new }
{
    let mut names = Vec::with_capacity(alloc, count as usize)?;
    for _ in 0..count {
        let name = name(reader)?;
        names.push(name)?;
    }
    Ok(names)
}

#[inline(never)]
#[tactic(auto, unfolding(crate::specs::Read::list_at))]
fn names(alloc: Global, reader: &mut Reader<'_>) -> Result<BoxedItems<Name>, Fault>
    ensures { Gives (λ x. x) result (list_at name_at reader.old) reader.new }
{
    let count = reader.number()?;
    let names = each_name(alloc, count, reader)?;
    Ok(BoxedItems::of(alloc, names)?)
}

// Members of relations.

#[tactic(auto, unfolding(crate::specs::Packed::packed_member))]
fn put_member(out: &mut Vec<u8>, member: &Member<Name>) -> Result<(), Memory>
    ensures bytes { OnOk result (out.new.items ≡ out.old.items ++ packed_member member.now) }
    ensures typed { OnOk result (IsMember member.now) }
{
    out.push(kind_code(member.kind))?;
    put_name(out, member.name)?;
    put_text(out, member.role.as_str())
}

fn put_each_member(out: &mut Vec<u8>, members: &[Member<Name>]) -> Result<(), Memory>
    ensures bytes { OnOk result (out.new.items ≡ out.old.items ++ flat_map packed_member members.now) }
    ensures typed { OnOk result (All IsMember members.now) }
{
    for member in members {
        put_member(out, member)?;
    }
    Ok(())
}

#[inline(never)]
#[tactic(auto, unfolding(crate::specs::Packed::packed_list))]
fn put_members(out: &mut Vec<u8>, members: &[Member<Name>]) -> Result<(), Memory>
    ensures bytes { OnOk result (out.new.items ≡ out.old.items ++ packed_list packed_member members.now) }
    ensures typed { OnOk result (AreAll IsMember members.now) }
{
    put_number(out, members.len() as u64)?;
    put_each_member(out, members)
}

#[tactic(auto, unfolding(crate::specs::Read::member_at))]
fn member(alloc: Global, reader: &mut Reader<'_>) -> Result<Member<Name>, Fault>
    ensures { Gives (λ x. x) result (member_at reader.old) reader.new }
{
    let kind = kind(reader)?;
    let name = name(reader)?;
    let role = text(alloc, reader)?;
    Ok(Member { kind, name, role })
}

fn each_member(
    alloc: Global,
    count: u64,
    reader: &mut Reader<'_>,
) -> Result<Vec<Member<Name>>, Fault>
    ensures { Gives (λ x. x.items) result (each_at member_at count reader.old) reader.new }
{
    let mut members = Vec::with_capacity(alloc, count as usize)?;
    for _ in 0..count {
        let member = member(alloc, reader)?;
        members.push(member)?;
    }
    Ok(members)
}

#[inline(never)]
#[tactic(auto, unfolding(crate::specs::Read::list_at))]
fn members(alloc: Global, reader: &mut Reader<'_>) -> Result<BoxedItems<Member<Name>>, Fault>
    ensures { Gives (λ x. x) result (list_at member_at reader.old) reader.new }
{
    let count = reader.number()?;
    let members = each_member(alloc, count, reader)?;
    Ok(BoxedItems::of(alloc, members)?)
}

// Contents.

#[inline(always)]
#[tactic(auto, unfolding(crate::specs::Packed::packed_content))]
pub(crate) fn put_content(out: &mut Vec<u8>, content: &Content<Name>) -> Result<(), Memory>
    ensures bytes { OnOk result (out.new.items ≡ out.old.items ++ packed_content content.now) }
    ensures typed { OnOk result (IsContent content.now) }
{
    match content {
        Content::Node(at) => put_position(out, *at),
        Content::Way(nodes) => put_names(out, nodes.items()),
        Content::Relation(members) => put_members(out, members.items()),
    }
}

/// A content of a kind.
#[inline(always)]
#[tactic(auto, unfolding(crate::specs::Read::content_at))]
pub(crate) fn content(
    alloc: Global,
    kind: Kind,
    reader: &mut Reader<'_>,
) -> Result<Content<Name>, Fault>
    ensures { Gives (λ x. x) result (content_at kind reader.old) reader.new }
{
    match kind {
        Kind::Node => {
            let at = position(reader)?;
            Ok(Content::Node(at))
        }
        Kind::Way => {
            let nodes = names(alloc, reader)?;
            Ok(Content::Way(nodes))
        }
        Kind::Relation => {
            let members = members(alloc, reader)?;
            Ok(Content::Relation(members))
        }
    }
}
