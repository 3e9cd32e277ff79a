//! Tags: how many, the room of their texts, and each key with its value.
//!
//! Some tags are put and read apart from their callers, so that the code for none stays small.
ghost use Rattle.std.specs.Prelude.{◌≡◌, ◌<◌, ◌++◌, length, OnOk, All};
ghost use Rattle.std.specs.List.{flat_map};
ghost use Rattle.osm_element.specs.Tags.{KeysRise};
ghost use Rattle.packed_entry.specs.Packed.{packed_tag, packed_tags};
ghost use Rattle.packed_entry.specs.Read.{Gives, tag_at, each_at, some_tags_at, tags_at};
ghost use Rattle.packed_entry.specs.Typed.{IsTag, AreTags};

use crate::faults::Fault;
use crate::numbers::put_number;
use crate::reader::Reader;
use crate::texts::put_text;
use osm_base::Memory;
use osm_element::{Table, TagList, Tags};
use std::alloc::Global;

#[tactic(auto, unfolding(crate::specs::Packed::packed_tag))]
fn put_tag(out: &mut Vec<u8>, key: &str, value: &str) -> Result<(), Memory>
    ensures bytes { OnOk result (out.new.items ≡ out.old.items ++ packed_tag (key.now, value.now)) }
    ensures typed { OnOk result (IsTag (key.now, value.now)) }
{
    put_text(out, key)?;
    put_text(out, value)
}

fn put_each_tag(out: &mut Vec<u8>, tags: &TagList<'_>) -> Result<(), Memory>
    ensures bytes { OnOk result (out.new.items ≡ out.old.items ++ flat_map packed_tag tags.now) }
    ensures typed { OnOk result (All IsTag tags.now) }
{
    for index in 0..tags.len() {
        let (key, value) = tags.pair(index);
        put_tag(out, key, value)?;
    }
    Ok(())
}

#[inline(never)]
#[tactic(auto, unfolding(crate::specs::Packed::packed_tags))]
fn put_some_tags(out: &mut Vec<u8>, tags: &TagList<'_>) -> Result<(), Memory>
    requires some { 0 < length tags.now }
    requires rise { KeysRise tags.now }
    ensures bytes { OnOk result (out.new.items ≡ out.old.items ++ packed_tags tags.now) }
    ensures typed { OnOk result (AreTags tags.now) }
{
    put_number(out, tags.len() as u64)?;
    put_number(out, tags.byte_count() as u64)?;
    put_each_tag(out, tags)
}

#[inline(always)]
#[tactic(auto, unfolding(crate::specs::Packed::packed_tags))]
pub(crate) fn put_tags(out: &mut Vec<u8>, tags: &Tags) -> Result<(), Memory>
    ensures bytes { OnOk result (out.new.items ≡ out.old.items ++ packed_tags tags.now) }
    ensures typed { OnOk result (AreTags tags.now) }
{
    tags.keys_rise();
    let tags = tags.list();
    if tags.len() == 0 {
        put_number(out, 0)
    } else {
        put_some_tags(out, &tags)
    }
}

/// A tag where it stands.
#[tactic(auto, unfolding(crate::specs::Read::tag_at))]
fn tag<'a>(reader: &mut Reader<'a>) -> Result<(&'a str, &'a str), Fault>
    ensures { Gives (λ x. (x.0.now, x.1.now)) result (tag_at reader.old) reader.new }
{
    let key = reader.text()?;
    let value = reader.text()?;
    Ok((key, value))
}

/// So many tags, whose texts have about so many bytes.
fn each_tag(alloc: Global, count: u64, room: u64, reader: &mut Reader<'_>) -> Result<Table, Fault>
    ensures { Gives (λ x. x) result (each_at tag_at count reader.old) reader.new }
{
    let mut tags = Table::with_room(alloc, count as usize, room as usize)?;
    for _ in 0..count {
        let (key, value) = tag(reader)?;
        tags = tags.with(key, value)?;
    }
    Ok(tags)
}

#[inline(never)]
#[tactic(auto, unfolding(crate::specs::Read::some_tags_at))]
fn some_tags(alloc: Global, count: u64, reader: &mut Reader<'_>) -> Result<Tags, Fault>
    ensures { Gives (λ x. x) result (some_tags_at count reader.old) reader.new }
{
    let room = reader.number()?;
    let table = each_tag(alloc, count, room, reader)?;
    match Tags::of_table(alloc, table)? {
        Some(tags) => Ok(tags),
        None => Err(Fault::Malformed),
    }
}

#[inline(always)]
#[tactic(auto, unfolding(crate::specs::Read::tags_at))]
pub(crate) fn tags(alloc: Global, reader: &mut Reader<'_>) -> Result<Tags, Fault>
    ensures { Gives (λ x. x) result (tags_at reader.old) reader.new }
{
    let count = reader.number()?;
    if count == 0 {
        Ok(Tags::none(alloc))
    } else {
        some_tags(alloc, count, reader)
    }
}
