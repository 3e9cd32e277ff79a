//! The parts of an element's row, as bytes.
ghost use Rattle.std.specs.Prelude.{◌<◌, [], ◌∷◌, length, drop, map, flat_map, codes};
ghost use Rattle.serde_json.specs.Written.{compact_text};
ghost use Rattle.osm_element.specs.Held.{held_content};
ghost use Rattle.osm_element.specs.declared.contents.Content.{Content};
ghost use Rattle.osm_element.specs.declared.contents.Content.TheVariants as contents;
ghost use Rattle.osm_json.specs.Shown.{field, natural};
ghost use Rattle.osm_json.specs.Added.{Adds, AddsFields, later_text};
ghost use Rattle.osm_json.specs.Rows.{reference as reference_data, content_fields, visible_fields, redaction_fields, tag_field, tags as tags_data, tags_fields};

use crate::body::Body;
use crate::send::kind_name;
use osm_base::Coord;
use osm_element::{Held, Member, TagList, Version};
use std::alloc::AllocError;

fn position(out: &mut Body, at: Coord) -> Result<(), AllocError>
    ensures { AddsFields result out.old out.new (content_fields (contents.Node at)) }
{
    out.integer(b",\"lat7\":", at.lat7())?;
    out.integer(b",\"lon7\":", at.lon7())?;
    Ok(())
}

fn later_nodes(out: &mut Body, ids: &[u64]) -> Result<(), AllocError>
    ensures { Adds result out.old out.new (flat_map (λ n. later_text (natural n)) ids.now) }
{
    for id in ids {
        out.natural(b",", *id)?;
    }
    Ok(())
}

fn nodes(out: &mut Body, ids: &[u64]) -> Result<(), AllocError>
    ensures { AddsFields result out.old out.new (content_fields (contents.Way ids.now)) }
{
    match ids.split_first() {
        None => {
            out.piece(b",\"nodes\":[]")?;
        }
        Some((first, rest)) => {
            out.natural(b",\"nodes\":[", *first)?;
            later_nodes(out, rest)?;
            out.piece(b"]")?;
        }
    }
    Ok(())
}

fn reference(out: &mut Body, member: &Member<u64>) -> Result<(), AllocError>
    ensures { Adds result out.old out.new (compact_text (reference_data member.now)) }
{
    out.natural(b"{\"ref\":", member.name)?;
    out.text(b",\"role\":", member.role.as_str())?;
    out.text(b",\"type\":", kind_name(member.kind))?;
    out.piece(b"}")?;
    Ok(())
}

fn later_references(out: &mut Body, list: &[Member<u64>]) -> Result<(), AllocError>
    ensures { Adds result out.old out.new (flat_map (λ m. later_text (reference_data m)) list.now) }
{
    for member in list {
        out.piece(b",")?;
        reference(out, member)?;
    }
    Ok(())
}

fn references(out: &mut Body, list: &[Member<u64>]) -> Result<(), AllocError>
    ensures { AddsFields result out.old out.new (content_fields (contents.Relation list.now)) }
{
    match list.split_first() {
        None => {
            out.piece(b",\"members\":[]")?;
        }
        Some((first, rest)) => {
            out.piece(b",\"members\":[")?;
            reference(out, first)?;
            later_references(out, rest)?;
            out.piece(b"]")?;
        }
    }
    Ok(())
}

fn content(out: &mut Body, content: &Held<'_>) -> Result<(), AllocError>
    ensures { AddsFields result out.old out.new (content_fields (held_content content.now)) }
{
    match content {
        Held::Node(at) => position(out, *at),
        Held::Way(ids) => nodes(out, ids),
        Held::Relation(list) => references(out, list),
    }
}

/// The content of a version, where it is visible.
pub(crate) fn visible(out: &mut Body, version: &Version) -> Result<(), AllocError>
    ensures { AddsFields result out.old out.new (visible_fields version.now.content) }
{
    match version.content() {
        None => Ok(()),
        Some(shown) => content(out, &shown),
    }
}

pub(crate) fn redaction(out: &mut Body, version: &Version) -> Result<(), AllocError>
    ensures { AddsFields result out.old out.new (redaction_fields version.now) }
{
    match version.redaction() {
        None => {}
        Some(number) => out.natural(b",\"redaction\":", number)?,
    }
    Ok(())
}

fn later_pairs(out: &mut Body, tags: &TagList<'_>) -> Result<(), AllocError>
    requires { 0 < length tags.now }
    ensures { AddsFields result out.old out.new (map tag_field (drop 1 tags.now)) }
{
    for index in 1..tags.len() {
        let (key, value) = tags.pair(index);
        out.text(b",", key)?;
        out.text(b":", value)?;
    }
    Ok(())
}

fn pairs(out: &mut Body, tags: &TagList<'_>) -> Result<(), AllocError>
    requires { 0 < length tags.now }
    ensures { AddsFields result out.old out.new (field (codes "tags") (tags_data tags.now) ∷ []) }
{
    let (key, value) = tags.pair(0);
    out.text(b",\"tags\":{", key)?;
    out.text(b":", value)?;
    later_pairs(out, tags)?;
    out.piece(b"}")?;
    Ok(())
}

fn tags(out: &mut Body, tags: &TagList<'_>) -> Result<(), AllocError>
    ensures { AddsFields result out.old out.new (field (codes "tags") (tags_data tags.now) ∷ []) }
{
    if tags.len() == 0 {
        out.piece(b",\"tags\":{}")?;
    } else {
        pairs(out, tags)?;
    }
    Ok(())
}

/// These tags, where the version is visible.
pub(crate) fn visible_tags(
    out: &mut Body,
    version: &Version,
    shown: &TagList<'_>,
) -> Result<(), AllocError>
    ensures { AddsFields result out.old out.new (tags_fields (record version.now { tags = shown.now })) }
{
    match version.content() {
        None => {}
        Some(_) => tags(out, shown)?,
    }
    Ok(())
}
