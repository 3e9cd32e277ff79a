//! Versions of elements, and what a changeset made.
//!
//! The fixed parts of a row are whole pieces, and what rows of one upload share is kept from one to the next.
ghost use Rattle.std.specs.Prelude.{◌≡◌, All, is_some, flat_map};
ghost use Rattle.serde_json.specs.Written.{compact_text};
ghost use Rattle.osm_json.specs.Rows.{element as element_data, elements as elements_data, block as block_data, download as download_data};
ghost use Rattle.osm_json.specs.Added.{Adds, later_text, origin_of, ending_text, joined, opening_text, block_opening_text};
ghost use Rattle.osm_change.specs.Moments.{HasShownStamp};

use crate::body::Body;
use crate::origin::ShownOrigin;
use crate::rows::{redaction, visible, visible_tags};
use osm_base::Box7;
use osm_change::ElementRow;
use osm_element::Version;
use std::alloc::AllocError;

/// A row, with its origin.
fn element(out: &mut Body, row: &ElementRow<'_>, origin: &ShownOrigin<'_>) -> Result<(), AllocError>
    requires { origin.now ≡ origin_of row.now }
    ensures { Adds result out.old out.new (compact_text (element_data row.now)) }
{
    out.natural(b"{\"changeset\":", row.version.changeset())?;
    out.natural(b",\"id\":", row.key.id)?;
    visible(out, row.version)?;
    redaction(out, row.version)?;
    visible_tags(out, row.version, &row.tags)?;
    out.piece(origin.text())?;
    out.natural(b"", row.number)?;
    ending(out, row.version)?;
    Ok(())
}

fn ending(out: &mut Body, version: &Version) -> Result<(), AllocError>
    ensures { Adds result out.old out.new (ending_text (is_some version.now.content)) }
{
    match version.content() {
        Some(_) => out.piece(b",\"visible\":true}")?,
        None => out.piece(b",\"visible\":false}")?,
    }
    Ok(())
}

/// Rows behind one with this origin.
fn later_rows<'a>(
    out: &mut Body,
    rows: &[ElementRow<'a>],
    origin: ShownOrigin<'a>,
) -> Result<(), AllocError>
    requires { All HasShownStamp rows.now }
    ensures { Adds result out.old out.new (flat_map (λ r. later_text (element_data r)) rows.now) }
{
    let mut origin = origin;
    for row in rows {
        origin = origin.behind(row)?;
        out.piece(b",")?;
        element(out, row, &origin)?;
    }
    Ok(())
}

fn element_rows(out: &mut Body, rows: &[ElementRow<'_>]) -> Result<(), AllocError>
    requires { All HasShownStamp rows.now }
    ensures { Adds result out.old out.new (joined element_data rows.now) }
{
    let Some((first, rest)) = rows.split_first() else {
        return Ok(());
    };
    let origin = ShownOrigin::of(out.allocator(), first)?;
    element(out, first, &origin)?;
    later_rows(out, rest, origin)?;
    Ok(())
}

fn opening(out: &mut Body, within: &Option<Box7>) -> Result<(), AllocError>
    ensures { Adds result out.old out.new (opening_text within.now) }
{
    match within {
        None => out.piece(b"{\"elements\":[")?,
        Some(area) => {
            let (left, bottom, right, top) = area.edges();
            out.integer(b"{\"bounds\":{\"maxlat7\":", top)?;
            out.integer(b",\"maxlon7\":", right)?;
            out.integer(b",\"minlat7\":", bottom)?;
            out.integer(b",\"minlon7\":", left)?;
            out.piece(b"},\"elements\":[")?;
        }
    }
    Ok(())
}

pub(crate) fn elements(
    out: &mut Body,
    within: &Option<Box7>,
    rows: &[ElementRow<'_>],
) -> Result<(), AllocError>
    requires { All HasShownStamp rows.now }
    ensures { Adds result out.old out.new (compact_text (elements_data within.now rows.now)) }
{
    opening(out, within)?;
    element_rows(out, rows)?;
    out.piece(b"],\"version\":\"0.6\"}")?;
    Ok(())
}

fn block_opening(row: &ElementRow<'_>) -> &'static [u8]
    ensures { result.now ≡ block_opening_text row.now }
{
    if row.number == 1 {
        return b"{\"create\":[";
    }
    match row.version.content() {
        Some(_) => b"{\"modify\":[",
        None => b"{\"delete\":[",
    }
}

fn block(out: &mut Body, row: &ElementRow<'_>, origin: &ShownOrigin<'_>) -> Result<(), AllocError>
    requires { origin.now ≡ origin_of row.now }
    ensures { Adds result out.old out.new (compact_text (block_data row.now)) }
{
    out.piece(block_opening(row))?;
    element(out, row, origin)?;
    out.piece(b"]}")?;
    Ok(())
}

fn later_blocks<'a>(
    out: &mut Body,
    rows: &[ElementRow<'a>],
    origin: ShownOrigin<'a>,
) -> Result<(), AllocError>
    requires { All HasShownStamp rows.now }
    ensures { Adds result out.old out.new (flat_map (λ r. later_text (block_data r)) rows.now) }
{
    let mut origin = origin;
    for row in rows {
        origin = origin.behind(row)?;
        out.piece(b",")?;
        block(out, row, &origin)?;
    }
    Ok(())
}

fn blocks(out: &mut Body, rows: &[ElementRow<'_>]) -> Result<(), AllocError>
    requires { All HasShownStamp rows.now }
    ensures { Adds result out.old out.new (joined block_data rows.now) }
{
    let Some((first, rest)) = rows.split_first() else {
        return Ok(());
    };
    let origin = ShownOrigin::of(out.allocator(), first)?;
    block(out, first, &origin)?;
    later_blocks(out, rest, origin)?;
    Ok(())
}

pub(crate) fn download(out: &mut Body, rows: &[ElementRow<'_>]) -> Result<(), AllocError>
    requires { All HasShownStamp rows.now }
    ensures { Adds result out.old out.new (compact_text (download_data rows.now)) }
{
    out.piece(b"{\"osmChange\":[")?;
    blocks(out, rows)?;
    out.piece(b"],\"version\":\"0.6\"}")?;
    Ok(())
}
