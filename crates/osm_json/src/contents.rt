//! Boxes and tags.
ghost use Rattle.std.specs.Prelude.{map};
ghost use Rattle.osm_json.specs.Shown.{field, integer};
ghost use Rattle.osm_json.specs.Fields.{IsMember};
ghost use Rattle.osm_json.specs.Rows.{tag_field, tags as tags_data, box_fields};
ghost use Rattle.osm_json.specs.Sent.{Sends, SendsFields, tokens_of};

use crate::send::{FieldValue, members, text};
use json::Writer;
use osm_base::Box7;
use osm_element::TagList;
use std::alloc::AllocError;

/// A coordinate, in units of 1e-7 degrees.
fn units(at: i32) -> FieldValue<'static>
    ensures { IsMember result (λ name. field name (integer at)) }
{
    FieldValue::Integer(at as i64)
}

/// The edges of a box.
pub(crate) fn edges(out: &mut Writer, of: &Box7) -> Result<(), AllocError>
    ensures { SendsFields result out.old out.new (box_fields of.now) }
{
    let (left, bottom, right, top) = of.edges();
    members(
        out,
        &[
            ("maxlat7", units(top)),
            ("maxlon7", units(right)),
            ("minlat7", units(bottom)),
            ("minlon7", units(left)),
        ],
    )
}

fn pairs(out: &mut Writer, tags: &TagList<'_>) -> Result<(), AllocError>
    ensures { SendsFields result out.old out.new (map tag_field tags.now) }
{
    for index in 0..tags.len() {
        let (key, value) = tags.pair(index);
        text(out, key, value)?;
    }
    Ok(())
}

/// The object of tags.
pub(crate) fn tags(out: &mut Writer, tags: &TagList<'_>) -> Result<(), AllocError>
    ensures { Sends result out.old out.new (tokens_of (tags_data tags.now)) }
{
    out.begin_object()?;
    pairs(out, tags)?;
    out.end_object()
}
