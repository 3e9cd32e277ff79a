//! Changesets, as a client is told of them.
ghost use Rattle.std.specs.Prelude.{All, flat_map};
ghost use Rattle.osm_json.specs.Rows.{life_fields, touched_fields, open_fields, owner_fields, changeset_row as row_data, changeset as changeset_data, changesets as changesets_data};
ghost use Rattle.osm_change.specs.Moments.{HasShownLife};
ghost use Rattle.osm_json.specs.Sent.{Sends, SendsFields, tokens_of};

use crate::contents::{edges, tags};
use crate::send::{FieldValue, members, moment, natural, optional_moment, version};
use json::Writer;
use osm_base::{Box7, Owner};
use osm_change::ChangesetRow;
use std::alloc::AllocError;

fn life(out: &mut Writer, row: &ChangesetRow) -> Result<(), AllocError>
    requires { HasShownLife row.now }
    ensures { SendsFields result out.old out.new (life_fields row.now) }
{
    natural(out, "changes_count", row.count)?;
    optional_moment(out, "closed_at", row.closes)?;
    moment(out, "created_at", row.created)?;
    natural(out, "id", row.id)?;
    Ok(())
}

fn touched(out: &mut Writer, touched: &Option<Box7>) -> Result<(), AllocError>
    ensures { SendsFields result out.old out.new (touched_fields touched.now) }
{
    match touched {
        None => Ok(()),
        Some(within) => edges(out, within),
    }
}

fn open(out: &mut Writer, row: &ChangesetRow) -> Result<(), AllocError>
    ensures { SendsFields result out.old out.new (open_fields row.now) }
{
    members(out, &[("open", FieldValue::Flag(row.closes.is_none()))])
}

fn owner(out: &mut Writer, owner: &Owner) -> Result<(), AllocError>
    ensures { SendsFields result out.old out.new (owner_fields owner.now) }
{
    members(
        out,
        &[
            ("uid", FieldValue::Natural(owner.id)),
            ("user", FieldValue::Text(owner.name.as_str())),
        ],
    )
}

fn changeset_row(out: &mut Writer, row: &ChangesetRow) -> Result<(), AllocError>
    requires { HasShownLife row.now }
    ensures { Sends result out.old out.new (tokens_of (row_data row.now)) }
{
    out.begin_object()?;
    life(out, row)?;
    touched(out, &row.touched)?;
    open(out, row)?;
    out.key("tags")?;
    tags(out, &row.tags.list())?;
    owner(out, &row.owner)?;
    out.end_object()
}

pub(crate) fn changeset(out: &mut Writer, row: &ChangesetRow) -> Result<(), AllocError>
    requires { HasShownLife row.now }
    ensures { Sends result out.old out.new (tokens_of (changeset_data row.now)) }
{
    out.begin_object()?;
    out.key("changeset")?;
    changeset_row(out, row)?;
    version(out)?;
    out.end_object()
}

fn changeset_rows(out: &mut Writer, rows: &[ChangesetRow]) -> Result<(), AllocError>
    requires { All HasShownLife rows.now }
    ensures { Sends result out.old out.new (flat_map (λ r. tokens_of (row_data r)) rows.now) }
{
    for row in rows {
        changeset_row(out, row)?;
    }
    Ok(())
}

pub(crate) fn changesets(out: &mut Writer, rows: &[ChangesetRow]) -> Result<(), AllocError>
    requires { All HasShownLife rows.now }
    ensures { Sends result out.old out.new (tokens_of (changesets_data rows.now)) }
{
    out.begin_object()?;
    out.key("changesets")?;
    out.begin_array()?;
    changeset_rows(out, rows)?;
    out.end_array()?;
    version(out)?;
    out.end_object()
}
