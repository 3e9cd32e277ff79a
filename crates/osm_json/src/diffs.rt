//! The rows of a diff result.
ghost use Rattle.std.specs.Prelude.{flat_map};
ghost use Rattle.serde_json.specs.Written.{compact_text};
ghost use Rattle.osm_json.specs.Added.{Adds, later_text, joined, said_text, later_said, first_said};
ghost use Rattle.osm_json.specs.Rows.{diff_row as diff_row_data, diff as diff_data};

use crate::body::Body;
use crate::send::kind_name;
use osm_change::DiffRow;
use std::alloc::AllocError;

/// The members of a row up to the one that every row has.
fn said(out: &mut Body, row: &DiffRow) -> Result<(), AllocError>
    ensures { Adds result out.old out.new (said_text row.now.new_id row.now.new_version row.now.old_id) }
{
    match row.new_id {
        Some(id) => {
            out.natural(b"{\"new_id\":", id)?;
            later_said(out, row)
        }
        None => first_said(out, row),
    }
}

/// The same behind the new id.
fn later_said(out: &mut Body, row: &DiffRow) -> Result<(), AllocError>
    ensures { Adds result out.old out.new (later_said row.now.new_version row.now.old_id) }
{
    match row.new_version {
        Some(version) => {
            out.natural(b",\"new_version\":", version)?;
            out.long(b",\"old_id\":", row.old_id)?;
        }
        None => out.long(b",\"old_id\":", row.old_id)?,
    }
    Ok(())
}

/// The same where there is no new id.
fn first_said(out: &mut Body, row: &DiffRow) -> Result<(), AllocError>
    ensures { Adds result out.old out.new (first_said row.now.new_version row.now.old_id) }
{
    match row.new_version {
        Some(version) => {
            out.natural(b"{\"new_version\":", version)?;
            out.long(b",\"old_id\":", row.old_id)?;
        }
        None => out.long(b"{\"old_id\":", row.old_id)?,
    }
    Ok(())
}

fn diff_row(out: &mut Body, row: &DiffRow) -> Result<(), AllocError>
    ensures { Adds result out.old out.new (compact_text (diff_row_data row.now)) }
{
    said(out, row)?;
    out.text(b",\"type\":", kind_name(row.kind))?;
    out.piece(b"}")?;
    Ok(())
}

fn later_rows(out: &mut Body, rows: &[DiffRow]) -> Result<(), AllocError>
    ensures { Adds result out.old out.new (flat_map (λ r. later_text (diff_row_data r)) rows.now) }
{
    for row in rows {
        out.piece(b",")?;
        diff_row(out, row)?;
    }
    Ok(())
}

fn diff_rows(out: &mut Body, rows: &[DiffRow]) -> Result<(), AllocError>
    ensures { Adds result out.old out.new (joined diff_row_data rows.now) }
{
    let Some((first, rest)) = rows.split_first() else {
        return Ok(());
    };
    diff_row(out, first)?;
    later_rows(out, rest)
}

pub(crate) fn diff(out: &mut Body, rows: &[DiffRow]) -> Result<(), AllocError>
    ensures { Adds result out.old out.new (compact_text (diff_data rows.now)) }
{
    out.piece(b"{\"diffResult\":[")?;
    diff_rows(out, rows)?;
    out.piece(b"],\"version\":\"0.6\"}")?;
    Ok(())
}
