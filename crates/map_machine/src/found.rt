//! What a query found on the map, free of the map: a short answer is written at once, and the rows of
//! a long one are copied, so that the map is given back before their bytes are written.
ghost use Rattle.std.specs.Prelude.{◌≡◌, IfOk};
ghost use Rattle.osm_change.specs.Moments.{HasShownMoments};
ghost use Rattle.osm_change.specs.declared.answers.Answer.TheVariants as answers;
ghost use Rattle.map_machine.specs.Found.{told};
ghost use Rattle.map_machine.specs.Machine.{bytes_of};

use crate::answers::bytes_of;
use crate::copied::CopiedRows;
use osm_base::{Box7, Bytes, Memory};
use osm_change::Answer;
use std::alloc::Global;

/// The most elements of an answer that is written while the map is held: some ten microseconds' work.
const WRITTEN_ROWS: usize = 50;

/// What a query found on the map.
#[derive(Drop)]
pub enum Found {
    /// The answer.
    Written(Bytes),
    /// Elements, and the box that they are of.
    Elements {
        bounds: Option<Box7>,
        rows: CopiedRows,
    },
    /// The versions that a changeset made.
    Change(CopiedRows),
}

/// What an answer is that was found: where it has many rows, they are copied.
pub(crate) fn found_of(alloc: Global, answer: &Answer<'_>) -> Result<Found, Memory>
    requires { HasShownMoments answer.now }
    ensures { IfOk result (λ found. told found ≡ bytes_of answer.now) }
{
    match answer {
        Answer::Elements { bounds, rows } if rows.len() > WRITTEN_ROWS => Ok(Found::Elements {
            bounds: *bounds,
            rows: CopiedRows::of(alloc, rows.items())?,
        }),
        Answer::Change(rows) if rows.len() > WRITTEN_ROWS => {
            Ok(Found::Change(CopiedRows::of(alloc, rows.items())?))
        }
        answer => Ok(Found::Written(bytes_of(alloc, answer)?)),
    }
}

/// The bytes of what was found.
pub(crate) fn tell(alloc: Global, found: Found) -> Result<Bytes, Memory>
    ensures { IfOk result (λ bytes. bytes ≡ told found) }
{
    match found {
        Found::Written(bytes) => Ok(bytes),
        Found::Elements { bounds, rows } => tell_elements(alloc, bounds, &rows),
        Found::Change(rows) => tell_change(alloc, &rows),
    }
}

fn tell_elements(alloc: Global, bounds: Option<Box7>, copied: &CopiedRows) -> Result<Bytes, Memory>
    ensures { IfOk result (λ bytes. bytes ≡ bytes_of (answers.Elements bounds copied.now)) }
{
    let rows = copied.rows(alloc)?;
    bytes_of(alloc, &Answer::Elements { bounds, rows })
}

fn tell_change(alloc: Global, copied: &CopiedRows) -> Result<Bytes, Memory>
    ensures { IfOk result (λ bytes. bytes ≡ bytes_of (answers.Change copied.now)) }
{
    let rows = copied.rows(alloc)?;
    bytes_of(alloc, &Answer::Change(rows))
}
