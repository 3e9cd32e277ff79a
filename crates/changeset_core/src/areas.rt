//! Boxes that grow.
ghost use Rattle.std.specs.Prelude.{◌≡◌};
ghost use Rattle.changeset_core.specs.Changeset.{first_limit, join_areas, past_limit, same_area, widen};

use osm_base::{Box7, CHANGE_LIMIT, Coord, LARGE_CHANGE_LIMIT, Stamp};

/// The least box that holds this one, if there is one, and the position.
pub fn widened(area: Option<Box7>, at: Coord) -> Option<Box7>
    ensures { result ≡ widen area at }
{
    match area {
        Some(area) => Some(area.with(at)),
        None => Some(Box7::at(at)),
    }
}

/// The least box that holds both, where there is any.
pub fn join_boxes(area: Option<Box7>, more: Option<Box7>) -> Option<Box7>
    ensures { result ≡ join_areas area more }
{
    match (area, more) {
        (Some(area), Some(more)) => Some(area.join(&more)),
        (Some(area), None) => Some(area),
        (None, more) => more,
    }
}

fn is_same(area: Option<Box7>, other: Option<Box7>) -> bool
    ensures { result ≡ same_area area other }
{
    match (area, other) {
        (Some(area), Some(other)) => area.edges() == other.edges(),
        (None, None) => true,
        _ => false,
    }
}

/// The area of the box that a changeset would have, in square units, where that is another than before
/// and past the limit.
pub fn past_limit(limit: u64, before: Option<Box7>, after: Option<Box7>) -> Option<u64>
    ensures { result ≡ past_limit limit before after }
{
    let area = after?.area();
    if !is_same(before, after) && limit < area {
        Some(area)
    } else {
        None
    }
}

/// The most changes of a changeset that is created at a stamp. `large_from` is the moment from which
/// they may be many.
pub fn first_limit(large_from: Option<u64>, at: Stamp) -> u64
    ensures { result ≡ first_limit large_from at }
{
    match large_from {
        Some(from) if from <= at.seconds() => LARGE_CHANGE_LIMIT,
        _ => CHANGE_LIMIT,
    }
}
