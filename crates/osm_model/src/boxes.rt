//! What box a changeset may have.
//!
//! The box is tested by one function of osm_model, `box_allowed`, though that crate has
//! definitions else: the plain program and the fast one both need it, and stand on no other common
//! crate that knows refusals.
ghost use Rattle.std.specs.Prelude.{◌≡◌, IfErr};
ghost use Rattle.osm_change.specs.Moments.{RefusalHasShownEnd};
ghost use Rattle.osm_model.specs.Fold.{box_allowed};

use changeset_core::past_limit;
use osm_base::Box7;
use osm_change::Refusal;

/// Whether a changeset with the one box may have the other, by the limit on its area in square units of
/// 1e-7 degrees, if its user has one.
pub fn box_allowed(
    limit: Option<u64>,
    changeset: u64,
    before: Option<Box7>,
    after: Option<Box7>,
) -> Result<(), Refusal>
    ensures value { result ≡ box_allowed limit changeset before after }
    ensures shown { IfErr result RefusalHasShownEnd }
{
    let Some(limit) = limit else {
        return Ok(());
    };
    match past_limit(limit, before, after) {
        Some(area) => Err(Refusal::BoxTooLarge {
            area,
            changeset,
            limit,
        }),
        None => Ok(()),
    }
}
