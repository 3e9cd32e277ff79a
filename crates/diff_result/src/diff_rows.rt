//! The rows of an upload whose first ids are given.
ghost use Rattle.std.specs.Prelude.{◌≡◌, length, IfOk};
ghost use Rattle.osm_change.specs.Keys.{keys_of};
ghost use Rattle.osm_change.specs.Rows.{rows};
ghost use Rattle.diff_result.specs.Counted.{HasNumbers};

use crate::keys::keys_of;
use osm_base::Memory;
use osm_change::{Change, DiffRows, FirstIds, OpDones};
use std::alloc::Global;

/// One row for each operation, in order. `first` has the ids from which the creates of each kind
/// are numbered.
pub fn rows(
    alloc: Global,
    change: &Change,
    done: &OpDones,
    first: FirstIds,
) -> Result<DiffRows, Memory>
    requires done { length done.now ≡ length change.now }
    requires numbers { HasNumbers first (length change.now) }
    ensures { IfOk result (λ made. made ≡ rows change.now (keys_of first change.now) done.now) }
{
    let keys = keys_of(alloc, change.operations(), first)?;
    change.rows(alloc, keys.as_slice(), done.items())
}
