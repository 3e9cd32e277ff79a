//! The law that joins the two ways to number creates.
ghost use Rattle.std.specs.Prelude.{◌≡◌, List};
ghost use Rattle.osm_change.specs.Change.{IsWellFormed};
ghost use Rattle.osm_change.specs.Keys.{keys_of};
ghost use Rattle.osm_change.specs.declared.operations.FirstIds.{FirstIds};
ghost use Rattle.osm_change.specs.declared.operations.Op.{Op};
ghost use Rattle.diff_result.specs.Counted.{counted_keys};

/// The creates of a kind get the ids from its first one on, in order, and whoever names one of
/// them later names that id.
pub fn keys_are_counted()
    ensures { (first : FirstIds) (ops : List Op) → IsWellFormed ops → keys_of first ops ≡ counted_keys first ops }
{}
