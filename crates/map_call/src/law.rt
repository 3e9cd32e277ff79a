//! What the definition gives for a small map.
ghost use Rattle.std.specs.Prelude.{◌≡◌, ◌∷◌, [], Ok, Err};
ghost use Rattle.osm_change.specs.declared.reads.MapFault.TheVariants.{TooLarge};
ghost use Rattle.osm_model.specs.Selection.{map_of};
ghost use Rattle.map_call.specs.Near.{nodes_near};
ghost use Rattle.map_call.specs.Worked.{small_map, around_first, too_wide};

/// The box has one node on its corner. The way brings the other one with it, and the third relation,
/// which lists the second alone, is too far from it. Half a degree by half a degree may be asked for.
pub fn small_map_is_as_told()
    ensures selection { map_of small_map around_first ≡ Ok (record { nodes = 1 ∷ 2 ∷ []; ways = 1 ∷ []; relations = 1 ∷ 2 ∷ [] }) }
    ensures near { nodes_near small_map around_first ≡ 1 ∷ [] }
    ensures wide { map_of small_map too_wide ≡ Err (TooLarge 25000005000000) }
{}
