//! Laws on cells.
ghost use Rattle.std.specs.Prelude.{◌≡◌, true, false, pos, negsuc};
ghost use Rattle.osm_base.specs.Place.{Area, Position, IsArea, area_holds};
ghost use Rattle.tile_grid.specs.Cell.{cell_at, cell_of, first_cell, last_cell, touches};
ghost use Rattle.tile_grid.specs.Told.{globe, on_an_edge};

/// A box touches the cell of each position that it holds. So the nodes of a box are among those
/// that a grid lists for it.
pub fn boxes_touch_what_they_hold()
    ensures { (a : Area) (p : Position) → IsArea a.left a.bottom a.right a.top → area_holds a p ≡ true → touches a (cell_of p) ≡ true }
{}

/// What the definitions give for some places: a position in Munich, the corners of the globe, and
/// a box of one position on the edge between cells, which touches the one to the north and east.
pub fn cells_are_as_told()
    ensures munich { cell_at (pos 481400000) (pos 115400000) ≡ record { row = 13814; column = 19154 } }
    ensures first { first_cell globe ≡ record { row = 0; column = 0 } }
    ensures last { last_cell globe ≡ record { row = 18000; column = 36000 } }
    ensures touched { touches on_an_edge (record { row = 9001; column = 17999 }) ≡ true }
    ensures south { touches on_an_edge (record { row = 9000; column = 17999 }) ≡ false }
    ensures west { touches on_an_edge (record { row = 9001; column = 17998 }) ≡ false }
{}
