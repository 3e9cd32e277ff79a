//! A law on the nodes of the past.
ghost use Rattle.std.specs.Prelude.{◌≡◌, ℕ, true, ◌<◌, List};
ghost use Rattle.osm_element.specs.declared.elements.Elements.{Elements};
ghost use Rattle.tile_grid.specs.declared.cells.Cell.{Cell};
ghost use Rattle.tile_grid.specs.Grid.{times_ever};
ghost use Rattle.tile_grid.specs.Tile.{Held};
ghost use Rattle.indexed_map.specs.Ever.{has_lain, IsPlacedEver};

/// A node of which some version lies in a cell was placed there.
pub fn nodes_that_lay_there_are_placed()
    ensures { (elements : Elements) (grid : List (List Held)) (cell : Cell) (id : ℕ) → IsPlacedEver elements grid
        → has_lain elements cell id ≡ true → 0 < times_ever grid cell id }
{}
