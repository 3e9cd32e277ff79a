//! The cells of the globe.
//!
//! A position on an edge between cells lies in the cell to the north and east.
ghost use Rattle.std.specs.Prelude.{◌≡◌};

use osm_base::{Box7, Coord};

/// The units of one side of a cell: a hundredth of a degree.
const CELL_SIDE: u32 = 100_000;

/// A cell of the globe: its row from the south pole, 0 to 18,000, and its column from 180 degrees
/// west, 0 to 36,000. A position on the edge between cells lies in the one to the north and east.
#[derive(Clone, Copy)]
pub struct Cell {
    pub row: u32,
    pub column: u32,
}

impl Cell {
    ghost use Rattle.tile_grid.specs.Cell.{cell_at, cell_of, first_cell, last_cell};

    fn at(lat7: i32, lon7: i32) -> Cell
        ensures { result ≡ cell_at lat7 lon7 }
    {
        Cell {
            row: lat7.abs_diff(-900_000_000) / CELL_SIDE,
            column: lon7.abs_diff(-1_800_000_000) / CELL_SIDE,
        }
    }

    /// The cell in which a position lies.
    pub fn of(at: Coord) -> Cell
        ensures { result ≡ cell_of at }
    {
        Cell::at(at.lat7(), at.lon7())
    }

    /// The cell of a box's corner in the south and west.
    pub fn first(within: &Box7) -> Cell
        ensures { result ≡ first_cell within.now }
    {
        let (left, bottom, _, _) = within.edges();
        Cell::at(bottom, left)
    }

    /// The cell of a box's corner in the north and east.
    pub fn last(within: &Box7) -> Cell
        ensures { result ≡ last_cell within.now }
    {
        let (_, _, right, top) = within.edges();
        Cell::at(top, right)
    }
}
