//! Nodes by the cell of the globe in which they lie, for the map call, and by those that they left,
//! for reads of the past. Memory is taken ahead of time.
#![tactic(auto)]

mod cells;
mod grids;
mod law;
mod parts;
mod rows;
mod searches;
mod tiles;

pub use cells::Cell;
pub use grids::Grid;
pub use law::{boxes_touch_what_they_hold, cells_are_as_told};
