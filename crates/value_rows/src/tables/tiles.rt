//! Nodes by cell, under promised room.
use osm_base::{Box7, Coord, Memory};
use row_lines::Tally;
use std::alloc::Global;
use tile_grid::Grid;

/// Whether the cell of a place has these nodes now, and had those ever.
fn has(alloc: Global, grid: &Grid, at: Coord, now: &[u64], ever: &[u64]) -> Result<bool, Memory> {
    let within = Box7::at(at);
    let standing = grid.rows_of(alloc, &within)?;
    let placed = grid.rows_ever_of(alloc, &within)?;
    Ok(standing.as_slice() == now && placed.as_slice() == ever)
}

fn nodes_come_and_go(alloc: Global) -> Result<bool, Memory> {
    let Some(at) = Coord::new(481_400_000, 115_400_000) else {
        return Ok(false);
    };
    let mut grid = Grid::new(alloc);
    grid.room(alloc, &[at])?;
    grid.place(7, at);
    let placed = has(alloc, &grid, at, &[7], &[7])?;
    grid.leave(7, at);
    let left = has(alloc, &grid, at, &[], &[7])?;
    grid.come_back(7, at);
    let back = has(alloc, &grid, at, &[7], &[7])?;
    Ok(placed && left && back)
}

fn nodes_leave_for_another_cell(alloc: Global) -> Result<bool, Memory> {
    let Some(from) = Coord::new(481_400_000, 115_400_000) else {
        return Ok(false);
    };
    let Some(to) = Coord::new(481_400_000, 115_500_000) else {
        return Ok(false);
    };
    let mut grid = Grid::new(alloc);
    grid.room(alloc, &[from])?;
    grid.place(7, from);
    grid.leave(7, from);
    grid.room(alloc, &[to])?;
    grid.place(7, to);
    Ok(has(alloc, &grid, from, &[], &[7])? && has(alloc, &grid, to, &[7], &[7])?)
}

/// Ids of nodes, and where each stands.
const NODES: [(u64, i32, i32); 6] = [
    (9, 0, 0),
    (4, 0, 199_999),
    (6, 0, 200_000),
    (5, 0, -1_800_000_000),
    (3, 0, 1_800_000_000),
    (2, 100_000, 0),
];

fn grid_of_nodes(alloc: Global) -> Result<Grid, Memory> {
    let mut grid = Grid::new(alloc);
    for (id, lat7, lon7) in &NODES {
        if let Some(at) = Coord::new(*lat7, *lon7) {
            grid.room(alloc, &[at])?;
            grid.place(*id, at);
        }
    }
    Ok(grid)
}

/// Boxes by their left, bottom, right and top edges, and the nodes of the cells that they touch.
const BOXES: [(&str, [i32; 4], &[u64]); 3] = [
    ("a box below the edge", [0, 0, 99_999, 99_999], &[9]),
    ("a box to the edge", [0, 0, 100_000, 99_999], &[4, 9]),
    (
        "a box round the globe",
        [-1_800_000_000, 0, 1_800_000_000, 5],
        &[3, 4, 5, 6, 9],
    ),
];

fn lists(alloc: Global, edges: [i32; 4], ids: &[u64]) -> Result<bool, Memory> {
    let grid = grid_of_nodes(alloc)?;
    let [left, bottom, right, top] = edges;
    let Ok(within) = Box7::new(left, bottom, right, top) else {
        return Ok(false);
    };
    Ok(grid.rows_of(alloc, &within)?.as_slice() == ids)
}

pub fn play<R: Print>(rt: &R, alloc: Global, tally: &mut Tally) {
    tally.note(
        rt,
        "nodes come, leave and come back",
        nodes_come_and_go(alloc),
    );
    tally.note(
        rt,
        "nodes leave for another cell",
        nodes_leave_for_another_cell(alloc),
    );
    for (name, edges, ids) in &BOXES {
        tally.note(rt, name, lists(alloc, *edges, ids));
    }
}
