//! Whether the nodes of each cell are those that lie there on the plain map, and those that ever lay
//! there.
use osm_base::{Box7, Coord, Key, Kind, Memory};
use osm_element::{Elements, Version};
use osm_world::World;
use std::alloc::Global;
use tile_grid::Cell;

/// The length of a cell's edge, in units of 1e-7 degrees, and the edges of the globe.
const EDGE: i64 = 100_000;

const NORTH: i64 = 900_000_000;

const EAST: i64 = 1_800_000_000;

/// A cell with a node that lies or lay in it.
#[derive(Clone, Copy, PartialEq, Eq, PartialOrd, Ord)]
struct Lying {
    row: u32,
    column: u32,
    id: u64,
}

fn place_of(at: Coord, id: u64) -> Lying {
    let cell = Cell::of(at);
    Lying {
        row: cell.row,
        column: cell.column,
        id,
    }
}

/// Where the nodes of the plain map lie, and lay.
#[derive(Drop)]
pub struct Cells {
    /// The visible nodes, by id.
    visible: Vec<u64>,
    /// The nodes that were ever visible, by id.
    seen: Vec<u64>,
    /// The visible nodes, by cell and id.
    now: Vec<Lying>,
    /// The nodes once in each cell that they were ever in, by cell and id.
    lain: Vec<Lying>,
    /// Each cell once that a node was ever in, with 0 for its id.
    ever: Vec<Lying>,
}

impl Cells {
    pub fn of(alloc: Global, elements: &Elements) -> Result<Cells, Memory> {
        let mut cells = Cells {
            visible: Vec::new(alloc),
            seen: Vec::new(alloc),
            now: Vec::new(alloc),
            lain: Vec::new(alloc),
            ever: Vec::new(alloc),
        };
        for id in 0..elements.next_id(Kind::Node) {
            cells.note(elements, id)?;
        }
        cells.now.sort_unstable();
        cells.lain.sort_unstable();
        cells.lain.dedup();
        cells.ever.sort_unstable();
        cells.ever.dedup();
        Ok(cells)
    }

    fn note(&mut self, elements: &Elements, id: u64) -> Result<(), Memory> {
        let node = Key {
            kind: Kind::Node,
            id,
        };
        if let Some(at) = elements.position(node) {
            self.now.push(place_of(at, id))?;
            self.visible.push(id)?;
        }
        self.note_versions(id, elements.history(node))
    }

    fn note_versions(&mut self, id: u64, history: &[Version]) -> Result<(), Memory> {
        if !history.is_empty() {
            self.seen.push(id)?;
        }
        for version in history {
            if let Some(at) = version.position() {
                self.lain.push(place_of(at, id))?;
                self.ever.push(place_of(at, 0))?;
            }
        }
        Ok(())
    }

    /// How many cells a node was ever in.
    pub fn len(&self) -> usize {
        self.ever.len()
    }

    /// The box of four quarters of cells round the upper right corner of the cell at a place.
    pub fn corner_of(&self, place: usize) -> Option<Box7> {
        let cell = self.ever.get(place)?;
        box_from(*cell, EDGE / 2)
    }
}

/// The nodes of each cell that a node was ever in, and those of the whole globe, of now and of ever.
pub fn are_cells_same(alloc: Global, cells: &Cells, world: &World) -> Result<bool, Memory> {
    Ok(is_globe_same(alloc, cells, world)? && is_each_cell_same(alloc, cells, world)?)
}

fn is_globe_same(alloc: Global, cells: &Cells, world: &World) -> Result<bool, Memory> {
    match Box7::new(-1_800_000_000, -900_000_000, 1_800_000_000, 900_000_000) {
        Ok(globe) => {
            let ids = world.grid().rows_of(alloc, &globe)?;
            let seen = world.grid().rows_ever_of(alloc, &globe)?;
            Ok(
                ids.as_slice() == cells.visible.as_slice()
                    && seen.as_slice() == cells.seen.as_slice(),
            )
        }
        Err(_) => Ok(false),
    }
}

fn is_each_cell_same(alloc: Global, cells: &Cells, world: &World) -> Result<bool, Memory> {
    let mut place = 0;
    let mut place_ever = 0;
    for cell in &cells.ever {
        let Some(within) = box_from(*cell, 0) else {
            return Ok(false);
        };
        let ids = world.grid().rows_of(alloc, &within)?;
        let lain = world.grid().rows_ever_of(alloc, &within)?;
        if !are_here(&cells.now, place, *cell, ids.as_slice())
            || !are_here(&cells.lain, place_ever, *cell, lain.as_slice())
        {
            return Ok(false);
        }
        place = ids.len().saturating_add(place);
        place_ever = lain.len().saturating_add(place_ever);
    }
    Ok(place == cells.now.len() && place_ever == cells.lain.len())
}

/// Whether the nodes from a place on are these, in that cell.
fn are_here(now: &[Lying], place: usize, cell: Lying, ids: &[u64]) -> bool {
    if place.saturating_add(ids.len()) > now.len() {
        return false;
    }
    for (due, id) in now.iter().skip(place).zip(ids.iter()) {
        if *due != (Lying { id: *id, ..cell }) {
            return false;
        }
    }
    true
}

/// The box of a cell's size that begins so far above and beside its lower left corner.
fn box_from(cell: Lying, offset: i64) -> Option<Box7> {
    let bottom = (i64::from(cell.row) * EDGE - NORTH).saturating_add(offset);
    let left = (i64::from(cell.column) * EDGE - EAST).saturating_add(offset);
    Box7::new(
        i32::try_from(left.min(EAST)).ok()?,
        i32::try_from(bottom.min(NORTH)).ok()?,
        i32::try_from(left.saturating_add(EDGE - 1).min(EAST)).ok()?,
        i32::try_from(bottom.saturating_add(EDGE - 1).min(NORTH)).ok()?,
    )
    .ok()
}
