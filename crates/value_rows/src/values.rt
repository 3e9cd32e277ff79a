//! Values that changes are made of: positions, boxes, stamps and tags.
use crate::labels::labels;
use osm_base::{Box7, Coord, Memory, Stamp};
use row_lines::Tally;
use std::alloc::Global;

/// Latitudes and longitudes, and whether they are a position.
const POSITIONS: [(i32, i32, bool); 6] = [
    (900_000_000, 1_800_000_000, true),
    (-900_000_000, -1_800_000_000, true),
    (900_000_001, 0, false),
    (-900_000_001, 0, false),
    (0, 1_800_000_001, false),
    (0, -1_800_000_001, false),
];

/// Left, bottom, right and top edges, and the area of their box, if they are a box.
const AREAS: [([i32; 4], Option<u64>); 3] = [
    (
        [110_000_000, 480_000_000, 115_000_000, 485_000_000],
        Some(25_000_000_000_000),
    ),
    (
        [110_000_000, 480_000_000, 115_000_001, 485_000_000],
        Some(25_000_005_000_000),
    ),
    ([20_000_000, 0, 10_000_000, 0], None),
];

fn area_of(edges: [i32; 4]) -> Option<u64> {
    let [left, bottom, right, top] = edges;
    match Box7::new(left, bottom, right, top) {
        Ok(made) => Some(made.area()),
        Err(_) => None,
    }
}

/// Moments after the stamp 5, and the stamp that each gives.
const STAMPS: [(u64, u64); 3] = [
    (3, 5),
    (7, 7),
    (18_446_744_073_709_551_615, 253_000_000_000),
];

/// Two tags in their order, and whether they may be.
const TAGS: [([(&str, &str); 2], bool); 3] = [
    ([("a", "x"), ("b", "x")], true),
    ([("b", "x"), ("a", "x")], false),
    ([("a", "x"), ("a", "x")], false),
];

/// Whether these tags are given just where they may be.
fn are_given(alloc: Global, pairs: &[(&str, &str)], may_be: bool) -> Result<bool, Memory> {
    let tags = labels(alloc, pairs)?;
    Ok(tags.is_some() == may_be)
}

fn play_positions<R: Print>(rt: &R, tally: &mut Tally) {
    for (lat7, lon7, is_some) in &POSITIONS {
        let is_position = Coord::new(*lat7, *lon7).is_some();
        tally.note(rt, "positions", Ok(is_position == *is_some));
    }
}

fn play_areas<R: Print>(rt: &R, tally: &mut Tally) {
    for (edges, area) in &AREAS {
        tally.note(rt, "areas", Ok(area_of(*edges) == *area));
    }
}

fn play_stamps<R: Print>(rt: &R, tally: &mut Tally) {
    for (moment, seconds) in &STAMPS {
        let stamp = Stamp::after(Stamp(5), *moment);
        tally.note(rt, "stamps", Ok(stamp == Stamp(*seconds)));
    }
}

fn play_tags<R: Print>(rt: &R, alloc: Global, tally: &mut Tally) {
    for (pairs, may_be) in &TAGS {
        tally.note(rt, "keys of tags rise", are_given(alloc, pairs, *may_be));
    }
}

pub fn play<R: Print>(rt: &R, alloc: Global, tally: &mut Tally) {
    play_positions(rt, tally);
    play_areas(rt, tally);
    play_stamps(rt, tally);
    play_tags(rt, alloc, tally);
}
