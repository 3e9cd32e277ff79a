//! The parameters of targets.
use osm_base::Memory;
use route_table::parameter;
use row_lines::Tally;
use std::alloc::Global;

/// Targets, and the value of `closed` in each.
const TARGETS: [(&str, &str, Option<&str>); 2] = [
    (
        "the first part of a name counts, decoded",
        "/api/0.6/notes?closed=%74rue&closed=x",
        Some("true"),
    ),
    ("a target without a query has none", "/api/0.6/notes", None),
];

fn gives(alloc: Global, target: &str, wanted: Option<&str>) -> Result<bool, Memory> {
    let found = parameter(alloc, target.as_bytes(), b"closed")?;
    match (found, wanted) {
        (Some(value), Some(text)) => Ok(value.as_slice() == text.as_bytes()),
        (None, None) => Ok(true),
        _ => Ok(false),
    }
}

pub fn play<R: Print>(rt: &R, alloc: Global, tally: &mut Tally) {
    for (name, target, wanted) in &TARGETS {
        tally.note(rt, name, gives(alloc, target, *wanted));
    }
}
