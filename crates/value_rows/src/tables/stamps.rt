//! The parameter `at` of the routes that have one.
use osm_base::Memory;
use route_table::{Call, RouteFault, Routes};
use row_lines::Tally;
use std::alloc::Global;

/// What a request line must come to: a read with this stamp, or the refusal of the parameter with
/// this name.
#[derive(Clone, Copy)]
enum Wanted {
    At(u64),
    Now,
    Bad(&'static str),
}

/// Targets, each with what a GET of it must come to.
const TARGETS: [(&str, Wanted); 20] = [
    ("/api/0.6/node/1", Wanted::Now),
    ("/api/0.6/node/1?at=1700000015", Wanted::At(1_700_000_015)),
    ("/api/0.6/way/1.json?%61t=%33", Wanted::At(3)),
    ("/api/0.6/relation/1?x=y&at=007&at=x", Wanted::At(7)),
    (
        "/api/0.6/node/1?at=9223372036854775807",
        Wanted::At(9_223_372_036_854_775_807),
    ),
    ("/api/0.6/node/1?at=9223372036854775808", Wanted::Bad("at")),
    ("/api/0.6/node/1?at=x", Wanted::Bad("at")),
    ("/api/0.6/way/1?at=0", Wanted::Bad("at")),
    ("/api/0.6/relation/1?at=", Wanted::Bad("at")),
    ("/api/0.6/node/1?at", Wanted::Bad("at")),
    ("/api/0.6/node/1?At=x", Wanted::Now),
    ("/api/0.6/way/1/full", Wanted::Now),
    ("/api/0.6/way/1/full?at=5", Wanted::At(5)),
    ("/api/0.6/relation/1/full?at=-1", Wanted::Bad("at")),
    ("/api/0.6/map?bbox=1,2,3,4", Wanted::Now),
    ("/api/0.6/map?bbox=1,2,3,4&at=6", Wanted::At(6)),
    ("/api/0.6/map?at=6&bbox=1,2,3,4", Wanted::At(6)),
    ("/api/0.6/map?at=0&bbox=1,2,3,4", Wanted::Bad("at")),
    ("/api/0.6/map?at=x&bbox=1,2,3", Wanted::Bad("bbox")),
    ("/api/0.6/map?at=6", Wanted::Bad("bbox")),
];

/// The stamp of a read that may have one.
fn is_at(call: Call, wanted: Option<u64>) -> bool {
    match call {
        Call::One { key: _, at } => at == wanted,
        Call::Full { key: _, at } => at == wanted,
        Call::Map { within: _, at } => at == wanted,
        _ => false,
    }
}

fn gives(alloc: Global, target: &str, wanted: Wanted) -> Result<bool, Memory> {
    let routes = Routes::new(alloc)?;
    let told = routes.route(alloc, b"GET", target.as_bytes());
    Ok(match (told, wanted) {
        (Ok(call), Wanted::At(at)) => is_at(call, Some(at)),
        (Ok(call), Wanted::Now) => is_at(call, None),
        (Err(RouteFault::BadParameter { name }), Wanted::Bad(wanted)) => name.as_str() == wanted,
        _ => false,
    })
}

/// A parameter of one method is none of the others.
fn is_of_one_method(alloc: Global) -> Result<bool, Memory> {
    let routes = Routes::new(alloc)?;
    let put = routes.route(alloc, b"PUT", b"/api/0.6/node/1?at=x");
    let deleted = routes.route(alloc, b"DELETE", b"/api/0.6/way/1?at=x");
    Ok(match (put, deleted) {
        (Ok(Call::ModifySingle { key: _ }), Ok(Call::DeleteSingle { key: _ })) => true,
        _ => false,
    })
}

pub fn play<R: Print>(rt: &R, alloc: Global, tally: &mut Tally) {
    for (target, wanted) in &TARGETS {
        tally.note(rt, target, gives(alloc, target, *wanted));
    }
    tally.note(rt, "a change has no parameter at", is_of_one_method(alloc));
}
