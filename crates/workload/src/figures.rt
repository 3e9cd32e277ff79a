//! The numbers of a journal and of the map that it makes.
ghost use Rattle.std.specs.Prelude.{◌≡◌};
ghost use Rattle.osm_element.specs.Elements.{is_visible};
ghost use Rattle.workload.specs.Figures.{visible_count, figures_of};

use history_store::Store;
use osm_base::{Coord, Key, Kind};

/// The numbers of a journal and of its map. Elements count where they are visible.
#[derive(Clone, Copy)]
pub struct Figures {
    pub entries: u64,
    pub nodes: u64,
    pub ways: u64,
    pub relations: u64,
    /// Where node 1 stands, if it is visible.
    pub first: Option<Coord>,
}

/// What a load was, and how it was answered.
#[derive(Clone, Copy)]
pub struct Run {
    pub seed: u64,
    pub sessions: u32,
    pub uploads: u32,
    pub replies: u64,
    /// The replies whose status isn't 200.
    pub refused: u64,
}

/// The figures of the elements that so many entries made. It looks at every element once.
pub fn figures_of(store: &Store, entries: u64) -> Figures
    ensures { result ≡ figures_of store.now.elements entries }
{
    let first_node = Key {
        kind: Kind::Node,
        id: 1,
    };
    Figures {
        entries,
        nodes: visible_count(store, Kind::Node),
        ways: visible_count(store, Kind::Way),
        relations: visible_count(store, Kind::Relation),
        first: store.place_of(first_node),
    }
}

fn visible_count(store: &Store, kind: Kind) -> u64
    ensures { result ≡ visible_count store.now.elements kind }
{
    let mut count = 0u64;
    for place in 0..store.next_id(kind) - 1 {
        let key = Key {
            kind,
            id: place + 1,
        };
        if is_visible(store, key) {
            count += 1;
        }
    }
    count
}

fn is_visible(store: &Store, key: Key) -> bool
    ensures { result ≡ is_visible store.now.elements key }
{
    match store.current(key) {
        Some(version) => version.content().is_some(),
        None => false,
    }
}
