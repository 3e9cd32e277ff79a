//! What a caller may ask to see.
use osm_base::{Box7, Ids, Key, Kind};

/// What a caller asks to see (OpenStreetMap wiki, API v0.6). Ids, versions and numbers count from 1.
#[derive(Drop)]
pub enum Query {
    Changeset {
        id: u64,
    },
    /// The newest first, at most `QUERY_LIMIT` of those that pass each filter that is named.
    /// `user` is an owner's id; `within` passes a changeset whose box meets it, edges included.
    Changesets {
        user: Option<u64>,
        only_open: bool,
        only_closed: bool,
        within: Option<Box7>,
    },
    /// The versions that a changeset made.
    Download {
        id: u64,
    },
    Map {
        within: Box7,
    },
    One {
        key: Key,
    },
    /// One version. `show` asks for what only a moderator sees.
    Numbered {
        key: Key,
        version: u64,
        show: bool,
    },
    /// All versions. `show` asks for what only a moderator sees.
    History {
        key: Key,
        show: bool,
    },
    Many {
        kind: Kind,
        ids: Ids,
    },
    /// An element with what it lists, and with the nodes of the ways that it lists.
    Full {
        key: Key,
    },
    /// An element as it was at a stamp, in seconds since 1970: the last of the versions with no later
    /// one. A mark of now hides it from everybody.
    OneAt {
        key: Key,
        at: u64,
    },
    /// `Full`, of the elements as they were at a stamp.
    FullAt {
        key: Key,
        at: u64,
    },
    /// `Map`, of the elements as they were at a stamp.
    MapAt {
        within: Box7,
        at: u64,
    },
    /// The ways that list a node.
    WaysOf {
        id: u64,
    },
    /// The relations that list an element.
    RelationsOf {
        key: Key,
    },
}
