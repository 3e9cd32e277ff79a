//! Why a request is refused.
use osm_base::{Kind, Stamp, Text};
use osm_element::LocalFault;

/// An element as a client names it: by its id, or by the placeholder under which the same upload
/// created it.
#[derive(Clone, Copy)]
pub enum Said {
    Id(u64),
    Placeholder(i64),
}

/// Why a request is refused. `op` counts the operations of an upload or a single change from 1; it
/// is 0 for the document itself, and missing in reads and redactions.
#[derive(Drop)]
pub enum Refusal {
    /// The head isn't one of HTTP/1.0 or HTTP/1.1 with at most 64 fields.
    BadHead,
    HeadLong,
    /// The body has a transfer coding.
    Coded,
    BadLength,
    BodyLong,
    NoPath,
    WrongMethod,
    /// The body is XML.
    Xml,
    NoUser,
    BadNumber,
    BadParameter {
        name: Text,
    },
    Role,
    NotJson,
    Shape {
        op: Option<u32>,
    },
    NotNegative {
        op: Option<u32>,
    },
    DoublePlaceholder {
        op: Option<u32>,
    },
    UnknownPlaceholder {
        op: Option<u32>,
    },
    NoVersion {
        op: Option<u32>,
    },
    Local {
        fault: LocalFault,
        op: Option<u32>,
    },
    OtherChangeset {
        named: u64,
        op: Option<u32>,
    },
    NoChangeset {
        id: u64,
    },
    /// `owner` is the id of the changeset's owner.
    NotOwner {
        changeset: u64,
        owner: u64,
    },
    Closed {
        changeset: u64,
        closed_at: Stamp,
    },
    /// `count` is that before the upload.
    Full {
        applied: u64,
        changeset: u64,
        count: u64,
        limit: u64,
    },
    /// The upload would widen the changeset's box to `area`, past the caller's limit. Both are in square
    /// units of 1e-7 degrees.
    BoxTooLarge {
        area: u64,
        changeset: u64,
        limit: u64,
    },
    NoElement {
        id: Said,
        op: Option<u32>,
        kind: Kind,
    },
    NoSuchVersion {
        id: Said,
        kind: Kind,
        version: u64,
    },
    WrongVersion {
        found: u64,
        id: Said,
        op: Option<u32>,
        provided: u64,
        kind: Kind,
    },
    /// `version` is the current one.
    Gone {
        id: Said,
        op: Option<u32>,
        kind: Kind,
        version: u64,
    },
    /// The missing reference; version 0 where it has no history.
    Missing {
        id: Said,
        op: Option<u32>,
        kind: Kind,
        version: u64,
    },
    /// The element and its least user by the order of keys.
    Used {
        id: Said,
        op: Option<u32>,
        kind: Kind,
        user_id: Said,
        user_kind: Kind,
        user_version: u64,
    },
    Redacted {
        id: Said,
        redaction: u64,
        kind: Kind,
        version: u64,
    },
    NoRedaction {
        id: u64,
    },
    RedactCurrent {
        id: Said,
        kind: Kind,
        version: u64,
    },
    MapArea {
        area: u64,
        limit: u64,
    },
    MapNodes {
        limit: u64,
        nodes: u64,
    },
    /// `last` is the number of the feed's last piece, and 0 where it has none.
    NoPiece {
        last: u64,
        number: u64,
    },
}
