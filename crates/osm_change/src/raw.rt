//! Operations as a body gives them.
use osm_base::Kind;
use osm_element::{RawContent, Tags};

/// What an operation does (OpenStreetMap wiki, "OsmChange").
#[derive(Clone, Copy)]
pub enum Action {
    Create,
    Modify,
    Delete { if_unused: bool },
}

/// An operation as a body gives it, before its placeholders are resolved.
#[derive(Drop)]
pub struct RawOp {
    pub action: Action,
    pub kind: Kind,
    pub id: i64,
    pub version: Option<u64>,
    pub changeset: Option<u64>,
    pub content: Option<RawContent>,
    pub tags: Tags,
}
