//! The paths of the routes.
ghost use Rattle.std.specs.Prelude.{◌≡◌, map};
ghost use Rattle.route_table.specs.Paths.{paths};

use osm_base::Kind;

/// What a path of the API is a path of.
#[derive(Clone, Copy)]
pub enum Resource {
    NewChangeset,
    Changeset,
    ChangesetClosing,
    ChangesetUpload,
    ChangesetDownload,
    Changesets,
    Map,
    Redactions,
    NewElement(Kind),
    Element(Kind),
    History(Kind),
    Version(Kind),
    VersionRedaction(Kind),
    Relations(Kind),
    NodeWays,
    Full(Kind),
    Elements(Kind),
    FeedState,
    FeedPiece,
}

/// Each path with what it is a path of. A braced part stands for one byte or more without `/`.
const PATHS: [(&str, Resource); 34] = [
    ("/api/0.6/changeset/create", Resource::NewChangeset),
    ("/api/0.6/changeset/{id}", Resource::Changeset),
    ("/api/0.6/changeset/{id}/close", Resource::ChangesetClosing),
    ("/api/0.6/changeset/{id}/upload", Resource::ChangesetUpload),
    (
        "/api/0.6/changeset/{id}/download",
        Resource::ChangesetDownload,
    ),
    ("/api/0.6/changesets", Resource::Changesets),
    ("/api/0.6/map", Resource::Map),
    ("/api/0.6/redactions", Resource::Redactions),
    ("/api/0.6/node/create", Resource::NewElement(Kind::Node)),
    ("/api/0.6/node/{id}", Resource::Element(Kind::Node)),
    ("/api/0.6/node/{id}/history", Resource::History(Kind::Node)),
    (
        "/api/0.6/node/{id}/{version}",
        Resource::Version(Kind::Node),
    ),
    (
        "/api/0.6/node/{id}/{version}/redact",
        Resource::VersionRedaction(Kind::Node),
    ),
    (
        "/api/0.6/node/{id}/relations",
        Resource::Relations(Kind::Node),
    ),
    ("/api/0.6/way/create", Resource::NewElement(Kind::Way)),
    ("/api/0.6/way/{id}", Resource::Element(Kind::Way)),
    ("/api/0.6/way/{id}/history", Resource::History(Kind::Way)),
    ("/api/0.6/way/{id}/{version}", Resource::Version(Kind::Way)),
    (
        "/api/0.6/way/{id}/{version}/redact",
        Resource::VersionRedaction(Kind::Way),
    ),
    (
        "/api/0.6/way/{id}/relations",
        Resource::Relations(Kind::Way),
    ),
    (
        "/api/0.6/relation/create",
        Resource::NewElement(Kind::Relation),
    ),
    ("/api/0.6/relation/{id}", Resource::Element(Kind::Relation)),
    (
        "/api/0.6/relation/{id}/history",
        Resource::History(Kind::Relation),
    ),
    (
        "/api/0.6/relation/{id}/{version}",
        Resource::Version(Kind::Relation),
    ),
    (
        "/api/0.6/relation/{id}/{version}/redact",
        Resource::VersionRedaction(Kind::Relation),
    ),
    (
        "/api/0.6/relation/{id}/relations",
        Resource::Relations(Kind::Relation),
    ),
    ("/api/0.6/node/{id}/ways", Resource::NodeWays),
    ("/api/0.6/way/{id}/full", Resource::Full(Kind::Way)),
    (
        "/api/0.6/relation/{id}/full",
        Resource::Full(Kind::Relation),
    ),
    ("/api/0.6/nodes", Resource::Elements(Kind::Node)),
    ("/api/0.6/ways", Resource::Elements(Kind::Way)),
    ("/api/0.6/relations", Resource::Elements(Kind::Relation)),
    ("/api/0.6/replication/state", Resource::FeedState),
    ("/api/0.6/replication/{id}", Resource::FeedPiece),
];

/// Each path of the table with its resource.
pub fn paths() -> &'static [(&'static str, Resource)]
    ensures { map (λ row. (row.0.now, row.1)) result.now ≡ paths }
{
    &PATHS
}
