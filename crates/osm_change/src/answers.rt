//! What a command or a query is answered.
ghost use Rattle.std.specs.Prelude.{◌≡◌};

use crate::refusals::Refusal;
use osm_base::{Box7, Items, Key, Kind, Owner, Stamp};
use osm_element::{TagList, Tags, Version};
use std::marker::Model;

/// What one operation of an upload came to, as the client is told (OpenStreetMap wiki, API v0.6,
/// "Diff upload"). A delete that was applied has neither new id nor new version.
#[derive(Clone, Copy)]
pub struct DiffRow {
    pub kind: Kind,
    pub old_id: i64,
    pub new_id: Option<u64>,
    pub new_version: Option<u64>,
}

/// One row for each operation, in the order of the upload.
pub type DiffRows = Items<DiffRow>;

/// One version of an element, with the owner of its changeset: both are shown where they are kept.
#[derive(Drop)]
pub struct ElementRow<'a> {
    pub key: Key,
    pub number: u64,
    pub version: &'a Version,
    /// Those of the version, wherever they are kept: a copy has them apart.
    pub tags: TagList<'a>,
    pub owner: &'a Owner,
}

impl<'a> Model for ElementRow<'a> {
    ghost use Rattle.osm_change.specs.ElementRows.{ShownVersion};

    ghost Value = { ShownVersion };

    ghost view = { λ r. record { key = r.key; number = r.number; version = record r.version.now { tags = r.tags }; owner = r.owner.now } };
}

impl<'a> ElementRow<'a> {
    /// The row of a version that has its tags itself.
    pub fn of(key: Key, number: u64, version: &'a Version, owner: &'a Owner) -> ElementRow<'a>
        ensures { result ≡ record { key = key; number = number; version = version.now; owner = owner.now } }
    {
        ElementRow {
            key,
            number,
            version,
            tags: version.tags(),
            owner,
        }
    }
}

/// Nodes, then ways, then relations, each by id; a history and a download keep their own order.
pub type ElementRows<'a> = Items<ElementRow<'a>>;

/// A changeset, as the client is told. It is open where `closes` is missing.
#[derive(Drop)]
pub struct ChangesetRow {
    pub count: u64,
    pub closes: Option<Stamp>,
    pub created: Stamp,
    pub id: u64,
    pub touched: Option<Box7>,
    pub tags: Tags,
    pub owner: Owner,
}

/// The newest changeset first.
pub type ChangesetRows = Items<ChangesetRow>;

/// What a call of the server answers. Only elements are borrowed.
#[derive(Drop)]
pub enum Answer<'a> {
    /// A new id, or a new version.
    Number(u64),
    Nothing,
    Diff(DiffRows),
    /// Elements; the map call gives its box as their bounds.
    Elements {
        bounds: Option<Box7>,
        rows: ElementRows<'a>,
    },
    /// The versions that a changeset made.
    Change(ElementRows<'a>),
    Changeset(ChangesetRow),
    Changesets(ChangesetRows),
    Refused(Refusal),
}
