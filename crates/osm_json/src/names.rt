//! The names of members.
ghost use Rattle.std.specs.Prelude.{◌≡◌};
ghost use Rattle.osm_json.specs.Names.{name_in, part_in, entry_in};

/// A member of an operation.
#[derive(Clone, Copy)]
pub(crate) enum Name {
    Type,
    Id,
    Version,
    Changeset,
    Lat7,
    Lon7,
    Nodes,
    Members,
    Tags,
    Other,
}

pub(crate) fn name_of(key: &str) -> Name
    ensures { result ≡ name_in key.now }
{
    if key == "type" {
        Name::Type
    } else if key == "id" {
        Name::Id
    } else if key == "version" {
        Name::Version
    } else if key == "changeset" {
        Name::Changeset
    } else if key == "lat7" {
        Name::Lat7
    } else if key == "lon7" {
        Name::Lon7
    } else if key == "nodes" {
        Name::Nodes
    } else if key == "members" {
        Name::Members
    } else if key == "tags" {
        Name::Tags
    } else {
        Name::Other
    }
}

/// A member of a relation's member.
#[derive(Clone, Copy)]
pub(crate) enum Part {
    Type,
    Ref,
    Role,
    Other,
}

pub(crate) fn part_of(key: &str) -> Part
    ensures { result ≡ part_in key.now }
{
    if key == "type" {
        Part::Type
    } else if key == "ref" {
        Part::Ref
    } else if key == "role" {
        Part::Role
    } else {
        Part::Other
    }
}

/// A member of a block.
#[derive(Clone, Copy)]
pub(crate) enum Entry {
    Create,
    Modify,
    Delete,
    IfUnused,
    Other,
}

pub(crate) fn entry_of(key: &str) -> Entry
    ensures { result ≡ entry_in key.now }
{
    if key == "create" {
        Entry::Create
    } else if key == "modify" {
        Entry::Modify
    } else if key == "delete" {
        Entry::Delete
    } else if key == "if-unused" {
        Entry::IfUnused
    } else {
        Entry::Other
    }
}
