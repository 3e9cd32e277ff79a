//! Whether the changesets and the redactions of both maps are the same.
use crate::histories::are_tags_same;
use crate::same::{Same, are_same};
use changeset_core::{Changeset, ChangesetRecord, Work};
use osm_base::{Memory, Text};
use std::alloc::Global;

pub fn are_changesets_same(
    alloc: Global,
    plain: &[ChangesetRecord],
    came: &[Changeset],
) -> Result<bool, Memory> {
    Ok(are_same(plain, came) && are_in_order(came) && are_works_same(alloc, plain, came)?)
}

/// Whether each made the versions that its other made.
fn are_works_same(
    alloc: Global,
    plain: &[ChangesetRecord],
    came: &[Changeset],
) -> Result<bool, Memory> {
    for (one, other) in plain.iter().zip(came.iter()) {
        let did = other.did(alloc)?;
        if !are_same(one.did.items(), did.as_slice()) {
            return Ok(false);
        }
    }
    Ok(true)
}

fn are_in_order(came: &[Changeset]) -> bool {
    for (place, changeset) in came.iter().enumerate() {
        if changeset.id() != place as u64 + 1 {
            return false;
        }
    }
    true
}

impl Same<Changeset> for ChangesetRecord {
    fn is_same(&self, other: &Changeset) -> bool {
        self.owner.id == other.owner().id
            && self.owner.name.as_str() == other.owner().name.as_str()
            && are_tags_same(&self.tags.list(), &other.tags().list())
            && self.created == other.created()
            && self.limit == other.limit()
            && self.touched == other.touched()
            && self.closed_at(other.closes()) == Some(other.closes())
            && other.count() == self.did.items().len() as u64
    }
}

impl Same<Work> for Work {
    fn is_same(&self, other: &Work) -> bool {
        self.key.is(other.key) && self.version == other.version
    }
}

/// A title of a redaction.
impl Same<Text> for Text {
    fn is_same(&self, other: &Text) -> bool {
        self.as_str() == other.as_str()
    }
}
