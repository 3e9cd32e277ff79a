//! A changeset as a plain record, and what it did.
//!
//! The count of a changeset is the length of what it did. Keeping both would be one fact twice.
use crate::areas::join_boxes;
use crate::lives::{closed_at, closes};
use osm_base::{Box7, Items, Key, Memory, Owner, Stamp};
use osm_element::Tags;
use std::alloc::Global;

/// A version that a changeset made.
#[derive(Clone, Copy)]
pub struct Work {
    pub key: Key,
    pub version: u64,
}

/// What is known of a changeset (OpenStreetMap wiki, "Changesets"). It has made the versions of
/// `did`, in that order, at most `limit` of them, and `touched` is the least box of what they touched.
#[derive(Drop)]
pub struct ChangesetRecord {
    pub owner: Owner,
    pub tags: Tags,
    pub created: Stamp,
    pub activity: Stamp,
    pub ended: Option<Stamp>,
    pub limit: u64,
    pub touched: Option<Box7>,
    pub did: Items<Work>,
}

impl ChangesetRecord {
    ghost use Rattle.std.specs.Prelude.{◌≡◌, ◌≤◌, ◌+◌, length, OnOk, OnErr};
    ghost use Rattle.osm_base.specs.declared.limits.TheConstants.{MOMENT_LIMIT};
    ghost use Rattle.changeset_core.specs.Changeset.{closes, closed_at, first_record, is_open, limit_of, worked_by};
    ghost use Rattle.changeset_core.specs.Timely.{IsTimelyRecord};

    /// The record of a changeset that is opened at a stamp. It takes no memory.
    pub fn new(alloc: Global, owner: Owner, tags: Tags, at: Stamp, limit: u64) -> ChangesetRecord
        ensures { result ≡ first_record owner tags at limit }
    {
        ChangesetRecord {
            owner,
            tags,
            created: at,
            activity: at,
            ended: None,
            limit,
            touched: None,
            did: Items::none(alloc),
        }
    }

    /// When it was closed, or else closes if nothing more is done with it.
    pub fn closes(&self) -> Stamp
        requires timely { IsTimelyRecord self.now }
        ensures value { result ≡ closes self.now }
        ensures bound { result ≤ MOMENT_LIMIT + 86400 }
    {
        closes(self.created, self.activity, self.ended)
    }

    /// Whether it is open at a stamp. It isn't any more when it closes.
    pub fn is_open(&self, at: Stamp) -> bool
        ensures { result ≡ is_open self.now at }
    {
        self.closed_at(at).is_none()
    }

    /// When it closed, `None` where it is open at the stamp.
    pub fn closed_at(&self, at: Stamp) -> Option<Stamp>
        ensures { result ≡ closed_at self.now at }
    {
        closed_at(self.created, self.activity, self.ended, at)
    }

    /// How many changes it has made.
    pub fn count(&self) -> u64
        ensures { result ≡ length self.now.did }
    {
        self.did.len() as u64
    }

    /// How many changes it may make.
    pub fn limit(&self) -> u64
        ensures { result ≡ limit_of self.now }
    {
        self.limit
    }

    /// Enters the versions that an upload made at a stamp, and the box of what it touched. Work is
    /// activity, an upload that made no version is none.
    pub fn work(&mut self, works: &[Work], area: Option<Box7>, at: Stamp) -> Result<(), Memory>
        ensures ok { OnOk result (self.new ≡ worked_by self.old works.now area at) }
        ensures err { OnErr result (self.new ≡ self.old) }
    {
        self.did.extend(works)?;
        if !works.is_empty() {
            self.activity = at;
        }
        self.touched = join_boxes(self.touched, area);
        Ok(())
    }
}
