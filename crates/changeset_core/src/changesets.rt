//! A changeset with promised room for its work.
//!
//! A changeset's moments are bounded by the type of the one with room; the plain record says it as
//! a condition of `closes`, and the model proves it of every map that entries make.
ghost use Rattle.std.specs.Prelude.{◌≡◌, ◌+◌, ◌-◌, ◌<◌, ◌≤◌, ◌^◌, ◌∷◌, [], ◌++◌, length, Some, None, true, is_ok, IfOk, if◌then◌else◌};
ghost use Rattle.osm_base.specs.declared.limits.TheConstants.{MOMENT_LIMIT};
ghost use Rattle.changeset_core.specs.Changeset.{closes, first_record, is_open, limit_of, retagged, ended_at, widen, join_areas};
ghost use Rattle.changeset_core.specs.Timely.{IsTimelyMoment, IsTimelyRecord};

use crate::areas::{join_boxes, widened};
use crate::lives::closes;
use crate::records::Work;
use crate::works::Works;
use osm_base::{Box7, Coord, Key, Memory, Owner, Stamp};
use osm_element::Tags;
use std::alloc::Global;
use std::marker::Model;

/// A changeset whose work needs no memory where `room` promised it. Contracts see its id, its
/// record and how many more changes have room.
#[derive(Drop)]
pub struct Changeset {
    id: u64,
    owner: Owner,
    tags: Tags,
    created: Stamp,
    activity: Stamp,
    ended: Option<Stamp>,
    limit: u64,
    touched: Option<Box7>,
    did: Works,
}

impl Model for Changeset {
    ghost use Rattle.std.specs.Option.{ForSome};
    ghost use Rattle.changeset_core.specs.Kept.{Kept};
    ghost use Rattle.changeset_core.specs.Timely.{IsTimelyMoment};

    ghost Value = { Kept };

    ghost view = { λ c. record { id = c.id; kept = record { owner = c.owner; tags = c.tags; created = c.created; activity = c.activity; ended = c.ended; limit = c.limit; touched = c.touched; did = c.did.items }; free = c.did.free } };

    ghost invariant = { λ c. IsTimelyMoment c.created × IsTimelyMoment c.activity × ForSome c.ended IsTimelyMoment };
}

impl Changeset {
    /// A changeset without changes, opened at a stamp. It takes no memory.
    pub fn new(alloc: Global, id: u64, owner: Owner, tags: Tags, at: Stamp, limit: u64) -> Changeset
        requires { IsTimelyMoment at }
        ensures { result ≡ record { id = id; kept = first_record owner tags at limit; free = 0 } }
    {
        Changeset {
            id,
            owner,
            tags,
            created: at,
            activity: at,
            ended: None,
            limit,
            touched: None,
            did: Works::none(alloc),
        }
    }

    /// Changeset 1 is the first.
    pub fn id(&self) -> u64
        ensures { result ≡ self.now.id }
    {
        self.id
    }

    /// The user who opened it, and alone may work on it.
    pub fn owner(&self) -> &Owner
        ensures { result.now ≡ self.now.kept.owner }
    {
        &self.owner
    }

    /// The tags that it was given last.
    pub fn tags(&self) -> &Tags
        ensures { result.now ≡ self.now.kept.tags }
    {
        &self.tags
    }

    /// When it was opened.
    pub fn created(&self) -> Stamp
        ensures { result ≡ self.now.kept.created }
    {
        self.created
    }

    /// When it was closed, or else closes if nothing more is done with it.
    pub fn closes(&self) -> Stamp
        ensures value { result ≡ closes self.now.kept }
        ensures bound { result ≤ MOMENT_LIMIT + 86400 }
        ensures timely { IsTimelyRecord self.now.kept }
    {
        closes(self.created, self.activity, self.ended)
    }

    /// Whether it is open at a stamp.
    pub fn open_at(&self, at: Stamp) -> bool
        ensures { result ≡ is_open self.now.kept at }
    {
        at.seconds() < self.closes().seconds()
    }

    /// How many changes it has made.
    pub fn count(&self) -> u64
        ensures counted { result ≡ length self.now.kept.did }
        ensures few { result < 2 ^ 63 }
    {
        self.did.len()
    }

    /// How many changes it may make.
    pub fn limit(&self) -> u64
        ensures { result ≡ limit_of self.now.kept }
    {
        self.limit
    }

    /// The least box of what its changes touched.
    pub fn touched(&self) -> Option<Box7>
        ensures { result ≡ self.now.kept.touched }
    {
        self.touched
    }

    /// The versions that it made, in that order.
    pub fn did(&self, alloc: Global) -> Result<Vec<Work>, Memory>
        ensures { IfOk result (λ did. did.items ≡ self.now.kept.did) }
    {
        self.did.to_vec(alloc)
    }

    /// Gives it other tags, which is activity. It takes no memory.
    pub fn retag(&mut self, tags: Tags, at: Stamp)
        requires is_open { is_open self.old.kept at ≡ true }
        requires bounded { IsTimelyMoment at }
        ensures { self.new ≡ record self.old { kept = retagged self.old.kept tags at } }
    {
        self.tags = tags;
        self.active(at);
    }

    /// Closes it. It takes no memory.
    pub fn close(&mut self, at: Stamp)
        requires is_open { is_open self.old.kept at ≡ true }
        requires bounded { IsTimelyMoment at }
        ensures { self.new ≡ record self.old { kept = ended_at self.old.kept at } }
    {
        self.ended = Some(at);
    }

    /// Promises room for some more changes.
    pub fn room(&mut self, more: u64) -> Result<(), Memory>
        ensures { self.new ≡ record self.old { free = self.old.free + (if is_ok result then more else 0) } }
    {
        self.did.promise(more as usize)
    }

    /// Takes every promise of room back.
    pub fn forget(&mut self)
        ensures { self.new ≡ record self.old { free = 0 } }
    {
        self.did.forget();
    }

    /// Enters a version that it made, which counts as one change. It takes no memory.
    pub fn worked(&mut self, key: Key, version: u64)
        requires { 0 < self.old.free }
        ensures { self.new ≡ record self.old {
          kept = record self.old.kept {
            did = self.old.kept.did
                ++ record { key = key; version = version } ∷ [];
          };
          free = self.old.free - 1;
        } }
    {
        self.did.push(Work { key, version });
    }

    /// Takes a position into the box of what its changes touched.
    pub fn widen(&mut self, at: Coord)
        ensures { self.new ≡ record self.old { kept = record self.old.kept { touched = widen self.old.kept.touched at } } }
    {
        self.touched = widened(self.touched, at);
    }

    /// Takes a box into the box of what its changes touched.
    pub fn join(&mut self, area: Option<Box7>)
        ensures { self.new ≡ record self.old { kept = record self.old.kept { touched = join_areas self.old.kept.touched area } } }
    {
        self.touched = join_boxes(self.touched, area);
    }

    /// Notes activity at a stamp.
    pub fn active(&mut self, at: Stamp)
        requires { IsTimelyMoment at }
        ensures { self.new ≡ record self.old { kept = record self.old.kept { activity = at } } }
    {
        self.activity = at;
    }
}
