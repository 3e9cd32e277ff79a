//! The map with its indexes: room for an entry, and its application.
//!
//! Whether a user may work on a changeset is asked of the world (`World::own_changeset`), by
//! uploads and by other commands alike.
ghost use Rattle.std.specs.Prelude.{◌≡◌, ◌&&◌, not, true, Some, None, Ok, Err, MatchOption, MatchResult, IfOk, IfErr, OnOk};
ghost use Rattle.osm_base.specs.Key.{lists_key, IsRising};
ghost use Rattle.osm_base.specs.declared.keys.Key.{Key};
ghost use Rattle.osm_element.specs.Elements.{uses, users};
ghost use Rattle.osm_change.specs.Moments.{RefusalHasShownEnd};
ghost use Rattle.changeset_core.specs.Changeset.{is_open};
ghost use Rattle.changeset_core.specs.Timely.{IsTimelyMoment, IsTimelyRecord};
ghost use Rattle.indexed_map.specs.Ever.{has_used, IsPlacedEver};
ghost use Rattle.indexed_map.specs.Placed.{IsPlaced};
ghost use Rattle.osm_model.specs.Journal.{after, takes};
ghost use Rattle.osm_model.specs.State.{empty, changeset, own_changeset};
ghost use Rattle.osm_world.specs.Records.{records, AreNumbered};
ghost use Rattle.osm_world.specs.World.{state_of, HasRoom, HasUploadRoom, HasNothingPromised, IsKept};

use crate::beds::Laid;
use crate::records::forget_work;
use crate::stores::Stores;
use changeset_core::{Changeset, Redactions};
use history_store::Store;
use indexed_map::IndexedMap;
use osm_base::{Key, Memory, Roomy, Stamp, User};
use osm_change::{Op, Refusal};
use osm_element::check_number;
use osm_model::{
    Command, Entry, entries_keep_maps, moments_are_bounded, points_are_consistent,
    versions_are_attributed, versions_are_stamped_in_order,
};
use reverse_refs::UserList;
use std::alloc::Global;
use std::marker::Model;
use tile_grid::Grid;

/// The map with its indexes, and what was laid by for one entry. The changeset `busy` was promised
/// room for work, 0 where none was.
#[derive(Drop)]
pub struct World {
    stores: Stores,
    laid: Laid,
    busy: u64,
}

impl Model for World {
    ghost use Rattle.osm_world.specs.World.{Parts, IsSound};

    ghost Value = { Parts };

    ghost view = { λ w. record { stores = w.stores; laid = w.laid } };

    ghost invariant = { λ w. IsSound w.stores w.busy };
}

impl World {
    /// The map before the first entry. It takes no memory.
    pub fn empty(alloc: Global) -> World
        ensures state { state_of result ≡ empty }
        ensures nothing { HasNothingPromised result }
    {
        moments_are_bounded();
        points_are_consistent();
        versions_are_attributed();
        versions_are_stamped_in_order();
        let map = IndexedMap::new(alloc);
        let stores = Stores {
            map,
            changesets: Roomy::none(alloc),
            redactions: Redactions::new(alloc),
            last: Stamp(0),
        };
        World {
            stores,
            laid: Laid::none(alloc),
            busy: 0,
        }
    }

    /// A law: every world has what every map has that entries make.
    pub fn laws(&self)
        ensures { IsKept (state_of self.now) }
    {
        let _ = &self.stores;
    }

    /// The histories of all elements.
    pub fn store(&self) -> &Store
        ensures { result.now.elements ≡ (state_of self.now).elements }
    {
        self.stores.map.store()
    }

    /// The users of an element, in order.
    pub fn users(&self, key: Key) -> UserList<'_>
        ensures { result ≡ users (state_of self.now).elements key }
    {
        self.stores.map.users(key)
    }

    /// The nodes by their cells: the visible ones where they lie, and all where a version of them lies.
    pub fn grid(&self) -> &Grid
        ensures placed { IsPlaced (state_of self.now).elements result.now }
        ensures ever { IsPlacedEver (state_of self.now).elements result.now }
    {
        self.stores.map.grid()
    }

    /// The elements of which only earlier versions list this one, in order.
    pub fn users_past(&self, key: Key) -> UserList<'_>
        ensures rising { IsRising result }
        ensures each { (user : Key) → lists_key result user
            ≡ has_used (state_of self.now).elements user key && not (uses (state_of self.now).elements user key) }
    {
        self.stores.map.users_past(key)
    }

    /// The changesets, the first one first.
    pub fn changesets(&self) -> &[Changeset]
        ensures all { records result.now ≡ (state_of self.now).changesets }
        ensures numbered { AreNumbered result.now }
    {
        self.stores.changesets.items()
    }

    /// One changeset: `None` where there never was one with this id.
    pub fn changeset(&self, id: u64) -> Option<&Changeset>
        ensures { MatchOption result (changeset (state_of self.now) id ≡ None)
            (λ found. changeset (state_of self.now) id ≡ Some found.now.kept) }
    {
        if id == 0 {
            None
        } else {
            self.stores.changesets.items().get(id as usize - 1)
        }
    }

    /// A changeset that the user may work on at a stamp: its owner is tested before whether it is
    /// open.
    pub fn own_changeset(&self, user: &User, at: Stamp, id: u64) -> Result<&Changeset, Refusal>
        ensures value { MatchResult result (λ found. own_changeset (state_of self.now) user.now at id ≡ Ok found.now.kept)
            (λ refusal. own_changeset (state_of self.now) user.now at id ≡ Err refusal) }
        ensures open { IfOk result (λ found. is_open found.now.kept at ≡ true) }
        ensures timely { IfOk result (λ found. IsTimelyRecord found.now.kept) }
        ensures shown { IfErr result RefusalHasShownEnd }
    {
        let Some(found) = self.changeset(id) else {
            return Err(Refusal::NoChangeset { id });
        };
        if found.owner().id != user.id {
            return Err(Refusal::NotOwner {
                changeset: id,
                owner: found.owner().id,
            });
        }
        let closes = found.closes();
        if at.seconds() < closes.seconds() {
            return Ok(found);
        }
        Err(Refusal::Closed {
            changeset: id,
            closed_at: closes,
        })
    }

    /// The redactions.
    pub fn redactions(&self) -> &Redactions
        ensures { result.now.items ≡ (state_of self.now).redactions }
    {
        &self.stores.redactions
    }

    /// The stamp of the last entry, 0 before the first.
    pub fn last_stamp(&self) -> Stamp
        ensures value { result ≡ (state_of self.now).last }
        ensures timely { IsTimelyMoment result }
    {
        self.stores.last
    }

    /// Does an entry that the rules accept here, on the room that was made for it. What was laid by
    /// for it and isn't used is taken back. It takes no memory.
    pub fn apply(&mut self, alloc: Global, entry: Entry)
        requires accepted { takes (state_of self.old) entry ≡ true }
        requires room { HasRoom self.old entry.command }
        ensures done { state_of self.new ≡ after (state_of self.old) entry }
        ensures nothing { HasNothingPromised self.new }
    {
        entries_keep_maps();
        let Entry {
            user,
            stamp,
            command,
            ..
        } = entry;
        self.stores
            .apply(alloc, &mut self.laid, user, stamp, command);
        self.forget(alloc);
    }

    /// Makes room for an entry. After Ok it can be done without memory where the rules accept it;
    /// an entry that they never accept may be refused here, and one of a changeset or a redaction
    /// with a number from 2^32 on is, since a version has no room for that. `Memory` leaves the map
    /// as it was, and the call may be made again. What an earlier call laid by is dropped.
    pub fn make_room(&mut self, alloc: Global, entry: &Entry) -> Result<(), Memory>
        ensures same { state_of self.new ≡ state_of self.old }
        ensures ok { OnOk result (HasRoom self.new entry.now.command) }
    {
        self.forget(alloc);
        match &entry.command {
            Command::CreateChangeset { .. } => self.stores.changesets.promise_ahead(1),
            Command::Upload { changeset, change } => {
                self.lay_by(alloc, *changeset, change.operations())
            }
            Command::Single { changeset, change } => {
                self.lay_by(alloc, *changeset, change.change().operations())
            }
            Command::MakeRedaction { .. } => self.stores.redactions.room(),
            Command::Redact { redaction, .. } => check_number(*redaction),
            Command::Retag { .. } | Command::CloseChangeset { .. } | Command::Unredact { .. } => {
                Ok(())
            }
        }
    }

    fn lay_by(&mut self, alloc: Global, changeset: u64, operations: &[Op]) -> Result<(), Memory>
        requires { HasNothingPromised self.old }
        ensures same { state_of self.new ≡ state_of self.old }
        ensures ok { OnOk result (HasUploadRoom self.new.stores self.new.laid changeset operations.now) }
    {
        self.busy = changeset;
        self.stores
            .lay_by(alloc, &mut self.laid, changeset, operations)
    }

    /// Drops what was laid by, and takes back what was promised.
    fn forget(&mut self, alloc: Global)
        ensures same { state_of self.new ≡ state_of self.old }
        ensures nothing { HasNothingPromised self.new }
    {
        self.laid = Laid::none(alloc);
        self.stores.map.forget_all();
        forget_work(alloc, &mut self.stores.changesets, self.busy);
        self.busy = 0;
        self.stores.changesets.forget();
        self.stores.redactions.forget();
    }
}
