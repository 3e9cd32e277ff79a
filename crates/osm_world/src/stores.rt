//! The stores of the map, and an entry done on them.
ghost use Rattle.std.specs.Prelude.{◌≡◌, ℕ, ◌+◌, ◌≤◌, ◌==◌, false, length, slice_index, nat_lt, if◌then◌else◌, Ok, IsOk, OnOk};
ghost use Rattle.changeset_core.specs.Changeset.{join_areas};
ghost use Rattle.changeset_core.specs.Timely.{IsTimelyMoment};
ghost use Rattle.osm_model.specs.Act.{Effect, judge};
ghost use Rattle.osm_model.specs.Fold.{uploaded};
ghost use Rattle.osm_model.specs.State.{HasChangeset};
ghost use Rattle.osm_model.specs.declared.uploads.Progress.{Progress};
ghost use Rattle.osm_world.specs.Records.{ids, rooms, AreNumbered, HasNoMoreRoom};
ghost use Rattle.osm_world.specs.World.{stored_state, HasRoomFor, HasUploadRoom, Runs};

use crate::beds::Laid;
use crate::plans::lay_all;
use crate::records::{add_changeset, promise_work, set_end, set_tags, vacant};
use crate::uploads::apply_all;
use changeset_core::{Changeset, Redactions};
use indexed_map::IndexedMap;
use osm_base::{Box7, Items, Memory, Roomy, Stamp, User};
use osm_change::Op;
use osm_element::check_number;
use osm_model::Command;
use std::alloc::Global;

/// The map in its stores.
#[derive(Drop)]
pub struct Stores {
    pub map: IndexedMap,
    pub changesets: Roomy<Changeset>,
    pub redactions: Redactions,
    pub last: Stamp,
}

impl Stores {
    /// Does an accepted command at a stamp, which is the last one then. It takes no memory.
    pub fn apply(&mut self, alloc: Global, laid: &mut Laid, user: User, at: Stamp, command: Command)
        requires accepted { IsOk (judge (stored_state self.old) user at command) }
        requires room { HasRoomFor self.old laid.old command }
        requires numbered { AreNumbered self.old.changesets.items }
        requires timely { IsTimelyMoment at }
        ensures done { (done : Effect) → judge (stored_state self.old) user at command ≡ Ok done
            → stored_state self.new ≡ record done.state { last = at } }
        ensures numbered { AreNumbered self.new.changesets.items }
        ensures rooms { HasNoMoreRoom self.old.changesets.items self.new.changesets.items }
    {
        self.carry_out(alloc, laid, user, at, command);
        self.last = at;
    }

    /// The same, the last stamp aside.
    fn carry_out(&mut self, alloc: Global, laid: &mut Laid, user: User, at: Stamp, command: Command)
        requires accepted { IsOk (judge (stored_state self.old) user at command) }
        requires room { HasRoomFor self.old laid.old command }
        requires numbered { AreNumbered self.old.changesets.items }
        requires timely { IsTimelyMoment at }
        ensures done { (done : Effect) → judge (stored_state self.old) user at command ≡ Ok done → stored_state self.new ≡ done.state }
        ensures numbered { AreNumbered self.new.changesets.items }
        ensures rooms { HasNoMoreRoom self.old.changesets.items self.new.changesets.items }
    {
        match command {
            Command::CreateChangeset { tags, large_from } => {
                add_changeset(alloc, &mut self.changesets, user, tags, at, large_from)
            }
            Command::Retag { changeset, tags } => {
                set_tags(alloc, &mut self.changesets, changeset, tags, at)
            }
            Command::CloseChangeset { changeset } => {
                set_end(alloc, &mut self.changesets, changeset, at)
            }
            Command::Upload { changeset, change } => {
                let operations = change.into_operations();
                self.upload(alloc, laid, changeset, at, operations)
            }
            Command::Single { changeset, change } => {
                let operations = change.into_change().into_operations();
                self.upload(alloc, laid, changeset, at, operations)
            }
            Command::MakeRedaction { title } => {
                self.redactions.make(title);
            }
            Command::Redact {
                key,
                version,
                redaction,
            } => self.map.mark(alloc, key, version, Some(redaction)),
            Command::Unredact { key, version } => self.map.mark(alloc, key, version, None),
        }
    }

    /// Promises room for the work of an upload, and lays by what its operations need.
    pub fn lay_by(
        &mut self,
        alloc: Global,
        laid: &mut Laid,
        changeset: u64,
        operations: &[Op],
    ) -> Result<(), Memory>
        ensures same { stored_state self.new ≡ stored_state self.old }
        ensures ok { OnOk result (HasUploadRoom self.new laid.new changeset operations.now) }
        ensures ids { ids self.new.changesets.items ≡ ids self.old.changesets.items }
        ensures others { (i : ℕ) → (i + 1 == changeset) ≡ false → slice_index (rooms self.new.changesets.items) i
            ≤ slice_index (rooms self.old.changesets.items) i }
    {
        check_number(changeset)?;
        promise_work(alloc, &mut self.changesets, changeset, operations.len())?;
        *laid = lay_all(alloc, &mut self.map, operations)?;
        Ok(())
    }

    /// Does an accepted upload.
    fn upload(&mut self, alloc: Global, laid: &mut Laid, id: u64, at: Stamp, operations: Items<Op>)
        requires accepted { (final : Progress) × Runs self.old.map.elements id at operations final }
        requires known { HasChangeset (stored_state self.old) id }
        requires room { HasUploadRoom self.old laid.old id operations }
        requires numbered { AreNumbered self.old.changesets.items }
        requires timely { IsTimelyMoment at }
        ensures done { (final : Progress) → Runs self.old.map.elements id at operations final
            → stored_state self.new ≡ uploaded (stored_state self.old) at id final }
        ensures numbered { AreNumbered self.new.changesets.items }
        ensures rooms { HasNoMoreRoom self.old.changesets.items self.new.changesets.items }
    {
        let place = id as usize - 1;
        let mut kept = self.changesets.replace(place, vacant(alloc));
        let before = kept.count();
        let touched = apply_all(alloc, &mut self.map, &mut kept, at, operations, laid);
        finish(&mut kept, before, touched, at);
        self.changesets.set(place, kept);
    }
}

/// Takes in the box of what an upload touched. Where there are more changes than before it, that is
/// activity.
fn finish(changeset: &mut Changeset, before: u64, touched: Option<Box7>, at: Stamp)
    requires { IsTimelyMoment at }
    ensures kept { changeset.new.kept
        ≡ record changeset.old.kept { activity = (if nat_lt before (length changeset.old.kept.did) then at else changeset.old.kept.activity); touched = join_areas changeset.old.kept.touched touched } }
    ensures id { changeset.new.id ≡ changeset.old.id }
    ensures free { changeset.new.free ≡ changeset.old.free }
{
    changeset.join(touched);
    if changeset.count() > before {
        changeset.active(at);
    }
}
