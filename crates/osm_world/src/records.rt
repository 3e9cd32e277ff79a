//! The changesets of the map, with promised room.
ghost use Rattle.std.specs.Prelude.{◌≡◌, ◌+◌, ◌-◌, ◌<◌, ◌≤◌, ◌∷◌, ◌++◌, [], ◌==◌, Some, length, slice_get, slice_set, slice_index, OnOk, ℕ, true, false};
ghost use Rattle.changeset_core.specs.Changeset.{is_open, retagged, ended_at};
ghost use Rattle.changeset_core.specs.Timely.{IsTimelyMoment};
ghost use Rattle.changeset_core.specs.declared.records.ChangesetRecord.{ChangesetRecord};
ghost use Rattle.osm_base.specs.declared.people.User.{User};
ghost use Rattle.osm_model.specs.Changeset.{new_changeset};
ghost use Rattle.osm_world.specs.Records.{records, rooms, ids, AreNumbered, HasNoMoreRoom};

use changeset_core::{Changeset, first_limit};
use osm_base::{Memory, Owner, Roomy, Stamp, Text, User};
use osm_element::Tags;
use std::alloc::Global;

/// One to stand where another is taken out. It takes no memory.
pub fn vacant(alloc: Global) -> Changeset {
    let owner = Owner {
        id: 0,
        name: Text::from_string(String::new(alloc)),
    };
    Changeset::new(alloc, 0, owner, Tags::none(alloc), Stamp(0), 0)
}

/// Adds a changeset that a user opens at a stamp.
pub fn add_changeset(
    alloc: Global,
    changesets: &mut Roomy<Changeset>,
    user: User,
    tags: Tags,
    at: Stamp,
    large_from: Option<u64>,
)
    requires room { 0 < changesets.old.free }
    requires timely { IsTimelyMoment at }
    ensures records { records changesets.new.items ≡ records changesets.old.items ++ new_changeset user at tags large_from ∷ [] }
    ensures numbered { AreNumbered changesets.old.items → AreNumbered changesets.new.items }
    ensures rooms { HasNoMoreRoom changesets.old.items changesets.new.items }
{
    let id = changesets.items().len() as u64 + 1;
    let owner = Owner {
        id: user.id,
        name: user.name,
    };
    let limit = first_limit(large_from, at);
    changesets.push(Changeset::new(alloc, id, owner, tags, at, limit));
}

/// Gives a changeset other tags, which is activity.
pub fn set_tags(alloc: Global, changesets: &mut Roomy<Changeset>, id: u64, tags: Tags, at: Stamp)
    requires counted { 0 < id }
    requires known { id ≤ length changesets.old.items }
    requires is_open { (r : ChangesetRecord) → slice_get (records changesets.old.items) (id - 1) ≡ Some r → is_open r at ≡ true }
    requires timely { IsTimelyMoment at }
    ensures records { (r : ChangesetRecord) → slice_get (records changesets.old.items) (id - 1) ≡ Some r
        → records changesets.new.items ≡ slice_set (records changesets.old.items) (id - 1) (retagged r tags at) }
    ensures ids { ids changesets.new.items ≡ ids changesets.old.items }
    ensures rooms { rooms changesets.new.items ≡ rooms changesets.old.items }
{
    let place = id as usize - 1;
    let mut kept = changesets.replace(place, vacant(alloc));
    kept.retag(tags, at);
    changesets.set(place, kept);
}

/// Closes a changeset.
pub fn set_end(alloc: Global, changesets: &mut Roomy<Changeset>, id: u64, at: Stamp)
    requires counted { 0 < id }
    requires known { id ≤ length changesets.old.items }
    requires is_open { (r : ChangesetRecord) → slice_get (records changesets.old.items) (id - 1) ≡ Some r → is_open r at ≡ true }
    requires timely { IsTimelyMoment at }
    ensures records { (r : ChangesetRecord) → slice_get (records changesets.old.items) (id - 1) ≡ Some r
        → records changesets.new.items ≡ slice_set (records changesets.old.items) (id - 1) (ended_at r at) }
    ensures ids { ids changesets.new.items ≡ ids changesets.old.items }
    ensures rooms { rooms changesets.new.items ≡ rooms changesets.old.items }
{
    let place = id as usize - 1;
    let mut kept = changesets.replace(place, vacant(alloc));
    kept.close(at);
    changesets.set(place, kept);
}

/// Promises room for more work of a changeset. Where there is no such changeset, the rules accept
/// no upload to it.
pub fn promise_work(
    alloc: Global,
    changesets: &mut Roomy<Changeset>,
    id: u64,
    more: usize,
) -> Result<(), Memory>
    ensures records { records changesets.new.items ≡ records changesets.old.items }
    ensures ids { ids changesets.new.items ≡ ids changesets.old.items }
    ensures ok { OnOk result (more ≤ slice_index (rooms changesets.new.items) (id - 1)) }
    ensures others { (i : ℕ) → (i + 1 == id) ≡ false → slice_index (rooms changesets.new.items) i
        ≤ slice_index (rooms changesets.old.items) i }
    ensures free { changesets.new.free ≡ changesets.old.free }
{
    if id == 0 || id > changesets.items().len() as u64 {
        return Err(Memory);
    }
    let place = id as usize - 1;
    let mut kept = changesets.replace(place, vacant(alloc));
    let promised = kept.room(more as u64);
    changesets.set(place, kept);
    promised
}

/// Takes back what is promised for the work of a changeset.
pub fn forget_work(alloc: Global, changesets: &mut Roomy<Changeset>, id: u64)
    ensures records { records changesets.new.items ≡ records changesets.old.items }
    ensures ids { ids changesets.new.items ≡ ids changesets.old.items }
    ensures none { (i : ℕ) → (i + 1 == id) ≡ true → slice_index (rooms changesets.new.items) i ≡ 0 }
    ensures rooms { HasNoMoreRoom changesets.old.items changesets.new.items }
{
    if id == 0 || id > changesets.items().len() as u64 {
        return;
    }
    let place = id as usize - 1;
    let mut kept = changesets.replace(place, vacant(alloc));
    kept.forget();
    changesets.set(place, kept);
}
