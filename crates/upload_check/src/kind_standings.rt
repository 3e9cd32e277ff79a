//! Where the elements of one kind stand.
//!
//! Where created elements stand is kept in a list for each kind, since their ids rise by one from
//! the world's next id; only older elements stand apart, by id. So a look at a created element
//! takes the same time however many an upload creates, and no id that a client chooses lengthens a
//! list.
ghost use Rattle.std.specs.Prelude.{◌≡◌, ℕ, ◌<◌, ◌≤◌, ◌==◌, true, [], Option, None, Some, is_some, if◌then◌else◌, length, slice_get, OnOk, OnErr};
ghost use Rattle.std.specs.Map.{lookup};
ghost use Rattle.std.specs.Ordering.{nat_cmp};
ghost use Rattle.std.specs.BTreeMap.{is_at};
ghost use Rattle.upload_check.specs.Overlay.{created_at, noted_at, no_notes_from};

use crate::older_standings::OlderStandings;
use crate::standings::Standing;
use osm_base::Memory;
use std::alloc::Global;
use std::marker::Model;

/// Where the elements of one kind stand of which the operations changed anything. Ids of created
/// elements rise by one from `first`, so those stand in a list; a look at one takes the same time
/// however many there are. A look at an older element takes the logarithm of their number, whatever
/// ids a client chooses.
#[derive(Drop)]
pub struct KindStandings {
    first: u64,
    room: usize,
    created: Vec<Standing>,
    older: OlderStandings,
}

impl Model for KindStandings {
    ghost use Rattle.upload_check.specs.Overlay.{KindNotes};

    ghost Value = { KindNotes };

    ghost view = { λ s. record { first = s.first; created = s.created.items; older = s.older } };
}

impl KindStandings {
    /// Nothing is noted, and created elements have ids from `first` on. The first of them takes room
    /// for so many; this takes no memory.
    pub fn new(alloc: Global, first: u64, room: usize) -> KindStandings
        ensures { result ≡ no_notes_from first }
    {
        KindStandings {
            first,
            room,
            created: Vec::new(alloc),
            older: OlderStandings::new(alloc),
        }
    }

    /// What is noted of an element.
    pub fn look(&self, id: u64) -> Option<Standing>
        ensures { result ≡ noted_at self.now id }
    {
        match self.created(id) {
            Some(standing) => Some(standing),
            None => self.older.look(id),
        }
    }

    fn created(&self, id: u64) -> Option<Standing>
        ensures { result ≡ created_at self.now id }
    {
        if id < self.first {
            None
        } else {
            let place = (id - self.first) as usize;
            self.created.get(place).copied()
        }
    }

    /// Notes where an element stands now. `Memory` leaves what is noted.
    #[tactic(auto, using(crate::proofs::Noted::set_created, crate::proofs::Noted::set_early, crate::proofs::Noted::set_beyond))]
    pub fn set(&mut self, id: u64, standing: Standing) -> Result<(), Memory>
        ensures set { OnOk result ((i : ℕ) → noted_at self.new i ≡ (if i == id then Some standing else noted_at self.old i)) }
        ensures memory { OnErr result (self.new ≡ self.old) }
    {
        if id < self.first {
            return self.older.set(id, standing);
        }
        let place = (id - self.first) as usize;
        if place > self.created.len() {
            return self.older.set(id, standing);
        }
        set_created(&mut self.created, self.room, place, standing)
    }

    /// Notes where an element stands now of which something is noted. It takes no memory.
    #[tactic(auto, using(crate::proofs::Noted::set_created, crate::proofs::Noted::set_early, crate::proofs::Noted::set_past, crate::proofs::Noted::noted_early, crate::proofs::Noted::noted_past))]
    pub fn change(&mut self, id: u64, standing: Standing)
        requires { is_some (noted_at self.old id) ≡ true }
        ensures { (i : ℕ) → noted_at self.new i ≡ (if i == id then Some standing else noted_at self.old i) }
    {
        if id < self.first {
            self.older.change(id, standing);
            return;
        }
        let place = (id - self.first) as usize;
        if place >= self.created.len() {
            self.older.change(id, standing);
            return;
        }
        change_created(&mut self.created, place, standing);
    }
}

/// Room for so many in a list that has none yet, so that it doesn't grow step by step.
fn make_room(created: &mut Vec<Standing>, room: usize) -> Result<(), Memory>
    ensures { created.new.items ≡ created.old.items }
{
    if created.is_empty() {
        created.reserve_exact(room)?;
    }
    Ok(())
}

/// Sets what stands at a place of a list, or adds it at the end.
fn set_created(
    created: &mut Vec<Standing>,
    room: usize,
    place: usize,
    standing: Standing,
) -> Result<(), Memory>
    requires { place ≤ length created.old.items }
    ensures set { OnOk result ((i : ℕ)
        → slice_get created.new.items i ≡ (if i == place then Some standing else slice_get created.old.items i)) }
    ensures memory { OnErr result (created.new.items ≡ created.old.items) }
{
    if place < created.len() {
        created[place] = standing;
    } else {
        make_room(created, room)?;
        created.push(standing)?;
    }
    Ok(())
}

fn change_created(created: &mut Vec<Standing>, place: usize, standing: Standing)
    requires { place < length created.old.items }
    ensures { (i : ℕ) → slice_get created.new.items i ≡ (if i == place then Some standing else slice_get created.old.items i) }
{
    created[place] = standing;
}
