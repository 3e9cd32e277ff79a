//! A map that takes the entries of a journal one after the other.
ghost use Rattle.std.specs.Prelude.{◌≡◌, ◌+◌, ◌<◌, length, OnOk, OnErr};

use crate::compared::difference;
use osm_base::{Memory, TryCopy};
use osm_model::Entry;
use osm_world::World;
use plain_model::Journal;
use std::alloc::Global;
use std::marker::Model;

/// A journal, and an indexed map that has taken its first entries. Contracts see the entries, and how
/// many of them were taken.
#[derive(Drop)]
struct Anew<'a> {
    journal: &'a Journal,
    world: World,
    seen: usize,
}

impl<'a> Model for Anew<'a> {
    ghost use Rattle.same_maps.specs.Beside.{Along, IsBeside};

    ghost Value = { Along };

    ghost view = { λ b. record { entries = b.journal.now; seen = b.seen } };

    ghost invariant = { λ b. IsBeside b.journal.now b.world b.seen };
}

impl<'a> Anew<'a> {
    /// An empty map, which has taken none.
    fn of(alloc: Global, journal: &'a Journal) -> Anew<'a>
        ensures { result ≡ record { entries = journal.now; seen = 0 } }
    {
        Anew {
            journal,
            world: World::empty(alloc),
            seen: 0,
        }
    }

    /// Makes room for an entry, of this journal or of another one. It isn't taken.
    fn make_room(&mut self, alloc: Global, entry: &Entry) -> Result<(), Memory>
        ensures { self.new ≡ self.old }
    {
        self.world.make_room(alloc, entry)
    }

    /// Makes room for each of the entries. Those that the map never accepts may be refused.
    fn make_rooms(&mut self, alloc: Global, entries: &[Entry])
        ensures { self.new ≡ self.old }
    {
        'entries: for entry in entries {
            let _is_made = self.make_room(alloc, entry).is_ok();
        }
    }

    /// Takes the next entry: a copy of it, on room that is made for it.
    fn take_next(&mut self, alloc: Global) -> Result<(), Memory>
        requires { self.old.seen < length self.old.entries }
        ensures entries { self.new.entries ≡ self.old.entries }
        ensures ok { OnOk result (self.new.seen ≡ self.old.seen + 1) }
        ensures memory { OnErr result (self.new.seen ≡ self.old.seen) }
    {
        let entry = self.journal.entries()[self.seen].copy(alloc)?;
        self.world.make_room(alloc, &entry)?;
        self.world.apply(alloc, entry);
        self.seen += 1;
        Ok(())
    }

    /// Takes all entries that are left. Before each of them room is made twice for each of the others.
    fn take_all(&mut self, alloc: Global, others: &[Entry]) -> Result<(), Memory>
        ensures entries { self.new.entries ≡ self.old.entries }
        ensures ok { OnOk result (self.new.seen ≡ length self.new.entries) }
    {
        'entries: while self.seen < self.journal.entries().len() {
            self.make_rooms(alloc, others);
            self.make_rooms(alloc, others);
            self.take_next(alloc)?;
        }
        Ok(())
    }

    /// The first part in which the map differs from the plain one once it has taken all entries.
    fn difference(
        &mut self,
        alloc: Global,
        others: &[Entry],
    ) -> Result<Option<&'static str>, Memory> {
        self.take_all(alloc, others)?;
        difference(alloc, self.journal.state(), &self.world)
    }
}

/// The first part in which an empty map that takes all entries of a journal differs from the plain one
/// in the end. Before each entry room is made twice for each of the others.
pub fn difference_anew(
    alloc: Global,
    journal: &Journal,
    others: &[Entry],
) -> Result<Option<&'static str>, Memory> {
    let mut anew = Anew::of(alloc, journal);
    anew.difference(alloc, others)
}
