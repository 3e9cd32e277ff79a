//! Pieces taken one after another.
//!
//! What a follower says of a piece is one computing definition over the entries that are kept, and
//! a list of calls has its own: so the theorem on feeds in any order speaks of lists alone, and
//! whoever calls `take` has of each call just what the list needs.
ghost use Rattle.std.specs.Prelude.{◌≡◌, ◌+◌, ◌-◌, ◌≤◌, ◌<◌, ◌^◌, ◌++◌, ◌∷◌, List, [], length, slice_get, Some, Ok, IfOk, IfSome, OnErr, if◌then◌else◌};
ghost use Rattle.osm_model.specs.Journal.{IsLegal};
ghost use Rattle.osm_model.specs.declared.commands.Entry.{Entry};
ghost use Rattle.journal_text.specs.Kept.{may_follow};
ghost use Rattle.journal_follower.specs.Taken.{is_same, taken, kept_with, after_call};
ghost use Rattle.journal_follower.specs.declared.answers.Taken.TheVariants.{Old, Differs, Folded, Illegal};

use crate::answers::Taken;
use hub_core::Book;
use journal_text::{Keeper, entry_line, lines_tell_entries};
use map_machine::{BookKeeper, MapMachine};
use osm_base::Memory;
use osm_model::Entry;
use replication_feed::Piece;
use std::alloc::Global;
use std::marker::Model;

/// The beginning of a journal, as far as its pieces were folded, with its map.
#[derive(Drop)]
pub struct Follower {
    keeper: BookKeeper,
}

impl Model for Follower {
    ghost use Rattle.std.specs.Prelude.{List};
    ghost use Rattle.osm_model.specs.declared.commands.Entry.{Entry};

    ghost Value = { List Entry };

    ghost view = { λ follower. follower.keeper };
}

impl Follower {
    /// A follower that keeps nothing. It takes no memory.
    pub fn new(alloc: Global) -> Follower
        ensures { result ≡ [] }
    {
        Follower {
            keeper: BookKeeper::new(alloc),
        }
    }

    /// A follower that goes on from what this keeper keeps. It takes no memory.
    pub fn of(keeper: BookKeeper) -> Follower
        ensures { result ≡ keeper }
    {
        Follower { keeper }
    }

    /// How many entries are kept: the number of the last folded piece, or 0.
    pub fn length(&self) -> u64
        ensures length { result ≡ length self.now }
        ensures few { result ≤ 2 ^ 62 }
    {
        self.book().journal().len() as u64
    }

    /// The book of what is kept, for reads.
    pub fn book(&self) -> &Book<MapMachine>
        ensures book { result.now ≡ self.now }
        ensures legal { IsLegal self.now }
    {
        self.keeper.book()
    }

    /// The last entry, where the follower itself kept it.
    pub fn last(&self) -> Option<&Entry>
        ensures { IfSome result (λ entry. (before : List Entry) × (self.now ≡ before ++ entry.now ∷ [])) }
    {
        self.keeper.last()
    }

    /// Takes a piece. `Memory` leaves the follower as it was.
    pub fn take(&mut self, alloc: Global, piece: Piece) -> Result<Taken, Memory>
        requires counted { 1 ≤ piece.number }
        ensures taken { IfOk result (λ answer. answer ≡ taken self.old piece) }
        ensures kept { self.new ≡ after_call result self.old piece }
        ensures same { result ≡ Ok Old → slice_get self.old (piece.number - 1) ≡ Some piece.entry }
    {
        if piece.number <= self.length() {
            self.meet(alloc, &piece)
        } else {
            self.go_on(alloc, piece)
        }
    }

    /// Compares a piece with the entry that is kept in its place.
    fn meet(&self, alloc: Global, piece: &Piece) -> Result<Taken, Memory>
        requires counted { 1 ≤ piece.now.number }
        requires there { piece.now.number ≤ length self.now }
        ensures taken { IfOk result (λ answer. answer ≡ taken self.now piece.now) }
        ensures kept { IfOk result (λ answer. kept_with answer self.now piece.now.entry ≡ self.now) }
        ensures same { result ≡ Ok Old → slice_get self.now (piece.now.number - 1) ≡ Some piece.now.entry }
    {
        let place = piece.number as usize - 1;
        let own = self.book().journal().entry(alloc, place)?;
        compare(alloc, &own, &piece.entry)
    }

    /// Takes a piece in whose place nothing is kept.
    fn go_on(&mut self, alloc: Global, piece: Piece) -> Result<Taken, Memory>
        requires past { length self.old < piece.number }
        ensures taken { IfOk result (λ answer. answer ≡ taken self.old piece) }
        ensures kept { IfOk result (λ answer. self.new ≡ kept_with answer self.old piece.entry) }
        ensures memory { OnErr result (self.new ≡ self.old) }
        ensures new { result ≡ Ok Old → ⊥ }
    {
        let next = self.length() + 1;
        if piece.number == next {
            self.fold(alloc, piece.entry)
        } else {
            Ok(Taken::Gap { next })
        }
    }

    /// Keeps the entry of the next piece, where it may follow.
    fn fold(&mut self, alloc: Global, entry: Entry) -> Result<Taken, Memory>
        ensures taken { IfOk result (λ answer. answer ≡ (if may_follow self.old entry then Folded else Illegal)) }
        ensures kept { IfOk result (λ answer. self.new ≡ kept_with answer self.old entry) }
        ensures memory { OnErr result (self.new ≡ self.old) }
    {
        if self.keeper.keep(alloc, entry)? {
            Ok(Taken::Folded)
        } else {
            Ok(Taken::Illegal)
        }
    }
}

/// Whether an entry is the kept one, told by their lines: a line tells its entry, and a piece that
/// comes again is rare, so that the memory of two lines is no matter.
fn compare(alloc: Global, kept: &Entry, entry: &Entry) -> Result<Taken, Memory>
    ensures taken { IfOk result (λ answer. answer ≡ (if is_same kept.now entry.now then Old else Differs)) }
    ensures same { result ≡ Ok Old → kept.now ≡ entry.now }
{
    lines_tell_entries();
    let own = entry_line(alloc, kept)?;
    let other = entry_line(alloc, entry)?;
    if own.as_slice() == other.as_slice() {
        Ok(Taken::Old)
    } else {
        Ok(Taken::Differs)
    }
}
