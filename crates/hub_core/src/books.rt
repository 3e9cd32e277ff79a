//! The journal with its world, and the commit.
ghost use Rattle.std.specs.Prelude.{◌≡◌, ◌+◌, ◌<◌, ◌≤◌, ℕ, true, [], ◌∷◌, ◌++◌, length, IfOk, OnOk, OnErr, IfSome, MatchOption, List};
ghost use mathlib.Core.List.{IsPrefix};
ghost use Rattle.machine_law.specs.Rules.{replay};
ghost use Rattle.hub_core.specs.Journal.{calls_of, extended, place_of, IsJournal, IsMadeBefore};
ghost use Rattle.hub_core.specs.Paths.{MatchPath, IsPath, IsDone};

use crate::counted::CountedJournal;
use crate::dones::{Done, Judged};
use crate::entries::Entries;
use crate::outlets::Outlet;
use machine_law::{Machine, Settled, Tag};
use osm_base::{Memory, Steps};
use std::alloc::Global;
use std::marker::Model;
use std::sync::ledger::Ledger;

/// A journal, and the world after it. Contracts see the list of entries.
#[derive(Drop)]
pub struct Book<M: Machine> {
    alloc: Global,
    journal: CountedJournal<M>,
    world: M::World,
}

impl<M: Machine> Model for Book<M> {
    ghost use Rattle.std.specs.Prelude.{◌≡◌, List};
    ghost use Rattle.machine_law.specs.Rules.{replay};

    ghost Value = { List M.Entry };

    ghost view = { λ b. b.journal };

    ghost invariant = { λ b. M.state b.world ≡ replay M.rules b.journal };
}

impl<M: Machine> Book<M> {
    /// An empty journal. It takes no memory.
    pub fn new(alloc: Global) -> Book<M>
        ensures { result ≡ [] }
    {
        Book {
            alloc,
            journal: CountedJournal::new(alloc),
            world: M::empty(alloc),
        }
    }

    /// The entries, in the order of their commits.
    pub fn journal(&self) -> Entries<'_, M>
        ensures journal { result ≡ self.now }
        ensures kept { IsJournal M.rules self.now }
    {
        self.journal.journal()
    }

    /// The journal with its counts, and the world after it.
    pub fn into_parts(self) -> (CountedJournal<M>, M::World)
        ensures journal { result.0 ≡ self }
        ensures world { M.state result.1 ≡ replay M.rules self }
    {
        let Book {
            alloc: _,
            journal,
            world,
        } = self;
        (journal, world)
    }

    /// The world after the journal.
    pub fn world(&self) -> &M::World
        ensures world { M.state result.now ≡ replay M.rules self.now }
        ensures kept { IsJournal M.rules self.now }
    {
        let _journal = self.journal.journal();
        &self.world
    }

    /// The number of the journal's entries with this session, in steps that grow with the logarithm
    /// of the number of sessions.
    pub fn calls(&self, session: u32) -> u64
        ensures { result ≡ calls_of M.rules.tag_of session self.now }
    {
        self.journal.calls(session)
    }

    /// One more than the greatest session with an entry, or 0 where there is none: so many seats the
    /// journal needs. In steps that don't grow with the journal.
    pub fn sessions(&self) -> u64
        ensures past { (session : ℕ) → result ≤ session → calls_of M.rules.tag_of session self.now ≡ 0 }
        ensures least { (session : ℕ) → result ≡ session + 1 → 0 < calls_of M.rules.tag_of session self.now }
    {
        self.journal.sessions()
    }

    /// Puts an entry at the end, and offers it. It returns its place. All memory is taken first:
    /// `Memory`, the only error, leaves the book and the outlet.
    pub fn append<O: Outlet<M::Entry>>(
        &mut self,
        entry: M::Entry,
        tag: Tag,
        outlet: &mut O,
    ) -> Result<u64, Memory>
        requires taken { M.rules.takes (replay M.rules self.old) entry ≡ true }
        requires tagged { M.rules.tag_of entry ≡ tag }
        requires next { tag.call ≡ calls_of M.rules.tag_of tag.session self.old + 1 }
        requires welcome { O.welcomes outlet.old entry }
        ensures ok { IfOk result (λ place. (self.new ≡ self.old ++ entry ∷ []) × (place ≡ length self.old)
            × O.offered outlet.old entry outlet.new) }
        ensures err { OnErr result ((self.new ≡ self.old) × O.kept outlet.old outlet.new) }
    {
        let applied = ready_copy::<M>(self.alloc, &mut self.world, &entry)?;
        let place = self.journal.append(entry, tag, outlet)?;
        M::apply(&mut self.world, applied);
        Ok(place)
    }

    // Puts an entry at the end, if there is one. It returns its place.
    fn enter<O: Outlet<M::Entry>>(
        &mut self,
        entry: Option<M::Entry>,
        tag: Tag,
        outlet: &mut O,
    ) -> Result<Option<u64>, Memory>
        requires fits { IfSome entry (λ e. (M.rules.takes (replay M.rules self.old) e ≡ true) × (M.rules.tag_of e ≡ tag)) }
        requires next { tag.call ≡ calls_of M.rules.tag_of tag.session self.old + 1 }
        requires welcome { (entry : M.Entry) → M.rules.takes (replay M.rules self.old) entry ≡ true → M.rules.tag_of entry ≡ tag → O.welcomes outlet.old entry }
        ensures entered { OnOk result (self.new ≡ extended self.old entry) }
        ensures placed { IfOk result (λ place. place ≡ place_of self.old entry) }
        ensures offers { IfOk result (λ place. MatchOption place ((self.new ≡ self.old) × (outlet.new ≡ outlet.old))
            (λ place. (entry : M.Entry) × (self.new ≡ self.old ++ entry ∷ []) × (M.rules.tag_of entry ≡ tag)
            × O.offered outlet.old entry outlet.new)) }
        ensures err { OnErr result ((self.new ≡ self.old) × O.kept outlet.old outlet.new) }
    {
        match entry {
            Some(entry) => match self.append(entry, tag, outlet) {
                Ok(place) => Ok(Some(place)),
                Err(memory) => Err(memory),
            },
            None => Ok(None),
        }
    }

    /// Settles a plan at the end of the journal, as the session's next call at that moment. All
    /// memory is taken first: `Memory`, the only error, leaves the book and the outlet.
    pub fn commit<O: Outlet<M::Entry>, L: Ledger>(
        &mut self,
        plan: M::Plan,
        moment: u64,
        tag: Tag,
        outlet: &mut O,
        steps: &mut Steps<L>,
    ) -> Result<Done<M::Look>, Memory>
        requires made { IsMadeBefore M.rules plan self.old }
        requires next { tag.call ≡ calls_of M.rules.tag_of tag.session self.old + 1 }
        requires welcome { (entry : M.Entry) → M.rules.takes (replay M.rules self.old) entry ≡ true → M.rules.tag_of entry ≡ tag → O.welcomes outlet.old entry }
        ensures acts { (made : List M.Entry) (command : M.Command) → IsPrefix made self.old → M.rules.planned (replay M.rules made) command plan
            → IfOk result (λ done. IsDone (M.rules.act (replay M.rules self.old) tag moment command) self.old self.new done.answer done.place) }
        ensures offers { IfOk result (λ done. MatchOption done.place ((self.new ≡ self.old) × (outlet.new ≡ outlet.old))
            (λ place. (entry : M.Entry) × (self.new ≡ self.old ++ entry ∷ []) × (M.rules.tag_of entry ≡ tag)
            × O.offered outlet.old entry outlet.new)) }
        ensures path { IfOk result (λ done. IsPath M.rules plan (replay M.rules self.old) done.path) }
        ensures fast { IfOk result (λ done. MatchPath done.path (steps.new ≡ steps.old) (λ look. Unit {0})) }
        ensures err { OnErr result ((self.new ≡ self.old) × O.kept outlet.old outlet.new) }
    {
        let judged = self.journal.judge(&self.world, plan, moment, tag, steps)?;
        let Judged { settled, path } = judged;
        let Settled { answer, entry } = settled;
        let place = self.enter(entry, tag, outlet)?;
        Ok(Done {
            answer,
            place,
            path,
        })
    }
}

// A copy of an entry, for which a world has room then.
fn ready_copy<M: Machine>(
    alloc: Global,
    world: &mut M::World,
    entry: &M::Entry,
) -> Result<M::Entry, Memory>
    requires { M.rules.takes (M.state world.old) entry.now ≡ true }
    ensures same { M.state world.new ≡ M.state world.old }
    ensures copy { IfOk result (λ copy. (copy ≡ entry.now) × M.has_room world.new copy) }
{
    M::make_room(alloc, world, entry)?;
    M::copy(alloc, entry)
}
