//! The journal with its counts of calls, and what a plan comes to at its end.
ghost use Rattle.std.specs.Prelude.{◌≡◌, ◌+◌, ◌<◌, ◌≤◌, ◌^◌, ℕ, true, Some, [], ◌∷◌, ◌++◌, map, length, IfOk, OnOk, OnErr, IfSome, MatchOption, List, vec_len, vec_capacity};
ghost use Rattle.std.specs.BTreeMap.{ContainsKey, Updates};
ghost use Rattle.std.specs.Ordering.{nat_cmp};
ghost use mathlib.Core.List.{IsPrefix};
ghost use Rattle.machine_law.specs.Rules.{replay, Later, IsForeseen};
ghost use Rattle.hub_core.specs.Journal.{calls_of, count_of, extended, place_of, IsGreatest, IsJournal, IsLast, IsMadeBefore};
ghost use Rattle.hub_core.specs.Paths.{MatchPath, IsPath};

use crate::dones::{Judged, Path};
use crate::entries::{Entries, MOST};
use crate::outlets::Outlet;
use machine_law::{Machine, Settled, Tag};
use osm_base::{Memory, Steps};
use std::alloc::Global;
use std::collections::BTreeMap;
use std::marker::Model;
use std::sync::ledger::Ledger;

/// A journal, and how many entries each session has in it. Contracts see the list of entries.
///
/// The world after them is its owner's: a book has one of its own, a hub has those that it publishes.
#[derive(Drop)]
pub struct CountedJournal<M: Machine> {
    alloc: Global,
    journal: Vec<M::Kept>,
    /// The number of entries of each session. A session that has none may have no place.
    calls: BTreeMap<u32, u64>,
}

impl<M: Machine> Model for CountedJournal<M> {
    ghost use Rattle.std.specs.Prelude.{◌≤◌, ◌^◌, List, map, length};
    ghost use Rattle.hub_core.specs.Journal.{IsJournal, AreCounted};

    ghost Value = { List M.Entry };

    ghost view = { λ b. map M.entry_of b.journal.items };

    ghost invariant = { λ b. IsJournal M.rules (map M.entry_of b.journal.items)
        × AreCounted M.rules.tag_of b.calls (map M.entry_of b.journal.items)
        × (length b.journal.items ≤ 2 ^ 62) };
}

impl<M: Machine> CountedJournal<M> {
    /// An empty journal. It takes no memory.
    pub fn new(alloc: Global) -> CountedJournal<M>
        ensures { result ≡ [] }
    {
        CountedJournal {
            alloc,
            journal: Vec::new(alloc),
            calls: BTreeMap::new(alloc),
        }
    }

    /// The entries, in the order of their commits.
    pub fn journal(&self) -> Entries<'_, M>
        ensures journal { result ≡ self.now }
        ensures kept { IsJournal M.rules self.now }
    {
        Entries::of(self.journal.as_slice())
    }

    /// The number of the journal's entries with this session, in steps that grow with the logarithm
    /// of the number of sessions.
    pub fn calls(&self, session: u32) -> u64
        ensures { result ≡ calls_of M.rules.tag_of session self.now }
    {
        self.calls.get(&session).copied().unwrap_or(0)
    }

    /// One more than the greatest session with an entry, or 0 where there is none: so many seats the
    /// journal needs. In steps that don't grow with the journal.
    pub fn sessions(&self) -> u64
        ensures past { (session : ℕ) → result ≤ session → calls_of M.rules.tag_of session self.now ≡ 0 }
        ensures least { (session : ℕ) → result ≡ session + 1 → 0 < calls_of M.rules.tag_of session self.now }
    {
        match greatest(&self.calls) {
            Some(session) => u64::from(session) + 1,
            None => 0,
        }
    }

    /// What a plan comes to at the end of the journal, as the session's next call at that moment, on
    /// the world after it. Nothing is entered yet.
    pub fn judge<L: Ledger>(
        &self,
        world: &M::World,
        plan: M::Plan,
        moment: u64,
        tag: Tag,
        steps: &mut Steps<L>,
    ) -> Result<Judged<M::Entry, M::Look>, Memory>
        requires world { M.state world.now ≡ replay M.rules self.now }
        requires made { IsMadeBefore M.rules plan self.now }
        ensures acts { (made : List M.Entry) (command : M.Command) → IsPrefix made self.now → M.rules.planned (replay M.rules made) command plan
            → IfOk result (λ judged. judged.settled ≡ M.rules.act (replay M.rules self.now) tag moment command) }
        ensures fits { IfOk result
            (λ judged. IfSome judged.settled.entry (λ e. (M.rules.takes (replay M.rules self.now) e ≡ true) × (M.rules.tag_of e ≡ tag))) }
        ensures path { IfOk result (λ judged. IsPath M.rules plan (replay M.rules self.now) judged.path) }
        ensures fast { IfOk result (λ judged. MatchPath judged.path (steps.new ≡ steps.old) (λ look. Unit {0})) }
    {
        let path = path_of::<M>(world, &plan);
        let settled = settle_by::<M, L>(self.alloc, world, plan, &path, tag, moment, steps)?;
        Ok(Judged { settled, path })
    }

    /// Puts an entry at the end, and offers it. It returns its place. All memory is taken first:
    /// `Memory`, the only error, leaves the journal and the outlet.
    pub fn append<O: Outlet<M::Entry>>(
        &mut self,
        entry: M::Entry,
        tag: Tag,
        outlet: &mut O,
    ) -> Result<u64, Memory>
        requires taken { M.rules.takes (replay M.rules self.old) entry ≡ true }
        requires tagged { M.rules.tag_of entry ≡ tag }
        requires next { tag.call ≡ calls_of M.rules.tag_of tag.session self.old + 1 }
        requires welcome { O.welcomes outlet.old entry }
        ensures ok { IfOk result (λ place. (self.new ≡ self.old ++ entry ∷ []) × (place ≡ length self.old)
            × O.offered outlet.old entry outlet.new) }
        ensures err { OnErr result ((self.new ≡ self.old) × O.kept outlet.old outlet.new) }
    {
        make_ready(&mut self.journal, &mut self.calls, tag.session)?;
        let kept = keep_offered::<M, O>(self.alloc, entry, outlet)?;
        let place = self.journal.len() as u64;
        self.journal.push_reserved(kept);
        set_count(&mut self.calls, tag.session, tag.call);
        Ok(place)
    }

    /// Puts an entry at the end that is offered to nobody. `Memory`, the only error, leaves the journal.
    pub fn push(&mut self, entry: M::Entry) -> Result<(), Memory>
        requires taken { M.rules.takes (replay M.rules self.old) entry ≡ true }
        requires next { (M.rules.tag_of entry).call ≡ calls_of M.rules.tag_of (M.rules.tag_of entry).session self.old + 1 }
        ensures ok { OnOk result (self.new ≡ self.old ++ entry ∷ []) }
        ensures err { OnErr result (self.new ≡ self.old) }
    {
        let tag = M::tag(&entry);
        make_ready(&mut self.journal, &mut self.calls, tag.session)?;
        let own = M::keep(self.alloc, &entry)?;
        self.journal.push_reserved(own);
        set_count(&mut self.calls, tag.session, tag.call);
        Ok(())
    }

    /// Puts an entry at the end, if there is one, as `append` does.
    pub fn enter<O: Outlet<M::Entry>>(
        &mut self,
        entry: Option<M::Entry>,
        tag: Tag,
        outlet: &mut O,
    ) -> Result<Option<u64>, Memory>
        requires fits { IfSome entry (λ e. (M.rules.takes (replay M.rules self.old) e ≡ true) × (M.rules.tag_of e ≡ tag)) }
        requires next { tag.call ≡ calls_of M.rules.tag_of tag.session self.old + 1 }
        requires welcome { (entry : M.Entry) → M.rules.takes (replay M.rules self.old) entry ≡ true → M.rules.tag_of entry ≡ tag → O.welcomes outlet.old entry }
        ensures entered { OnOk result (self.new ≡ extended self.old entry) }
        ensures placed { IfOk result (λ place. place ≡ place_of self.old entry) }
        ensures offers { IfOk result (λ place. MatchOption place ((self.new ≡ self.old) × (outlet.new ≡ outlet.old))
            (λ place. (entry : M.Entry) × (self.new ≡ self.old ++ entry ∷ []) × (M.rules.tag_of entry ≡ tag)
            × O.offered outlet.old entry outlet.new)) }
        ensures err { OnErr result ((self.new ≡ self.old) × O.kept outlet.old outlet.new) }
    {
        match entry {
            Some(entry) => match self.append(entry, tag, outlet) {
                Ok(place) => Ok(Some(place)),
                Err(memory) => Err(memory),
            },
            None => Ok(None),
        }
    }
}

// Takes all memory that an entry of a session needs, but for what is kept of it.
fn make_ready<T>(
    journal: &mut Vec<T>,
    calls: &mut BTreeMap<u32, u64>,
    session: u32,
) -> Result<(), Memory>
    ensures journal { journal.new.items ≡ journal.old.items }
    ensures calls { (other : ℕ) → count_of calls.new other ≡ count_of calls.old other }
    ensures few { OnOk result (vec_len journal.new < 2 ^ 62) }
    ensures journal_room { OnOk result (vec_len journal.new < vec_capacity journal.new) }
    ensures calls_room { OnOk result (ContainsKey nat_cmp calls.new session) }
{
    if journal.len() >= MOST {
        return Err(Memory);
    }
    journal.reserve(1)?;
    make_place(calls, session)
}

// Gives a session a place among the counts.
fn make_place(calls: &mut BTreeMap<u32, u64>, session: u32) -> Result<(), Memory>
    ensures same { (other : ℕ) → count_of calls.new other ≡ count_of calls.old other }
    ensures there { OnOk result (ContainsKey nat_cmp calls.new session) }
{
    if !calls.contains_key(&session) {
        calls.insert(session, 0)?;
    }
    Ok(())
}

// Sets the count of a session that has a place.
fn set_count(calls: &mut BTreeMap<u32, u64>, session: u32, count: u64)
    requires { ContainsKey nat_cmp calls.old session }
    ensures { Updates nat_cmp calls.old calls.new session (Some count) }
{
    if let Some(place) = calls.get_mut(&session) {
        *place = count;
    }
}

// The greatest session with an entry.
fn greatest(calls: &BTreeMap<u32, u64>) -> Option<u32>
    ensures { IsGreatest calls.now result }
{
    let mut place = last_place(calls);
    while let Some((session, count)) = place {
        if count > 0 {
            return Some(session);
        }
        place = place_before(calls, session);
    }
    None
}

// The last session that has a place, and its count.
fn last_place(calls: &BTreeMap<u32, u64>) -> Option<(u32, u64)>
    ensures { IsLast calls.now result }
{
    let (session, count) = calls.last_key_value()?;
    Some((*session, *count))
}

// The last session before this one that has a place, and its count. No session from this one on
// has an entry.
fn place_before(calls: &BTreeMap<u32, u64>, session: u32) -> Option<(u32, u64)>
    requires { (other : ℕ) → session ≤ other → count_of calls.now other ≡ 0 }
    ensures last { IsLast calls.now result }
    ensures before { IfSome result (λ place. place.0 < session) }
{
    let (before, count) = calls.range(..session).next_back()?;
    Some((*before, *count))
}

// Offers an entry, and returns what is kept of it.
fn keep_offered<M: Machine, O: Outlet<M::Entry>>(
    alloc: Global,
    entry: M::Entry,
    outlet: &mut O,
) -> Result<M::Kept, Memory>
    requires { O.welcomes outlet.old entry }
    ensures ok { IfOk result (λ kept. (M.entry_of kept ≡ entry) × O.offered outlet.old entry outlet.new) }
    ensures err { OnErr result (O.kept outlet.old outlet.new) }
{
    let kept = M::keep(alloc, &entry)?;
    outlet.offer(entry)?;
    Ok(kept)
}

// Whether a plan stands.
fn path_of<M: Machine>(world: &M::World, plan: &M::Plan) -> Path<M::Look>
    ensures { IsPath M.rules plan.now (M.state world.now) result }
{
    match M::still(world, plan) {
        Ok(()) => Path::Fast,
        Err(look) => Path::Slow(look),
    }
}

// Settles a plan that stands, and checks its command again otherwise.
fn settle_by<M: Machine, L: Ledger>(
    alloc: Global,
    world: &M::World,
    plan: M::Plan,
    path: &Path<M::Look>,
    tag: Tag,
    moment: u64,
    steps: &mut Steps<L>,
) -> Result<Settled<M::Entry>, Memory>
    requires foreseen { IsForeseen M.rules plan (M.state world.now) }
    requires path { IsPath M.rules plan (M.state world.now) path.now }
    ensures acts { (begun : M.State) (command : M.Command) → M.rules.planned begun command plan → Later M.rules begun (M.state world.now)
        → IfOk result (λ s. s ≡ M.rules.act (M.state world.now) tag moment command) }
    ensures entry { IfOk result (λ s. IfSome s.entry (λ e. (M.rules.takes (M.state world.now) e ≡ true) × (M.rules.tag_of e ≡ tag))) }
    ensures fast { MatchPath path.now (steps.new ≡ steps.old) (λ look. Unit {0}) }
{
    match path {
        Path::Fast => M::settle(alloc, world, plan, tag, moment, steps),
        Path::Slow(_) => M::again(alloc, world, plan, tag, moment, steps),
    }
}
