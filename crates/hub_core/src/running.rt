//! The core as a program: one list of events, played in order.
ghost use Rattle.std.specs.Prelude.{◌≡◌, false, ◌+◌, ◌<◌, ◌^◌, [], ◌∷◌, ◌++◌, fold, MatchOption, None, Some, slice_index_or, slice_set, length, take, true, IfOk, OnOk, OnErr, IsTrue};
ghost use Rattle.hub_core.specs.declared.events.Event.TheVariants.{Plan, Commit, Ask, Freshen};
ghost use Rattle.machine_law.specs.Rules.{replay};
ghost use Rattle.hub_core.specs.Journal.{IsJournal};
ghost use Rattle.hub_core.specs.Core.{CoreState, core_start, core_step, core_after, core_tells, all_told, can_read, saw};
ghost use Rattle.hub_core.specs.declared.events.Seen.{Seen};
ghost use Rattle.hub_core.specs.declared.running.Caller.{Caller};
ghost use Rattle.hub_core.specs.Stages.{StandsFor, IsTold, AreTold};

use crate::books::Book;
use crate::events::{Event, Seen};
use crate::outlets::NoOutlet;
use machine_law::{Machine, Tag};
use osm_base::{Memory, Steps};
use std::alloc::Global;
use std::marker::Model;
use std::sync::ledger::Ledger;

/// What the core keeps of one session: how many entries it has seen, and its plan.
#[derive(Drop)]
struct Caller<P> {
    seen: usize,
    plan: Option<P>,
}

/// A book, a world after the published part of its journal, and the sessions.
#[derive(Drop)]
struct Core<M: Machine> {
    alloc: Global,
    book: Book<M>,
    shown: M::World,
    published: usize,
    callers: Vec<Caller<M::Plan>>,
}

impl<M: Machine> Model for Core<M> {
    ghost use Rattle.std.specs.Prelude.{◌≡◌, ◌≤◌, take, length};
    ghost use Rattle.machine_law.specs.Rules.{replay};
    ghost use Rattle.hub_core.specs.Stages.{Stage, stage, ArePlansKept};

    ghost Value = { Stage M.Entry M.Plan };

    ghost view = { λ c. stage c.book c.published c.callers.items };

    ghost invariant = { λ c. (M.state c.shown ≡ replay M.rules (take c.published c.book)) × (c.published ≤ length c.book)
        × ArePlansKept M.rules c.book c.callers.items };
}

impl<M: Machine> Core<M> {
    // So many sessions, which have seen nothing of an empty journal.
    fn new(alloc: Global, sessions: u32) -> Result<Core<M>, Memory>
        ensures { IfOk result (λ core. StandsFor M.rules (core_start sessions) core) }
    {
        let mut callers = Vec::with_capacity(alloc, sessions as usize)?;
        for _ in 0..sessions {
            callers.push(Caller {
                seen: 0,
                plan: None,
            })?;
        }
        Ok(Core {
            alloc,
            book: Book::new(alloc),
            shown: M::empty(alloc),
            published: 0,
            callers,
        })
    }

    // Whether there is that session, and what is published has all that it saw.
    fn can_read(&self, session: usize) -> bool
        ensures there { IsTrue result → session < length self.now.callers }
        ensures exact { (core : CoreState M.Command M.Entry) → StandsFor M.rules core self.now → result ≡ can_read core session }
    {
        session < self.callers.len() && self.callers[session].seen <= self.published
    }

    // The session has seen this much.
    fn saw(&mut self, session: usize, seen: usize)
        requires { session < length self.old.callers }
        ensures same { (self.new.journal ≡ self.old.journal) × (self.new.published ≡ self.old.published) }
        ensures saw { (core : CoreState M.Command M.Entry) → StandsFor M.rules core self.old
            → StandsFor M.rules (saw core session seen) self.new }
    {
        self.callers[session].seen = seen;
    }

    fn plan<L: Ledger>(
        &mut self,
        session: u32,
        command: M::Command,
        steps: &mut Steps<L>,
    ) -> Result<Seen<M::Look>, Memory>
        ensures { (core : CoreState M.Command M.Entry) → StandsFor M.rules core self.old → IfOk result
            (λ seen. StandsFor M.rules (core_step M.rules core (Plan session command)) self.new
            × IsTold M.rules (core_tells M.rules core (Plan session command)) seen) }
    {
        let session = session as usize;
        if !self.can_read(session) {
            return Ok(Seen::Idle);
        }
        let plan = M::plan(self.alloc, &self.shown, command, steps)?;
        self.callers[session] = Caller {
            seen: self.published,
            plan: Some(plan),
        };
        Ok(Seen::Planned)
    }

    fn ask<L: Ledger>(
        &mut self,
        session: u32,
        query: M::Query,
        moment: u64,
        steps: &mut Steps<L>,
    ) -> Result<Seen<M::Look>, Memory>
        ensures { (core : CoreState M.Command M.Entry) → StandsFor M.rules core self.old → IfOk result
            (λ seen. StandsFor M.rules (core_step M.rules core (Ask session query moment)) self.new
            × IsTold M.rules (core_tells M.rules core (Ask session query moment)) seen) }
    {
        let session = session as usize;
        if !self.can_read(session) {
            return Ok(Seen::Idle);
        }
        let found = M::find(self.alloc, &self.shown, &query, moment, steps)?;
        let bytes = M::tell(self.alloc, found)?;
        let published = self.published;
        self.saw(session, published);
        Ok(Seen::Answered(bytes))
    }

    // The first entry that isn't shown.
    fn next_entry(&self) -> Result<M::Entry, Memory>
        requires { self.now.published < length self.now.journal }
        ensures taken { IfOk result (λ entry. M.rules.takes (replay M.rules (take self.now.published self.now.journal)) entry ≡ true) }
        ensures item { IfOk result (λ entry. entry ≡ slice_index_or self.now.journal self.now.published entry) }
        ensures few { self.now.published + 1 < 2 ^ 64 }
    {
        self.book.journal().entry(self.alloc, self.published)
    }

    // Lets the world that is shown follow one entry more.
    fn show_next(&mut self) -> Result<(), Memory>
        requires { self.old.published < length self.old.journal }
        ensures same { (self.new.journal ≡ self.old.journal) × (self.new.callers ≡ self.old.callers) }
        ensures ok { OnOk result (self.new.published ≡ self.old.published + 1) }
    {
        let entry = self.next_entry()?;
        follow::<M>(self.alloc, &mut self.shown, entry)?;
        self.published += 1;
        Ok(())
    }

    // Whether all that is in the journal is shown.
    fn shows_all(&self) -> bool
        ensures all { IsTrue result → self.now.published ≡ length self.now.journal }
        ensures more { result ≡ false → self.now.published < length self.now.journal }
    {
        self.published >= self.book.journal().len()
    }

    fn publish(&mut self) -> Result<(), Memory>
        ensures same { (self.new.journal ≡ self.old.journal) × (self.new.callers ≡ self.old.callers) }
        ensures ok { OnOk result (self.new.published ≡ length self.old.journal) }
    {
        while !self.shows_all() {
            self.show_next()?;
        }
        Ok(())
    }

    fn freshen(&mut self, session: u32) -> Result<(), Memory>
        ensures { (core : CoreState M.Command M.Entry) → StandsFor M.rules core self.old
            → OnOk result (StandsFor M.rules (core_step M.rules core (Freshen session)) self.new) }
    {
        let session = session as usize;
        if session < self.callers.len() {
            self.publish()?;
            let published = self.published;
            self.saw(session, published);
        }
        Ok(())
    }

    fn commit<L: Ledger>(
        &mut self,
        session: u32,
        moment: u64,
        steps: &mut Steps<L>,
    ) -> Result<Seen<M::Look>, Memory>
        ensures { (core : CoreState M.Command M.Entry) → StandsFor M.rules core self.old → IfOk result
            (λ seen. StandsFor M.rules (core_step M.rules core (Commit session moment)) self.new
            × IsTold M.rules (core_tells M.rules core (Commit session moment)) seen) }
    {
        let index = session as usize;
        let Some(plan) = take_plan(&mut self.callers, index) else {
            return Ok(Seen::Idle);
        };
        let Some(call) = self.book.calls(session).checked_add(1) else {
            return Err(Memory);
        };
        let tag = Tag { session, call };
        let done = self.book.commit(plan, moment, tag, &mut NoOutlet, steps)?;
        let seen = self.book.journal().len();
        self.callers[index] = Caller { seen, plan: None };
        Ok(Seen::Committed(done))
    }

    // What the event gives.
    fn step<L: Ledger>(
        &mut self,
        event: Event<M::Command, M::Query>,
        steps: &mut Steps<L>,
    ) -> Result<Seen<M::Look>, Memory>
        ensures { (core : CoreState M.Command M.Entry) → StandsFor M.rules core self.old → IfOk result
            (λ seen. StandsFor M.rules (core_step M.rules core event) self.new × IsTold M.rules (core_tells M.rules core event) seen) }
    {
        match event {
            Event::Plan { session, command } => self.plan(session, command, steps),
            Event::Commit { session, moment } => self.commit(session, moment, steps),
            Event::Publish => {
                self.publish()?;
                Ok(Seen::Idle)
            }
            Event::Ask {
                session,
                query,
                moment,
            } => self.ask(session, query, moment, steps),
            Event::Freshen { session } => {
                self.freshen(session)?;
                Ok(Seen::Idle)
            }
        }
    }

    // Plays an event, and puts what it gives behind the replies.
    fn play_one<L: Ledger>(
        &mut self,
        event: Event<M::Command, M::Query>,
        replies: &mut Vec<Seen<M::Look>>,
        steps: &mut Steps<L>,
    ) -> Result<(), Memory>
        ensures { (core : CoreState M.Command M.Entry) → StandsFor M.rules core self.old
            → OnOk result (StandsFor M.rules (core_step M.rules core event) self.new
            × ((seen : Seen M.Look) × (replies.new.items ≡ replies.old.items ++ seen ∷ [])
            × IsTold M.rules (core_tells M.rules core event) seen)) }
    {
        let seen = self.step(event, steps)?;
        replies.push(seen)?;
        Ok(())
    }

    // What events give, one after the other.
    fn play<L: Ledger>(
        &mut self,
        events: Vec<Event<M::Command, M::Query>>,
        steps: &mut Steps<L>,
    ) -> Result<Vec<Seen<M::Look>>, Memory>
        ensures { (core : CoreState M.Command M.Entry) → StandsFor M.rules core self.old → IfOk result
            (λ replies. StandsFor M.rules (fold (core_step M.rules) core events.items) self.new
            × AreTold M.rules (all_told M.rules core events.items) replies.items) }
    {
        let mut replies = Vec::with_capacity(self.alloc, events.len())?;
        for event in events {
            self.play_one(event, &mut replies, steps)?;
        }
        Ok(replies)
    }

    // The whole journal.
    fn journal(&self) -> Result<Vec<M::Entry>, Memory>
        ensures journal { IfOk result (λ journal. journal.items ≡ self.now.journal) }
        ensures kept { IsJournal M.rules self.now.journal }
    {
        self.book.journal().all(self.alloc)
    }
}

// Applies an entry to a world, once there is room for it.
fn follow<M: Machine>(alloc: Global, world: &mut M::World, entry: M::Entry) -> Result<(), Memory>
    requires { M.rules.takes (M.state world.old) entry ≡ true }
    ensures ok { OnOk result (M.state world.new ≡ M.rules.after (M.state world.old) entry) }
    ensures err { OnErr result (M.state world.new ≡ M.state world.old) }
{
    M::make_room(alloc, world, &entry)?;
    M::apply(world, entry);
    Ok(())
}

// Takes the plan of a caller, if it is there and has one.
fn take_plan<P>(callers: &mut Vec<Caller<P>>, index: usize) -> Option<P>
    ensures { MatchOption result ((callers.new.items ≡ callers.old.items)
        × ((other : Caller P) → index < length callers.old.items → (slice_index_or callers.old.items index other).plan ≡ None))
        (λ plan. (index < length callers.old.items)
        × ((old : Caller P) × (old ≡ slice_index_or callers.old.items index old) × (old.plan ≡ Some plan)
        × (callers.new.items ≡ slice_set callers.old.items index (record old { plan = None })))) }
{
    if index >= callers.len() || callers[index].plan.is_none() {
        return None;
    }
    callers[index].plan.take()
}

/// The journal and the replies of a whole run, one reply for each event.
#[derive(Drop)]
pub struct Run<E, K> {
    pub journal: Vec<E>,
    pub replies: Vec<Seen<K>>,
}

/// What events give, one after the other, for sessions with the numbers from 0 on. An event of a
/// session that isn't there is idle. `Memory` is the only error.
pub fn interleave<M: Machine, L: Ledger>(
    alloc: Global,
    sessions: u32,
    events: Vec<Event<M::Command, M::Query>>,
    steps: &mut Steps<L>,
) -> Result<Run<M::Entry, M::Look>, Memory>
    ensures journal { IfOk result (λ run. run.journal.items ≡ (core_after M.rules sessions events.items).journal) }
    ensures replies { IfOk result (λ run. AreTold M.rules (all_told M.rules (core_start sessions) events.items) run.replies.items) }
    ensures kept { IfOk result (λ run. IsJournal M.rules run.journal.items) }
{
    let mut core = Core::<M>::new(alloc, sessions)?;
    let replies = core.play(events, steps)?;
    Ok(Run {
        journal: core.journal()?,
        replies,
    })
}
