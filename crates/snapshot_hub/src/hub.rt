//! The held value under its lock.
//!
//! A part of the journal is copied under the lock, before it is published. A session's front tells
//! how many entries it has seen and holds none of them, so copies come from the journal. They come
//! first, so that want of memory leaves the session and what is published as they were. No more is
//! copied than is asked for.
ghost use Rattle.std.specs.Prelude.{◌≡◌, ℕ, ◌⊎◌, ◌+◌, ◌≤◌, ◌<◌, [], Some, None, false, true, length, vec_len, List, IfOk, OnOk, OnErr, IfSome, slice_get, take, drop};
ghost use Rattle.std.specs.Sync.Mutex.{mutex_guard_value};
ghost use mathlib.Core.List.{IsPrefix};
ghost use Rattle.hub_core.specs.Journal.{calls_of, IsMadeBefore};
ghost use Rattle.hub_core.specs.Paths.{MatchPath};
ghost use Rattle.snapshot_hub.specs.Known.{newcomer, returner, caught_up};
ghost use Rattle.snapshot_hub.specs.Ends.{Ends};
ghost use Rattle.snapshot_hub.specs.Closings.{AreSeated};
ghost use Rattle.snapshot_hub.specs.Closed.{HasClosed};
ghost use Rattle.snapshot_hub.specs.Commits.{count_of, IsCommitted, IsOwing};

use crate::closing::{Closer, await_all};
use crate::ends::EndList;
use crate::held;
use crate::held::Held;
use crate::seats::Seats;
use crate::session::Session;
use crate::snapshot::Snapshot;
use crate::twins::Twins;
use hub_core::{CountedJournal, Done};
use machine_law::Machine;
use osm_base::{Memory, Steps};
use osm_outside::{Gate, Point};
use shared_front::{FoundFront, HubName};
use std::alloc::Global;
use std::marker::Model;
use std::sync::ledger::Ledger;
use std::sync::{Mutex, MutexGuard, Wait};

/// A journal that several sessions commit to, under one lock. Contracts see the list for how its
/// sessions will end, until it is closed: what lies under a lock is known by its type alone.
#[derive(Drop)]
pub struct Hub<N: HubName, M: Machine, S: Snapshot<N, M>, G: Gate + Drop, R: Wait + Drop> {
    held: Mutex<Held<N, M, S, R>>,
    gate: G,
    ends: Option<EndList>,
}

impl<N: HubName, M: Machine, S: Snapshot<N, M>, G: Gate + Drop, R: Wait + Drop> Model
    for Hub<N, M, S, G, R> {
    ghost use Rattle.std.specs.Prelude.{Option};
    ghost use Rattle.snapshot_hub.specs.Ends.{Ends};

    ghost Value = { Option Ends };

    ghost view = { λ h. h.ends };
}

impl<N: HubName, M: Machine, S: Snapshot<N, M>, G: Gate + Drop, R: Wait + Drop> Hub<N, M, S, G, R> {
    /// A hub with an empty journal under the name of these seats, and its sessions in the order of their numbers.
    pub fn new(
        alloc: Global,
        rt: R,
        seats: Seats<M::Entry>,
        gate: G,
    ) -> Result<(Hub<N, M, S, G, R>, Vec<Session<N, M, S>>), Memory>
        requires named { seats.opened ≡ N.book }
        requires seated { seats.sessions ≡ N.sessions }
        ensures hub { IfOk result (λ r. r.0 ≡ Some (record { told = []; sessions = seats.sessions })) }
        ensures count { IfOk result (λ r. length r.1.items ≡ seats.sessions) }
        ensures fresh { IfOk result (λ r. (number : ℕ) → IfSome (slice_get r.1.items number) (λ s. s ≡ newcomer number)) }
    {
        let journal = CountedJournal::new(alloc);
        let twins = Twins::of(journal, M::empty(alloc), M::empty(alloc));
        Hub::begin(alloc, rt, seats, gate, twins)
    }

    /// A hub that goes on from the journal of twins, all of it published, under the name of these seats,
    /// and its sessions in the order of their numbers. Each takes up the calls that the journal has of it.
    /// The worlds of the twins are those of the two copies.
    pub fn begin(
        alloc: Global,
        rt: R,
        seats: Seats<M::Entry>,
        gate: G,
        twins: Twins<M>,
    ) -> Result<(Hub<N, M, S, G, R>, Vec<Session<N, M, S>>), Memory>
        requires named { seats.opened ≡ N.book }
        requires seated { seats.sessions ≡ N.sessions }
        // The journal has entries of these sessions alone, so its closing journal has so too.
        requires own { AreSeated M.rules.tag_of N.sessions twins }
        ensures hub { IfOk result (λ r. r.0 ≡ Some (record { told = []; sessions = seats.sessions })) }
        ensures count { IfOk result (λ r. length r.1.items ≡ seats.sessions) }
        ensures back { IfOk result (λ r. (number : ℕ) → IfSome (slice_get r.1.items number) (λ s. s ≡ returner number twins (calls_of M.rules.tag_of number twins))) }
    {
        let ends = EndList::new(alloc, seats.sessions)?;
        let (held, sessions) = held::begin(alloc, rt, seats, twins)?;
        let hub = Hub {
            held: Mutex::new(held),
            gate,
            ends: Some(ends),
        };
        Ok((hub, sessions))
    }

    /// What is told of the points of its sessions.
    pub fn gate(&self) -> &G {
        &self.gate
    }

    // The value under the lock, once it has all that the session saw and did. Where it hasn't, the
    // lock is let go and taken again, which no run has shown.
    fn lock_for<W: Wait>(
        &self,
        rt: &W,
        session: &Session<N, M, S>,
    ) -> MutexGuard<'_, Held<N, M, S, R>>
        ensures seen { length session.now.front ≤ length (mutex_guard_value result).journal }
        ensures calls { session.now.calls ≡ calls_of M.rules.tag_of session.now.number (mutex_guard_value result).journal }
    {
        for _ in rt.forever() {
            let held = self.held.lock(rt);
            if held.serves(session) {
                return held;
            }
        }
        unreachable!()
    }

    /// Commits the plan to the journal that is found under the lock, publishes that, and lets the
    /// session see it. Where only the publishing finds no memory the commit stands, the answer is
    /// `Memory`, and the session owes.
    pub fn commit<W: Wait, L: Ledger>(
        &self,
        rt: &W,
        session: &mut Session<N, M, S>,
        plan: M::Plan,
        moment: u64,
        steps: &mut Steps<L>,
    ) -> Result<Done<M::Look>, Memory>
        requires made { IsMadeBefore M.rules plan session.old.front }
        requires settled { session.old.owes ≡ false }
        ensures begins { IsPrefix session.old.front session.new.front }
        ensures done { IfOk result (λ done. (found : List M.Entry) × IsCommitted M.rules session.old plan moment done found session.new.front) }
        ensures known { IfOk result (λ done. session.new ≡ caught_up session.old session.new.front (session.old.calls + count_of done.place)) }
        ensures fast { IfOk result (λ done. MatchPath done.path (steps.new ≡ steps.old) (λ look. Unit {0})) }
        ensures err { OnErr result ((session.new ≡ session.old) ⊎ IsOwing session.old session.new) }
    {
        let done = self.commit_locked(rt, session, plan, moment, steps)?;
        self.gate.at(Point::Committed {
            session: session.number(),
        });
        Ok(done)
    }

    // The same, with the lock held. A plan is judged on the world that is published, so what others
    // owe is published first.
    fn commit_locked<W: Wait, L: Ledger>(
        &self,
        rt: &W,
        session: &mut Session<N, M, S>,
        plan: M::Plan,
        moment: u64,
        steps: &mut Steps<L>,
    ) -> Result<Done<M::Look>, Memory>
        requires made { IsMadeBefore M.rules plan session.old.front }
        requires settled { session.old.owes ≡ false }
        ensures begins { IsPrefix session.old.front session.new.front }
        ensures done { IfOk result (λ done. (found : List M.Entry) × IsCommitted M.rules session.old plan moment done found session.new.front) }
        ensures known { IfOk result (λ done. session.new ≡ caught_up session.old session.new.front (session.old.calls + count_of done.place)) }
        ensures fast { IfOk result (λ done. MatchPath done.path (steps.new ≡ steps.old) (λ look. Unit {0})) }
        ensures err { OnErr result ((session.new ≡ session.old) ⊎ IsOwing session.old session.new) }
    {
        let mut held = self.lock_for(rt, session);
        held.publish()?;
        let done = held::commit(&mut held, session, plan, moment, steps)?;
        if session.owes() {
            return Err(Memory);
        }
        Ok(done)
    }

    /// Publishes the journal that is found under the lock, and lets the session see it. Clauses say what
    /// the session knows then: it owes nothing, its front has all its calls, and is what was found.
    pub fn freshen<W: Wait>(
        &self,
        rt: &W,
        session: &mut Session<N, M, S>,
    ) -> Result<FoundFront<N, M::Entry>, Memory>
        ensures begins { IsPrefix session.old.front session.new.front }
        ensures found { IfOk result (λ found. found ≡ session.new.front) }
        ensures ok { OnOk result (session.new ≡ caught_up session.old session.new.front session.old.calls) }
        ensures calls { OnOk result (session.old.calls ≡ calls_of M.rules.tag_of session.old.number session.new.front) }
        ensures err { OnErr result (session.new ≡ session.old) }
    {
        let mut held = self.lock_for(rt, session);
        held::freshen(&mut held, session)
    }

    /// Freshens the session, and copies the entries of its front from this place on, counted from 0:
    /// at most so many, and fewer where the front ends. Only these are copied while the lock is held.
    pub fn part<W: Wait>(
        &self,
        rt: &W,
        session: &mut Session<N, M, S>,
        from: u64,
        count: u64,
    ) -> Result<Vec<M::Entry>, Memory>
        ensures part { IfOk result (λ part. part.items ≡ take count (drop from session.new.front)) }
        ensures begins { IsPrefix session.old.front session.new.front }
        ensures ok { OnOk result (session.new ≡ caught_up session.old session.new.front session.old.calls) }
        ensures calls { OnOk result (session.old.calls ≡ calls_of M.rules.tag_of session.old.number session.new.front) }
        ensures err { OnErr result (session.new ≡ session.old) }
    {
        let mut held = self.lock_for(rt, session);
        held::part(&mut held, session, from, count)
    }

    /// Ends the commits of the hub, once no thread shares it. It takes no memory.
    pub fn close(&mut self) -> Closer<'_, N, M, S, R>
        requires { (ends : Ends) × (self.old ≡ Some ends) }
        ensures { self.old ≡ Some result.ends }
    {
        let Hub {
            held,
            gate: _,
            ends,
        } = self;
        let Some(ends) = ends.take() else {
            unreachable!()
        };
        Closer {
            held: held.get_mut(),
            ends,
        }
    }

    /// Ends the commits of the hub, once no thread shares it. Its journal has all that these sessions of
    /// it saw, and just their calls. Where it hasn't, this waits for ever, which no run has shown. It
    /// takes no memory.
    pub fn close_with<W: Wait>(&mut self, rt: &W, sessions: &[Session<N, M, S>])
        requires { (ends : Ends) × (self.old ≡ Some ends) }
        ensures closed { self.new ≡ None }
        ensures ended { HasClosed M.rules N.sessions sessions.now [] }
    {
        let Hub {
            held,
            gate: _,
            ends,
        } = self;
        let Some(_left) = ends.take() else {
            unreachable!()
        };
        let held = held.get_mut();
        let _one = held.front();
        await_all(rt, held, sessions);
    }

    /// The same, of the sessions that were used and of spare ones.
    pub fn close_with_spare<W: Wait>(
        &mut self,
        rt: &W,
        sessions: &[Session<N, M, S>],
        spare: &[Session<N, M, S>],
    )
        requires { (ends : Ends) × (self.old ≡ Some ends) }
        ensures closed { self.new ≡ None }
        ensures ended { HasClosed M.rules N.sessions sessions.now spare.now }
    {
        let Hub {
            held,
            gate: _,
            ends,
        } = self;
        let Some(_left) = ends.take() else {
            unreachable!()
        };
        let held = held.get_mut();
        let _one = held.front();
        await_all(rt, held, sessions);
        await_all(rt, held, spare);
    }
}
