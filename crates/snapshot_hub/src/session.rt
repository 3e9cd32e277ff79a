//! A session of a hub, and what it does without the lock.
//!
//! `Session::ask` and `Session::plan` take no hub. The reader's guard is the session's own, so
//! neither can wait for the lock. `plan` takes the gate that is told of it. Both take the count of
//! steps, as the machine does.
ghost use Rattle.std.specs.Prelude.{◌≡◌, ◌<◌, ◌+◌, ◌≤◌, [], false, length, IfOk, IsTrue, ◌↔◌, List};
ghost use mathlib.Core.List.{IsPrefix};
ghost use Rattle.machine_law.specs.Rules.{replay};
ghost use Rattle.hub_core.specs.Journal.{calls_of};
ghost use Rattle.snapshot_hub.specs.Known.{returner, seeing, IsKnown};
ghost use Rattle.snapshot_hub.specs.Closings.{IsFront};

use crate::snapshot::Snapshot;
use crate::standing::Standing;
use left_right::ReadHandle;
use machine_law::Machine;
use osm_base::{Bytes, Memory, Steps};
use osm_outside::{Gate, Point};
use shared_front::{Front, HubName};
use std::alloc::Global;
use std::marker::Model;
use std::sync::ledger::Ledger;

/// What may be read off a world that is no query of its machine, as how far it has come.
pub trait Reading<M: Machine> {
    /// What is read.
    type Read;

    // What it is on each state.
    ghost of: { M.State → Self.Read };

    /// Reads it. It takes no memory.
    fn read(world: &M::World) -> Self::Read
        ensures { result ≡ of (M.state world.now) };
}

/// One caller of a hub, with its own place among the readers. Contracts see it as what it knows.
///
/// It asks and plans on the copy that is published, and waits for nobody.
#[derive(Drop)]
pub struct Session<N: HubName, M: Machine, S: Snapshot<N, M>> {
    pub(crate) alloc: Global,
    reader: ReadHandle<S>,
    pub(crate) standing: Standing<N, M>,
}

impl<N: HubName, M: Machine, S: Snapshot<N, M>> Model for Session<N, M, S> {
    ghost use Rattle.snapshot_hub.specs.Known.{Known};

    ghost Value = { Known M.Entry };

    ghost view = { λ s. s.standing };
}

impl<N: HubName, M: Machine, S: Snapshot<N, M>> Session<N, M, S> {
    // The session of that number, which takes up the calls that this front has of it.
    pub(crate) fn at(
        alloc: Global,
        number: u32,
        reader: ReadHandle<S>,
        front: Front<N, M::Entry>,
        calls: u64,
    ) -> Session<N, M, S>
        requires seat { number < N.sessions }
        requires kept { IsFront M.rules N.sessions front }
        requires calls { calls ≡ calls_of M.rules.tag_of number front }
        ensures { result ≡ returner number front calls }
    {
        Session {
            alloc,
            reader,
            standing: Standing::at(number, front, calls),
        }
    }

    /// Its number, from 0.
    pub fn number(&self) -> u32
        ensures { result ≡ self.now.number }
    {
        self.standing.number()
    }

    /// How many entries of the journal it has seen.
    pub fn seen(&self) -> u64
        ensures { result ≡ length self.now.front }
    {
        self.standing.front().len()
    }

    /// The beginning of the journal that it has seen.
    pub fn front(&self) -> &Front<N, M::Entry>
        ensures { result.now ≡ self.now.front }
    {
        self.standing.front()
    }

    /// How many call numbers it has used.
    pub fn calls(&self) -> u64
        ensures { result ≡ self.now.calls }
    {
        self.standing.calls()
    }

    /// Whether its last commit stands in the journal and isn't published.
    pub fn owes(&self) -> bool
        ensures { result ≡ self.now.owes }
    {
        self.standing.owes()
    }

    /// How often it owed.
    pub fn debts(&self) -> u64
        ensures { result ≡ self.now.debts }
    {
        self.standing.debts()
    }

    /// Whether another session of the hub has seen all that this one has. It has exactly where its
    /// front is no shorter: the fronts of all sessions begin one list.
    pub fn begins(&self, other: &Session<N, M, S>) -> bool
        ensures shorter { IsTrue result ↔ (length self.now.front ≤ length other.now.front) }
        ensures begins { IsTrue result → IsPrefix self.now.front other.now.front }
    {
        self.standing.front().begins(other.standing.front())
    }

    /// A law: what holds of each session.
    pub fn law(&self)
        ensures known { IsKnown M.rules self.now }
        ensures seat { self.now.number < N.sessions }
        ensures front { IsFront M.rules N.sessions self.now.front }
        ensures consistent { (point : List M.Entry) → IsPrefix point self.now.front → M.rules.consistent (replay M.rules point) }
    {
        self.standing.law();
    }

    /// The reply after the entries that are then published. They begin with all that was seen before,
    /// and are seen then.
    pub fn ask<L: Ledger>(
        &mut self,
        query: &M::Query,
        moment: u64,
        steps: &mut Steps<L>,
    ) -> Result<Bytes, Memory>
        requires settled { self.old.owes ≡ false }
        ensures begins { IsPrefix self.old.front self.new.front }
        ensures reply { IfOk result (λ bytes. bytes ≡ M.rules.reply (replay M.rules self.new.front) query.now moment) }
        ensures same { self.new ≡ seeing self.old self.new.front }
    {
        let found = self.find_published(query, moment, steps)?;
        M::tell(self.alloc, found)
    }

    // What the query finds, while the reader's guard is held: who publishes waits for that, and not for
    // the answer's bytes.
    fn find_published<L: Ledger>(
        &mut self,
        query: &M::Query,
        moment: u64,
        steps: &mut Steps<L>,
    ) -> Result<M::Found, Memory>
        ensures begins { IsPrefix self.old.front self.new.front }
        ensures found { IfOk result (λ found. M.told found ≡ M.rules.reply (replay M.rules self.new.front) query.now moment) }
        ensures same { self.new ≡ seeing self.old self.new.front }
    {
        let Some(reading) = self.reader.enter() else {
            return Err(Memory);
        };
        let shown: &S = &reading;
        if !self.standing.front().begins(shown.front()) {
            return Err(Memory);
        }
        self.standing.see(shown.front().again());
        M::find(self.alloc, shown.world(), query, moment, steps)
    }

    /// What is read off the world after the entries that are then published. They begin with all that
    /// was seen before, and are seen then. What the session owes isn't among them.
    pub fn read<V: Reading<M>>(&mut self) -> Result<V::Read, Memory>
        ensures begins { IsPrefix self.old.front self.new.front }
        ensures read { IfOk result (λ r. r ≡ V.of (replay M.rules self.new.front)) }
        ensures same { self.new ≡ seeing self.old self.new.front }
    {
        let Some(reading) = self.reader.enter() else {
            return Err(Memory);
        };
        let shown: &S = &reading;
        if !self.standing.front().begins(shown.front()) {
            return Err(Memory);
        }
        self.standing.see(shown.front().again());
        Ok(V::read(shown.world()))
    }

    /// A plan made after the entries that are then published. They begin with all that was seen
    /// before, and are seen then.
    pub fn plan<G: Gate, L: Ledger>(
        &mut self,
        gate: &G,
        command: M::Command,
        steps: &mut Steps<L>,
    ) -> Result<M::Plan, Memory>
        requires settled { self.old.owes ≡ false }
        ensures begins { IsPrefix self.old.front self.new.front }
        ensures planned { IfOk result (λ plan. M.rules.planned (replay M.rules self.new.front) command plan) }
        ensures same { self.new ≡ seeing self.old self.new.front }
    {
        let plan = self.plan_published(command, steps)?;
        gate.at(Point::Planned {
            session: self.standing.number(),
        });
        Ok(plan)
    }

    // The same, while the reader's guard is held.
    fn plan_published<L: Ledger>(
        &mut self,
        command: M::Command,
        steps: &mut Steps<L>,
    ) -> Result<M::Plan, Memory>
        ensures begins { IsPrefix self.old.front self.new.front }
        ensures planned { IfOk result (λ plan. M.rules.planned (replay M.rules self.new.front) command plan) }
        ensures same { self.new ≡ seeing self.old self.new.front }
    {
        let Some(reading) = self.reader.enter() else {
            return Err(Memory);
        };
        let base: &S = &reading;
        if !self.standing.front().begins(base.front()) {
            return Err(Memory);
        }
        self.standing.see(base.front().again());
        M::plan(self.alloc, base.world(), command, steps)
    }
}
