//! Where a session stands: all of it but its place among the readers.
//!
//! A session's standing is one record (number, front, calls, owes, debts, anchor), and each call
//! says by one equation what it made of it: what it doesn't name stays.
ghost use Rattle.std.specs.Prelude.{◌≡◌, ◌⊎◌, ◌+◌, ◌<◌, ◌^◌, [], true, false, length};
ghost use mathlib.Core.List.{IsPrefix};
ghost use Rattle.hub_core.specs.Journal.{calls_of};
ghost use Rattle.snapshot_hub.specs.Known.{returner, seeing, caught_up, owing, IsKnown};
ghost use Rattle.snapshot_hub.specs.Closings.{IsFront};

use machine_law::Machine;
use shared_front::{Front, HubName};
use std::marker::Model;

/// Where a session stands. Contracts see it as what the session knows.
#[derive(Drop)]
pub struct Standing<N: HubName, M: Machine> {
    number: u32,
    front: Front<N, M::Entry>,
    calls: u64,
    owes: bool,
    debts: u64,
    anchor: u64,
}

impl<N: HubName, M: Machine> Model for Standing<N, M> {
    ghost use Rattle.std.specs.Prelude.{◌<◌};
    ghost use Rattle.snapshot_hub.specs.Known.{Known, known, IsKnown};
    ghost use Rattle.snapshot_hub.specs.Closings.{IsFront};

    ghost Value = { Known M.Entry };

    ghost view = { λ s. known s.number s.front s.calls s.owes s.debts s.anchor };

    ghost invariant = { λ s. IsKnown M.rules (known s.number s.front s.calls s.owes s.debts s.anchor) × (s.number < N.sessions)
        × IsFront M.rules N.sessions s.front };
}

impl<N: HubName, M: Machine> Standing<N, M> {
    /// The standing of a session that takes up the calls that this front has of its number.
    pub fn at(number: u32, front: Front<N, M::Entry>, calls: u64) -> Standing<N, M>
        requires seat { number < N.sessions }
        requires kept { IsFront M.rules N.sessions front }
        requires calls { calls ≡ calls_of M.rules.tag_of number front }
        ensures { result ≡ returner number front calls }
    {
        Standing {
            number,
            anchor: front.len(),
            front,
            calls,
            owes: false,
            debts: 0,
        }
    }

    pub fn number(&self) -> u32
        ensures { result ≡ self.now.number }
    {
        self.number
    }

    pub fn front(&self) -> &Front<N, M::Entry>
        ensures { result.now ≡ self.now.front }
    {
        &self.front
    }

    pub fn calls(&self) -> u64
        ensures { result ≡ self.now.calls }
    {
        self.calls
    }

    pub fn owes(&self) -> bool
        ensures { result ≡ self.now.owes }
    {
        self.owes
    }

    pub fn debts(&self) -> u64
        ensures { result ≡ self.now.debts }
    {
        self.debts
    }

    /// A law: what holds of each standing.
    pub fn law(&self)
        ensures known { IsKnown M.rules self.now }
        ensures seat { self.now.number < N.sessions }
        ensures front { IsFront M.rules N.sessions self.now.front }
    {
        let _number = self.number;
    }

    /// Lets it see a longer front.
    pub fn see(&mut self, front: Front<N, M::Entry>)
        requires longer { IsPrefix self.old.front front }
        requires kept { IsFront M.rules N.sessions front }
        ensures { self.new ≡ seeing self.old front }
    {
        self.front = front;
    }

    /// Lets it go on from a front that has all its calls. It owes nothing then.
    pub fn catch_up(&mut self, front: Front<N, M::Entry>, calls: u64)
        requires kept { IsFront M.rules N.sessions front }
        requires calls { calls ≡ calls_of M.rules.tag_of self.old.number front }
        ensures { self.new ≡ caught_up self.old front calls }
    {
        self.anchor = front.len();
        self.front = front;
        self.calls = calls;
        self.owes = false;
    }

    /// Lets it owe a commit that stands and isn't published.
    pub fn owe(&mut self, calls: u64)
        requires settled { self.old.owes ≡ false }
        requires raised { (calls ≡ self.old.calls) ⊎ (calls ≡ self.old.calls + 1) }
        requires room { self.old.debts + 1 < 2 ^ 64 }
        ensures { self.new ≡ owing self.old calls }
    {
        self.calls = calls;
        self.owes = true;
        self.debts += 1;
    }
}
