//! The end of a hub.
//!
//! An end is never want of memory. The closer has the whole journal and takes no look at a copy,
//! so `Unmatched` tells the length of the journal.
ghost use Rattle.std.specs.Prelude.{◌≡◌, ◌+◌, ◌≤◌, ◌<◌, length};
ghost use Rattle.std.specs.List.{AllByRecursion};
ghost use mathlib.Core.List.{IsPrefix};
ghost use Rattle.hub_core.specs.Journal.{calls_of, IsJournal};
ghost use Rattle.snapshot_hub.specs.Known.{seeing, owed};
ghost use Rattle.snapshot_hub.specs.Closings.{close, AreSeated, EachOnce, IsFront};
ghost use Rattle.snapshot_hub.specs.Closed.{HasAllOf};
ghost use Rattle.snapshot_hub.specs.Ends.{noting, MatchEnd};

use crate::ends::{End, EndList};
use crate::held::Held;
use crate::session::Session;
use crate::snapshot::Snapshot;
use hub_core::Entries;
use machine_law::Machine;
use shared_front::{Front, HubName};
use std::marker::Model;
use std::sync::Wait;

/// A hub that takes no more commits. Contracts see its journal, and how its sessions ended so far.
///
/// It borrows the hub: generic code can't pass on what holds a writer of `left_right`.
#[derive(Drop)]
pub struct Closer<'a, N: HubName, M: Machine, S: Snapshot<N, M>, R: Wait + Drop> {
    pub(crate) held: &'a Held<N, M, S, R>,
    pub(crate) ends: EndList,
}

impl<'a, N: HubName, M: Machine, S: Snapshot<N, M>, R: Wait + Drop> Model
    for Closer<'a, N, M, S, R> {
    ghost use Rattle.snapshot_hub.specs.Closings.{Close, close};

    ghost Value = { Close M.Entry };

    ghost view = { λ c. close c.held.now.journal c.ends };
}

/// What a hub leaves: its journal, and how its sessions ended, in the order of the calls.
#[derive(Drop)]
pub struct Closing<'a, M: Machine> {
    pub journal: Entries<'a, M>,
    pub ends: &'a [End],
}

impl<'a, N: HubName, M: Machine, S: Snapshot<N, M>, R: Wait + Drop> Closer<'a, N, M, S, R> {
    /// Lets a session see the whole journal, unless it has seen more, and notes how it ended.
    pub fn end(&mut self, session: &mut Session<N, M, S>) -> End
        requires { length self.old.ends.told < self.old.ends.sessions }
        ensures noted { self.new ≡ close self.old.journal (noting self.old.ends result) }
        ensures told { MatchEnd result ((session.new ≡ seeing session.old self.old.journal) × IsPrefix session.old.front self.old.journal)
            (λ seen journal. (session.new ≡ session.old) × (seen ≡ length session.old.front) × (journal ≡ length self.old.journal)
            × (journal < seen) × IsPrefix self.old.journal session.old.front) }
        ensures calls { MatchEnd result (session.old.calls ≤ calls_of M.rules.tag_of session.old.number self.old.journal + owed session.old.owes)
            (λ seen journal. Unit {0}) }
    {
        let end = match_journal(self.held, session);
        self.ends.note(end);
        end
    }

    /// The front of the journal.
    pub fn front(&self) -> &Front<N, M::Entry>
        ensures front { result.now ≡ self.now.journal }
        ensures kept { IsFront M.rules N.sessions self.now.journal }
    {
        self.held.front()
    }

    /// The journal, and the ends. It takes no memory.
    pub fn done(&self) -> Closing<'_, M>
        ensures journal { result.journal ≡ self.now.journal }
        ensures ends { result.ends.now ≡ self.now.ends.told }
        ensures kept { IsJournal M.rules self.now.journal }
        ensures once { EachOnce M.rules.tag_of self.now.journal }
        ensures seated { AreSeated M.rules.tag_of N.sessions self.now.journal }
    {
        Closing {
            journal: self.held.journal(),
            ends: self.ends.as_slice(),
        }
    }
}

// Lets a session see the whole journal, unless it has seen more.
fn match_journal<N: HubName, M: Machine, S: Snapshot<N, M>, R: Wait + Drop>(
    held: &Held<N, M, S, R>,
    session: &mut Session<N, M, S>,
) -> End
    ensures told { MatchEnd result ((session.new ≡ seeing session.old held.now.journal) × IsPrefix session.old.front held.now.journal)
        (λ seen journal. (session.new ≡ session.old) × (seen ≡ length session.old.front) × (journal ≡ length held.now.journal)
        × (journal < seen) × IsPrefix held.now.journal session.old.front) }
    ensures calls { MatchEnd result (session.old.calls ≤ calls_of M.rules.tag_of session.old.number held.now.journal + owed session.old.owes)
        (λ seen journal. Unit {0}) }
{
    session.standing.law();
    let journal = held.front();
    if !session.standing.front().begins(journal) {
        let _begins = journal.begins(session.standing.front());
        return End::Unmatched {
            seen: session.seen(),
            journal: journal.len(),
        };
    }
    session.standing.see(journal.again());
    End::Matched
}

// Waits until the journal has all that the session saw, and just as many calls as it made. It has at
// once: no run has shown otherwise.
fn await_session<N: HubName, M: Machine, S: Snapshot<N, M>, R: Wait + Drop, W: Wait>(
    rt: &W,
    held: &Held<N, M, S, R>,
    session: &Session<N, M, S>,
)
    ensures { HasAllOf M.rules held.now.journal session.now }
{
    for _ in rt.forever() {
        if held.serves(session) && session.front().begins(held.front()) {
            return;
        }
    }
    unreachable!()
}

// The same of each of these sessions.
pub(crate) fn await_all<N: HubName, M: Machine, S: Snapshot<N, M>, R: Wait + Drop, W: Wait>(
    rt: &W,
    held: &Held<N, M, S, R>,
    sessions: &[Session<N, M, S>],
)
    ensures { AllByRecursion (HasAllOf M.rules held.now.journal) sessions.now }
{
    for session in sessions {
        await_session(rt, held, session);
    }
}
