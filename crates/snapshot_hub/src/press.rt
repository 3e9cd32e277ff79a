//! Where entries are added to the journal, and published.
ghost use Rattle.std.specs.Prelude.{◌≡◌, ◌++◌, ◌∷◌, [], ◌<◌, ◌^◌, None, IfOk, OnOk, MatchResult};
ghost use Rattle.left_right.specs.Handles.{published, pending};
ghost use Rattle.machine_law.specs.Rules.{replay};
ghost use Rattle.snapshot_hub.specs.Closings.{IsFront};
ghost use Rattle.snapshot_hub.specs.Editions.{edition, listed};

use crate::snapshot::Snapshot;
use crate::step::Step;
use hub_core::{Entries, Outlet};
use left_right::{ReadHandle, WriteHandle};
use machine_law::Machine;
use osm_base::Memory;
use shared_front::{FoundFront, Front, HubName, Tail};
use std::alloc::Global;
use std::marker::Model;
use std::sync::Wait;

/// The most entries that a journal takes.
const MOST: u64 = 1 << 62;

/// The end of the journal, and the writer of the copies. Contracts see it as the journal and the part
/// of it that is published.
#[derive(Drop)]
pub struct Press<N: HubName, M: Machine, S: Snapshot<N, M>, R: Wait + Drop> {
    tail: Tail<N, M::Entry>,
    front: Front<N, M::Entry>,
    /// The last step, where the writer doesn't have it yet.
    waiting: Option<Step<N, M>>,
    writer: WriteHandle<S, Step<N, M>, R>,
}

impl<N: HubName, M: Machine, S: Snapshot<N, M>, R: Wait + Drop> Model for Press<N, M, S, R> {
    ghost use Rattle.left_right.specs.Handles.{published, pending};
    ghost use Rattle.std.specs.Prelude.{◌≡◌, ◌++◌, fold};
    ghost use Rattle.snapshot_hub.specs.Closings.{IsFront};
    ghost use Rattle.snapshot_hub.specs.Follow.{follow};
    ghost use Rattle.snapshot_hub.specs.Editions.{Edition, edition, listed};

    ghost Value = { Edition M.Entry };

    ghost view = { λ p. edition p.front (S.entries (published p.writer)) };

    ghost invariant = { λ p. IsFront M.rules N.sessions p.front
        × (fold (follow M.rules) (S.entries (published p.writer)) (pending p.writer ++ listed p.waiting) ≡ p.front) };
}

impl<N: HubName, M: Machine, S: Snapshot<N, M>, R: Wait + Drop> Press<N, M, S, R> {
    /// A journal of these worlds, all of it published, with room for so many readers. Each world is that
    /// of a copy.
    pub fn begin(
        alloc: Global,
        rt: R,
        seat: (Tail<N, M::Entry>, Front<N, M::Entry>),
        entries: &Entries<'_, M>,
        worlds: (M::World, M::World),
        readers: usize,
    ) -> Result<Press<N, M, S, R>, Memory>
        requires readers { (0 < readers) × (readers < 2 ^ 32) }
        requires empty { seat.1 ≡ [] }
        requires kept { IsFront M.rules N.sessions entries.now }
        requires first { M.state worlds.0 ≡ replay M.rules entries.now }
        requires second { M.state worlds.1 ≡ replay M.rules entries.now }
        ensures { IfOk result (λ p. p ≡ edition entries.now entries.now) }
    {
        let (tail, mut front) = seat;
        add_all(alloc, &tail, &mut front, entries)?;
        let (first, second) = worlds;
        let first = S::of_world(alloc, first, &front);
        let second = S::of_world(alloc, second, &front);
        let writer = WriteHandle::new(alloc, rt, first, second, readers)?;
        Ok(Press {
            tail,
            front,
            waiting: None,
            writer,
        })
    }

    /// A place among the readers. `Memory` comes too where each is in use.
    pub fn reader(&self) -> Result<ReadHandle<S>, Memory> {
        Ok(self.writer.handle()?)
    }

    /// The front of the whole journal.
    pub fn front(&self) -> &Front<N, M::Entry>
        ensures front { result.now ≡ self.now.journal }
        ensures kept { IsFront M.rules N.sessions self.now.journal }
    {
        &self.front
    }

    /// The same front, told where the journal's end is.
    pub fn found(&self) -> FoundFront<N, M::Entry>
        ensures { result ≡ self.now.journal }
    {
        self.tail.tell(&self.front)
    }

    /// The copy that is published.
    pub fn shown(&self) -> &S
        ensures { S.entries result.now ≡ self.now.published }
    {
        self.writer.published()
    }

    /// Publishes the journal, which waits for those who read the copy before, but not where nothing
    /// is new. `Memory` leaves what was published.
    pub fn publish(&mut self) -> Result<(), Memory>
        ensures { MatchResult result (λ _. self.new ≡ edition self.old.journal self.old.journal) (λ _. self.new ≡ self.old) }
    {
        hand_over(&mut self.waiting, &mut self.writer)?;
        self.writer.flush()?;
        Ok(())
    }
}

impl<N: HubName, M: Machine, S: Snapshot<N, M>, R: Wait + Drop> Outlet<M::Entry>
    for Press<N, M, S, R> {
    ghost use Rattle.std.specs.Prelude.{◌≡◌, ◌+◌, ◌<◌, ◌++◌, ◌∷◌, [], true, Some, refl};
    ghost use Rattle.hub_core.specs.Journal.{calls_of};
    ghost use Rattle.std.proofs.Common.{ap};
    ghost use Rattle.machine_law.specs.Rules.{replay};
    ghost use Rattle.snapshot_hub.specs.Editions.{edition};

    ghost holds = { λ press. Some press.journal };

    ghost welcomes = { λ press entry. (M.rules.takes (replay M.rules press.journal) entry ≡ true)
        × ((M.rules.tag_of entry).call ≡ calls_of M.rules.tag_of (M.rules.tag_of entry).session press.journal + 1)
        × ((M.rules.tag_of entry).session < N.sessions) };

    ghost offered = { λ before entry after. after ≡ edition (before.journal ++ entry ∷ []) before.published };

    ghost kept = { λ before after. after ≡ before };

    // The list can't be made shorter again, so nothing may fail once the entry is added: the step
    // before is handed over first, and this one waits in its place.
    fn offer(&mut self, entry: M::Entry) -> Result<(), Memory> {
        if self.front.len() >= MOST {
            return Err(Memory);
        }
        hand_over(&mut self.waiting, &mut self.writer)?;
        let mut front = self.front.again();
        if !front.add(&self.tail, &entry) {
            return Err(Memory);
        }
        self.waiting = Some(Step::new(entry, &front));
        self.front = front;
        Ok(())
    }

    ghost appends = { λ before entry after taken. ap (λ press. Some press.journal) taken };

    ghost holds_on = { λ before after left. ap (λ press. Some press.journal) left };

    ghost keeps_itself = { λ press. refl };
}

// Adds these entries to a front that has none yet.
fn add_all<N: HubName, M: Machine>(
    alloc: Global,
    tail: &Tail<N, M::Entry>,
    front: &mut Front<N, M::Entry>,
    entries: &Entries<'_, M>,
) -> Result<(), Memory>
    requires { front.old ≡ [] }
    ensures { OnOk result (front.new ≡ entries.now) }
{
    for place in 0..entries.len() {
        let entry = entries.entry(alloc, place)?;
        if front.len() >= MOST || !front.add(tail, &entry) {
            return Err(Memory);
        }
    }
    Ok(())
}

// Lets the writer have the step that waits. With `Memory` it waits on.
fn hand_over<N: HubName, M: Machine, S: Snapshot<N, M>, R: Wait + Drop>(
    waiting: &mut Option<Step<N, M>>,
    writer: &mut WriteHandle<S, Step<N, M>, R>,
) -> Result<(), Memory>
    ensures steps { pending writer.new ++ listed waiting.new ≡ pending writer.old ++ listed waiting.old }
    ensures published { published writer.new ≡ published writer.old }
    ensures ok { OnOk result (waiting.new ≡ None) }
{
    let Some(step) = waiting.take() else {
        return Ok(());
    };
    match writer.append(step) {
        Ok(()) => Ok(()),
        Err(step) => {
            *waiting = Some(step);
            Err(Memory)
        }
    }
}
