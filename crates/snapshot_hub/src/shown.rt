//! The copies that are published.
ghost use Rattle.std.specs.Prelude.{◌≡◌, ◌++◌, ◌∷◌, [], ◌==◌, ◌+◌, IsTrue, true, List, length, IfOk, MatchResult, if◌then◌else◌};
ghost use Rattle.machine_law.specs.Rules.{replay};
ghost use Rattle.snapshot_hub.specs.Closings.{IsFront};
ghost use Rattle.snapshot_hub.specs.Follow.{follow};

use crate::snapshot::Snapshot;
use crate::step::Step;
use left_right::Absorb;
use machine_law::Machine;
use osm_base::Memory;
use shared_front::{Front, HubName};
use std::alloc::{AllocError, Global};
use std::collections::LinkedList;
use std::marker::Model;

/// A published copy: a world, and the front after which it is. Contracts see it as that front.
#[derive(Drop)]
pub struct Shown<N: HubName, M: Machine> {
    alloc: Global,
    world: M::World,
    front: Front<N, M::Entry>,
}

impl<N: HubName, M: Machine> Model for Shown<N, M> {
    ghost use Rattle.std.specs.Prelude.{◌≡◌, List};
    ghost use Rattle.machine_law.specs.Rules.{replay};
    ghost use Rattle.snapshot_hub.specs.Closings.{IsFront};

    ghost Value = { List M.Entry };

    ghost view = { λ s. s.front };

    ghost invariant = { λ s. (M.state s.world ≡ replay M.rules s.front) × IsFront M.rules N.sessions s.front };
}

/// A copy takes the step that is the next one, if its entry may come next there, and no other. The
/// first copy takes an entry of its own, and the second the entry itself.
impl<N: HubName, M: Machine> Absorb<Step<N, M>> for Shown<N, M> {
    ghost use Rattle.snapshot_hub.specs.Follow.{follow};

    type State = LinkedList<M::Entry>;

    ghost state = { λ s. s };

    ghost applied = { follow M.rules };

    fn absorb_first(&mut self, step: &Step<N, M>, _other: &Shown<N, M>) -> Result<(), AllocError> {
        match self.take_copy(step) {
            Ok(()) => Ok(()),
            Err(Memory) => Err(AllocError),
        }
    }

    fn absorb_second(&mut self, step: Step<N, M>, _other: &Shown<N, M>) -> Result<(), Step<N, M>> {
        self.take(step)
    }
}

impl<N: HubName, M: Machine> Shown<N, M> {
    // Follows a step that is still to be used, by a copy of its entry.
    fn take_copy(&mut self, step: &Step<N, M>) -> Result<(), Memory>
        ensures { MatchResult result (λ _. self.new ≡ follow M.rules self.old step.now) (λ _. self.new ≡ self.old) }
    {
        let ready = make_ready::<N, M>(
            self.alloc,
            &mut self.world,
            &self.front,
            &step.entry,
            &step.front,
        )?;
        if !ready {
            return Ok(());
        }
        let entry = M::copy(self.alloc, &step.entry)?;
        M::apply(&mut self.world, entry);
        self.front = step.front.again();
        Ok(())
    }

    // Follows a step. It comes back where there is no memory.
    fn take(&mut self, step: Step<N, M>) -> Result<(), Step<N, M>>
        ensures { MatchResult result (λ _. self.new ≡ follow M.rules self.old step) (λ back. (back ≡ step) × (self.new ≡ self.old)) }
    {
        match make_ready::<N, M>(
            self.alloc,
            &mut self.world,
            &self.front,
            &step.entry,
            &step.front,
        ) {
            Ok(true) => {
                let Step { entry, front } = step;
                M::apply(&mut self.world, entry);
                self.front = front;
                Ok(())
            }
            Ok(false) => Ok(()),
            Err(Memory) => Err(step),
        }
    }
}

impl<N: HubName, M: Machine> Snapshot<N, M> for Shown<N, M> {
    ghost entries = { λ s. s };

    fn of_world(alloc: Global, world: M::World, front: &Front<N, M::Entry>) -> Shown<N, M> {
        Shown {
            alloc,
            world,
            front: front.again(),
        }
    }

    fn front(&self) -> &Front<N, M::Entry> {
        &self.front
    }

    fn world(&self) -> &M::World {
        &self.world
    }

    ghost alike = { λ x y same. same };

    ghost follows = { λ x y steps is. is };
}

// Whether a front that ends with this entry is the next one of a world. It has room for it then.
fn make_ready<N: HubName, M: Machine>(
    alloc: Global,
    world: &mut M::World,
    front: &Front<N, M::Entry>,
    entry: &M::Entry,
    next: &Front<N, M::Entry>,
) -> Result<bool, Memory>
    requires state { M.state world.old ≡ replay M.rules front.now }
    requires ends { (before : List M.Entry) × (next.now ≡ before ++ entry.now ∷ []) }
    ensures same { M.state world.new ≡ M.state world.old }
    ensures follows { IfOk result (λ ready. follow M.rules front.now next.now ≡ if ready then next.now else front.now) }
    ensures ready { IfOk result
        (λ ready. IsTrue ready → (next.now ≡ front.now ++ entry.now ∷ []) × (M.rules.takes (M.state world.new) entry.now ≡ true)
        × M.has_room world.new entry.now) }
{
    if !is_next(front, entry, next) || !M::accepts(alloc, world, entry)? {
        return Ok(false);
    }
    M::make_room(alloc, world, entry)?;
    Ok(true)
}

// Whether the second front, which ends with the entry, is the first with that entry.
fn is_next<N: HubName, E>(before: &Front<N, E>, entry: &E, after: &Front<N, E>) -> bool
    requires { (first : List E) × (after.now ≡ first ++ entry.now ∷ []) }
    ensures exact { result ≡ (length after.now == length before.now + 1) }
    ensures next { IsTrue result → after.now ≡ before.now ++ entry.now ∷ [] }
{
    before.begins(after) && after.len() - before.len() == 1
}
