//! What a published copy is.
ghost use Rattle.std.specs.Prelude.{◌≡◌, List, fold};
ghost use Rattle.machine_law.specs.Rules.{replay};
ghost use Rattle.snapshot_hub.specs.Closings.{IsFront};
ghost use Rattle.snapshot_hub.specs.Follow.{follow};

use crate::step::Step;
use left_right::Absorb;
use machine_law::Machine;
use shared_front::{Front, HubName};
use std::alloc::Global;

/// A copy that is published: a world, and the front after which it is.
///
/// `Shown` is the one that there is. It is a trait since a struct that is generic in its machine can
/// hold a writer of copies of a bounded type alone.
pub trait Snapshot<N: HubName, M: Machine>: Absorb<Step<N, M>> + Drop {
    // The entries of the front.
    ghost entries: { Self → List M.Entry };

    /// The copy after a front, by the world that it leaves.
    fn of_world(alloc: Global, world: M::World, front: &Front<N, M::Entry>) -> Self
        requires world { M.state world ≡ replay M.rules front.now }
        requires kept { IsFront M.rules N.sessions front.now }
        ensures { entries result ≡ front.now };

    /// The front.
    fn front(&self) -> &Front<N, M::Entry>
        ensures front { result.now ≡ entries self.now }
        ensures kept { IsFront M.rules N.sessions (entries self.now) };

    /// The world after the front.
    fn world(&self) -> &M::World
        ensures { M.state result.now ≡ replay M.rules (entries self.now) };

    // Copies after the same front are one to left_right.
    ghost alike: { (x y : Self) → entries x ≡ entries y → Self.state x ≡ Self.state y };

    // What steps do to a copy is said of its front.
    ghost follows: { (x y : Self) (steps : List (List M.Entry)) → Self.state y ≡ fold Self.applied (Self.state x) steps
        → entries y ≡ fold (follow M.rules) (entries x) steps };
}
