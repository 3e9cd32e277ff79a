//! What is handed from the journal to the copies.
ghost use Rattle.std.specs.Prelude.{◌≡◌, ◌++◌, ◌∷◌, [], List};
ghost use Rattle.snapshot_hub.specs.Closings.{IsFront};

use machine_law::Machine;
use shared_front::{Front, HubName};
use std::marker::Model;

/// An entry, and the front that it ends. Contracts see it as that front.
#[derive(Drop)]
pub struct Step<N: HubName, M: Machine> {
    pub entry: M::Entry,
    pub front: Front<N, M::Entry>,
}

impl<N: HubName, M: Machine> Model for Step<N, M> {
    ghost use Rattle.std.specs.Prelude.{◌≡◌, ◌++◌, ◌∷◌, [], List};
    ghost use Rattle.snapshot_hub.specs.Closings.{IsFront};

    ghost Value = { List M.Entry };

    ghost view = { λ s. s.front };

    ghost invariant = { λ s. ((before : List M.Entry) × (s.front ≡ before ++ s.entry ∷ [])) × IsFront M.rules N.sessions s.front };
}

impl<N: HubName, M: Machine> Step<N, M> {
    /// The step to a front, by its last entry.
    pub fn new(entry: M::Entry, front: &Front<N, M::Entry>) -> Step<N, M>
        requires ends { (before : List M.Entry) × (front.now ≡ before ++ entry ∷ []) }
        requires kept { IsFront M.rules N.sessions front.now }
        ensures { result ≡ front.now }
    {
        Step {
            entry,
            front: front.again(),
        }
    }
}
