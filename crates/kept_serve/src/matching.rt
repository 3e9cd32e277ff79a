//! What sessions hold, against what the file's shelf gave.
ghost use Rattle.std.specs.Prelude.{◌≡◌, List, IsTrue};
ghost use Rattle.std.specs.List.{AllByRecursion};
ghost use mathlib.Core.List.{IsPrefix};
ghost use Rattle.kept_serve.specs.Ports.{AreMatched, EndsSo};

use crate::workers::KeptBack;
use durable_log::{Lines, Receipt, Shelf};
use journal_file::Device;
use link_workers::Outcome;
use machine_law::Machine;
use shared_front::{Front, HubName};
use snapshot_hub::{Session, Snapshot};
use std::sync::Wait;

/// Whether all these receipts are the first ones of those that were given. A session holds no others,
/// which no run has shown otherwise.
pub fn are_given<K: HubName>(in_hand: &[Front<K, Receipt>], given: &Front<K, Receipt>) -> bool
    ensures { IsTrue result → AllByRecursion (λ receipts. IsPrefix receipts given.now) in_hand.now }
{
    for receipts in in_hand {
        if !receipts.begins(given) {
            return false;
        }
    }
    true
}

/// Whether one of the sessions has seen all of this beginning of their journal. One has seen what the
/// file holds, which no run has shown otherwise.
fn is_seen<N: HubName, M: Machine, S: Snapshot<N, M>>(
    sessions: &[Session<N, M, S>],
    front: &Front<N, M::Entry>,
) -> bool
    ensures { (one : List M.Entry) → IsTrue result → AllByRecursion (λ session. IsPrefix session.front one) sessions.now → IsPrefix front.now one }
{
    sessions.iter().any(|session| front.begins(session.front()))
}

/// Whether what came back from the workers is what the shelf gave, which no run has shown otherwise.
fn is_matched<N: HubName, K: HubName, M: Machine, S: Snapshot<N, M>, T: Lines<M::Entry>, V: Device>(
    back: &KeptBack<Session<N, M, S>, K>,
    shelf: &Shelf<N, K, M::Entry, T, V>,
) -> bool
    ensures { IsTrue result → AreMatched back.now.receipts.items back.now.withheld back.now.sessions.items shelf.now.entries shelf.now.receipts shelf.now.broken }
{
    let given = shelf.receipts();
    if !are_given(&back.receipts, &given) || !is_seen(&back.sessions, shelf.front()) {
        return false;
    }
    !back.withheld || shelf.is_broken()
}

/// How serving ended, by whether a call of the device failed, and accepting did.
pub fn ended(broken: bool, failed: bool) -> Outcome
    ensures { EndsSo failed broken result }
{
    if broken {
        Outcome::Unkept
    } else if failed {
        Outcome::Failed
    } else {
        Outcome::Served
    }
}

/// How serving ended, by what came back from the workers, once that is what the shelf gave. It is so at
/// once: no run has shown otherwise, and where it isn't this waits for ever.
pub fn outcome_of<
    N: HubName,
    K: HubName,
    M: Machine,
    S: Snapshot<N, M>,
    T: Lines<M::Entry>,
    V: Device,
    W: Wait,
>(rt: &W, back: &KeptBack<Session<N, M, S>, K>, shelf: &Shelf<N, K, M::Entry, T, V>) -> Outcome
    ensures matched { AreMatched back.now.receipts.items back.now.withheld back.now.sessions.items shelf.now.entries shelf.now.receipts shelf.now.broken }
    ensures ends { EndsSo back.now.failed shelf.now.broken result }
{
    for _ in rt.forever() {
        if is_matched(back, shelf) {
            return ended(shelf.is_broken(), back.failed);
        }
    }
    unreachable!()
}
