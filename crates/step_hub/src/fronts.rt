//! What desks have seen of one list, and what their answers added to it.
ghost use Rattle.std.specs.Prelude.{◌≡◌, ◌+◌, length, IsTrue};
ghost use Rattle.std.specs.List.{AllByRecursion, sum_by};
ghost use mathlib.Core.List.{IsPrefix};

use crate::stepped::Stepped;
use shared_front::{Front, HubName};
use std::sync::Wait;

/// A desk that has seen a beginning of a hub's list.
pub trait FrontDesk<N: HubName, S: Stepped + Drop> {
    ghost use Rattle.std.specs.Prelude.{◌≡◌};
    ghost use Rattle.step_hub.specs.Steps.{AtFront};

    // What it answers by.
    ghost at: { Self → AtFront S.Setting S.Entry };

    /// What it has seen of the list.
    fn front(&self) -> &Front<N, S::Entry>
        ensures front { result.now ≡ (at self.now).front }
        ensures legal { S.legal (at self.now).front };

    /// How many entries its own answers have added to the list.
    fn grown(&self) -> u64
        ensures { result ≡ (at self.now).grown };
}

/// The longest front of the desks and of this one, which all of them begin.
pub fn longest<N: HubName, S: Stepped + Drop, D: FrontDesk<N, S>>(
    first: &Front<N, S::Entry>,
    desks: &[D],
) -> Front<N, S::Entry>
    requires { S.legal first.now }
    ensures legal { S.legal result }
    ensures goes_on { IsPrefix first.now result }
    ensures begin { AllByRecursion (λ desk. IsPrefix (D.at desk).front result) desks.now }
{
    let mut front = first.again();
    for desk in desks {
        front = front.longer(desk.front());
    }
    front
}

/// Whether a list is longer than this beginning of it by just what the desks' answers added.
fn is_growth<N: HubName, S: Stepped + Drop, D: FrontDesk<N, S>>(
    first: &Front<N, S::Entry>,
    list: &Front<N, S::Entry>,
    desks: &[D],
) -> bool
    ensures { IsTrue result → length list.now ≡ length first.now + sum_by (λ desk. (D.at desk).grown) desks.now }
{
    let mut count = first.len();
    for desk in desks {
        let Some(more) = count.checked_add(desk.grown()) else {
            return false;
        };
        count = more;
    }
    count == list.len()
}

/// Waits until a list is longer than this beginning of it by just what the desks' answers added. It is at
/// once: no run has shown otherwise.
pub fn await_growth<N: HubName, S: Stepped + Drop, D: FrontDesk<N, S>, R: Wait>(
    rt: &R,
    first: &Front<N, S::Entry>,
    list: &Front<N, S::Entry>,
    desks: &[D],
)
    ensures { length list.now ≡ length first.now + sum_by (λ desk. (D.at desk).grown) desks.now }
{
    for _ in rt.forever() {
        if is_growth::<N, S, D>(first, list, desks) {
            return;
        }
    }
    unreachable!()
}
