//! One list under a lock.
ghost use Rattle.std.specs.Prelude.{◌≡◌, ◌++◌, IfOk, IfSome};

use crate::held::Held;
use crate::stepped::Stepped;
use osm_base::Memory;
use shared_front::{Front, HubName, Opened};
use std::alloc::Global;
use std::sync::{Mutex, Wait};

/// A value that answers messages in steps of a list, under one lock.
#[derive(Drop)]
pub struct StepHub<N: HubName, S: Stepped + Drop> {
    pub(crate) held: Mutex<Held<N, S>>,
}

impl<N: HubName, S: Stepped + Drop> StepHub<N, S> {
    /// A hub of a value under that name, and the front that has seen the value's whole list. `Memory` also where that list couldn't
    /// be added to an empty one, which no run has shown.
    pub fn begin(
        alloc: Global,
        value: S,
        opened: Opened<S::Entry>,
    ) -> Result<(StepHub<N, S>, Front<N, S::Entry>), Memory>
        requires named { opened ≡ N.book }
        ensures all { IfOk result (λ r. r.1 ≡ S.list value) }
        ensures legal { IfOk result (λ r. S.legal r.1) }
    {
        let (tail, none) = opened.named::<N>();
        let held = Held::begin(alloc, value, tail, none)?;
        let front = held.front().again();
        let hub = StepHub {
            held: Mutex::new(held),
        };
        Ok((hub, front))
    }

    /// The entries that are found behind this beginning of the list, and the longer one that they make of it.
    /// `None` where the hub has no list that begins so, which no run has shown.
    pub fn behind<R: Wait>(
        &self,
        rt: &R,
        alloc: Global,
        front: &Front<N, S::Entry>,
    ) -> Result<Option<(Vec<S::Entry>, Front<N, S::Entry>)>, Memory>
        ensures { IfOk result (λ copied. IfSome copied (λ part. part.1 ≡ front.now ++ part.0.items)) }
    {
        self.held.lock(rt).behind(alloc, front)
    }
}
