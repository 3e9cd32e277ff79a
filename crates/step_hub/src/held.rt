//! What lies under the lock.
//!
//! A follower takes its entry before the shared list does, since `take` judges and keeps in one
//! call. To add to the list takes no memory, and its room is tested before. Contracts can't say
//! that the list under the lock is the whole list, so the case that it is longer has a branch: the
//! value isn't asked any more, and each message gets 503. No run has shown it. The server's hub
//! takes its lock again there; a mirror may answer any message with 503.
ghost use Rattle.std.specs.Prelude.{◌≡◌, ◌<◌, ◌≤◌, ◌+◌, ◌^◌, ◌++◌, [], length, IsTrue, IfOk, IfSome, OnOk, OnErr};
ghost use mathlib.Core.List.{IsPrefix};
ghost use Rattle.osm_base.specs.Status.{IsStatus};
ghost use Rattle.http_link.specs.Desk.{counted_reply};
ghost use Rattle.step_hub.specs.Steps.{GrowsByOne, StepsOn};

use crate::stepped::Stepped;
use http_link::Reply;
use http_wire::Message;
use osm_base::Memory;
use shared_front::{Front, HubName, Tail};
use std::alloc::Global;
use std::marker::Model;

/// The most entries that a list takes.
const MOST: u64 = 1 << 62;

/// The value, with the end and the front of the list that it stands for. Contracts see it as the front.
#[derive(Drop)]
pub struct Held<N: HubName, S: Stepped + Drop> {
    value: S,
    tail: Tail<N, S::Entry>,
    front: Front<N, S::Entry>,
    /// Whether the value has an entry that couldn't be added to the list, which no run has shown. It isn't asked any more then.
    ahead: bool,
}

impl<N: HubName, S: Stepped + Drop> Model for Held<N, S> {
    ghost use Rattle.std.specs.Prelude.{◌≡◌, false, List};

    ghost Value = { List S.Entry };

    ghost view = { λ h. h.front };

    ghost invariant = { λ h. h.ahead ≡ false → S.list h.value ≡ h.front };
}

impl<N: HubName, S: Stepped + Drop> Held<N, S> {
    /// The value's list, all of it added to an empty list. `Memory` also where that took no more, which no run has shown.
    pub fn begin(
        alloc: Global,
        value: S,
        tail: Tail<N, S::Entry>,
        mut front: Front<N, S::Entry>,
    ) -> Result<Held<N, S>, Memory>
        requires { front ≡ [] }
        ensures list { IfOk result (λ held. held ≡ S.list value) }
        ensures legal { IfOk result (λ held. S.legal held) }
    {
        add_all(alloc, &value, &tail, &mut front)?;
        Ok(Held {
            value,
            tail,
            front,
            ahead: false,
        })
    }

    /// What was added to the list so far.
    pub fn front(&self) -> &Front<N, S::Entry>
        ensures { result.now ≡ self.now }
    {
        &self.front
    }

    /// Answers a message at the list that is found here, and lets that front see what the list is then. An entry that this adds to the
    /// list is counted.
    pub fn answer(
        &mut self,
        alloc: Global,
        setting: &S::Setting,
        front: &mut Front<N, S::Entry>,
        grown: &mut u64,
        message: &Message,
        moment: u64,
    ) -> Result<Reply, Memory>
        requires legal { S.legal front.old }
        ensures answered { StepsOn (S.steps setting.now) front.old grown.old message.now moment (counted_reply result) front.new grown.new }
        ensures legal { S.legal front.new }
        // an answer is one step of the list that is found here, and all of it is seen then
        ensures begins { OnOk result (IsPrefix front.old self.old) }
        ensures step { IfOk result (λ reply. S.steps setting.now self.old message.now moment reply self.new) }
        ensures grows { OnOk result (GrowsByOne self.old self.new) }
        ensures seen { OnOk result (front.new ≡ self.new) }
        ensures kept { OnErr result (IsPrefix self.old self.new) }
        ensures status { IfOk result (λ reply. IsStatus reply.status) }
    {
        // The list is longer than what was seen of it, and what was seen is not.
        if self.ahead || self.front.len() >= MOST || *grown >= MOST || !front.begins(&self.front) {
            return Err(Memory);
        }
        let found = self.front.len();
        let reply = self.value.answer(alloc, setting, message, moment);
        if !catch_up(&self.value, &self.tail, &mut self.front) {
            self.ahead = true;
            return Err(Memory);
        }
        *grown += self.front.len() - found;
        *front = self.front.again();
        reply
    }

    /// The entries behind this beginning of the list, and the longer one that they make of it, which is all of it. `None`
    /// where what was seen of the list is longer than the list, or the value has an entry that the list hasn't: no run has shown either.
    pub fn behind(
        &self,
        alloc: Global,
        front: &Front<N, S::Entry>,
    ) -> Result<Option<(Vec<S::Entry>, Front<N, S::Entry>)>, Memory>
        ensures entries { IfOk result (λ copied. IfSome copied (λ part. part.1 ≡ front.now ++ part.0.items)) }
        ensures all { IfOk result (λ copied. IfSome copied (λ part. part.1 ≡ self.now)) }
    {
        if self.ahead || !front.begins(&self.front) {
            return Ok(None);
        }
        let behind = self.front.len() - front.len();
        let entries = self.value.part(alloc, front.len(), behind)?;
        Ok(Some((entries, self.front.again())))
    }
}

/// Adds all entries of a value to an empty list.
fn add_all<N: HubName, S: Stepped>(
    alloc: Global,
    value: &S,
    tail: &Tail<N, S::Entry>,
    front: &mut Front<N, S::Entry>,
) -> Result<(), Memory>
    requires { front.old ≡ [] }
    ensures list { OnOk result (front.new ≡ S.list value.now) }
    ensures legal { S.legal (S.list value.now) }
{
    for place in 0..value.len() {
        let entry = value.entry(alloc, place)?;
        if front.len() >= MOST || !front.add(tail, &entry) {
            return Err(Memory);
        }
    }
    Ok(())
}

/// Adds the entry that the front lacks of a value's list, if it lacks one, and says whether it has them all then.
fn catch_up<N: HubName, S: Stepped>(
    value: &S,
    tail: &Tail<N, S::Entry>,
    front: &mut Front<N, S::Entry>,
) -> bool
    requires { length front.old < 2 ^ 62 }
    ensures all { IsTrue result → GrowsByOne front.old (S.list value.now) → front.new ≡ S.list value.now }
    ensures legal { S.legal (S.list value.now) }
    ensures begins { IsPrefix front.old front.new }
    ensures more { length front.old ≤ length front.new }
    ensures one { IsTrue result → length front.new ≤ length front.old + 1 }
{
    if front.len() >= value.len() as u64 {
        return true;
    }
    match value.last() {
        Some(entry) => front.add(tail, entry),
        None => false,
    }
}
