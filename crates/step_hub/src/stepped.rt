//! What a value is that answers in steps of a list.
ghost use Rattle.std.specs.Prelude.{◌≡◌, ◌<◌, ◌++◌, ◌∷◌, [], ℕ, List, Some, IfOk, IfSome, length, slice_get, take, drop};
ghost use Rattle.osm_base.specs.Status.{IsStatus};
ghost use Rattle.http_wire.specs.declared.message.Message.{Message};
ghost use Rattle.http_link.specs.declared.desk.Reply.{Reply};
ghost use Rattle.http_link.specs.Desk.{counted_reply};
ghost use Rattle.step_hub.specs.Steps.{GrowsByOne, memory_reply};

use http_link::Reply;
use http_wire::Message;
use osm_base::Memory;
use std::alloc::Global;

/// A value with a list that only grows, which answers messages one after another.
pub trait Stepped {
    /// What the list is made of.
    type Entry: Drop;

    /// What all who ask have in common, such as the users.
    type Setting;

    // The list.
    ghost list: { Self → List Self.Entry };

    // Which lists may come about.
    ghost legal: { List Self.Entry → Type 0 };

    // Which reply a message may get at a moment on a list, and the list that it leaves.
    ghost steps: { Self.Setting → List Self.Entry → Message → ℕ → Reply → List Self.Entry → Type 0 };

    /// How many entries the list has.
    fn len(&self) -> usize
        ensures length { result ≡ length (list self.now) }
        ensures legal { legal (list self.now) };

    /// The entry at a place of the list, from 0.
    fn entry(&self, alloc: Global, place: usize) -> Result<Self::Entry, Memory>
        requires { place < length (list self.now) }
        ensures { IfOk result (λ entry. slice_get (list self.now) place ≡ Some entry) };

    /// The entries from a place on, counted from 0: at most so many, and fewer where the list ends.
    fn part(&self, alloc: Global, from: u64, count: u64) -> Result<Vec<Self::Entry>, Memory>
        ensures { IfOk result (λ part. part.items ≡ take count (drop from (list self.now))) };

    /// The last entry, which is at hand where an answer added it.
    fn last(&self) -> Option<&Self::Entry>
        ensures { IfSome result (λ entry. (before : List Self.Entry) × (list self.now ≡ before ++ entry.now ∷ [])) };

    /// Answers a message, which was whole at that moment, in seconds since 1970, and adds an entry to the list at most. Want of
    /// memory counts as the reply 503.
    fn answer(
        &mut self,
        alloc: Global,
        setting: &Self::Setting,
        message: &Message,
        moment: u64,
    ) -> Result<Reply, Memory>
        ensures step { steps setting.now (list self.old) message.now moment (counted_reply result) (list self.new) }
        ensures grows { GrowsByOne (list self.old) (list self.new) }
        ensures status { IfOk result (λ reply. IsStatus reply.status) };

    // On each list any message may be answered by want of memory, which leaves the list.
    ghost memory_leaves: { (setting : Self.Setting) (entries : List Self.Entry) (message : Message) (moment : ℕ) → legal entries
        → steps setting entries message moment memory_reply entries };
}
