//! What answers messages.
ghost use Rattle.std.specs.Prelude.{◌≡◌, IfOk, IfErr, OnOk, OnErr};
ghost use Rattle.osm_base.specs.Status.{IsStatus};

use http_wire::Message;
use osm_base::{Bytes, Memory};
use osm_outside::{Outside, Witness};
use std::alloc::Global;

/// A reply: a status and a JSON body.
#[derive(Drop)]
pub struct Reply {
    pub status: u16,
    pub body: Bytes,
}

/// Why a reply was withheld.
#[derive(Clone, Copy, PartialEq, Eq)]
pub enum Withheld {
    /// What has to keep what it tells of has failed.
    Failed,
    /// There was no memory to keep what it tells of.
    Memory,
    /// The file that has to keep it, or the list of that file's receipts, can't become longer.
    Full,
    /// What is to be kept and what keeps it aren't of one list, as far as can be seen. No run has shown it.
    Mismatched,
}

/// What answers messages.
pub trait Desk {
    ghost use Rattle.std.specs.Prelude.{ℕ, List};
    ghost use Rattle.http_link.specs.declared.desk.Reply.{Reply};
    ghost use Rattle.http_link.specs.declared.desk.Withheld.{Withheld};
    ghost use Rattle.http_wire.specs.declared.message.Message.{Message};
    ghost use Rattle.osm_outside.specs.Event.{Shown};
    ghost use Rattle.http_link.specs.Desk.{counted_reply, showing};

    /// Which reply a message may get at a moment, from what the desk was to what it is then.
    ghost allows: { Self → Message → ℕ → Reply → Self → Type 0 };

    // What a desk is that lets its last reply be sent.
    ghost tells: { Self → Type 0 };

    // By which receipts it lets its last reply be sent, which the link is shown.
    ghost shows: { Self → List Shown };

    // What a desk is that withholds its last reply, by why it does. A desk that never does holds nothing here.
    ghost withholds: { Self → Withheld → Type 0 };

    /// Answers a message, which was whole at that moment, in seconds since 1970. Want of memory
    /// counts as the reply 503, and doesn't end the link.
    fn answer(&mut self, alloc: Global, message: Message, moment: u64) -> Result<Reply, Memory>
        ensures allowed { allows self.old message moment (counted_reply result) self.new }
        ensures status { IfOk result (λ reply. IsStatus reply.status) };

    /// Lets the reply that it gave last be sent, once the link was shown by which receipts; or says why not. It is asked once behind
    /// each answer and before anything is sent; where it withholds the reply nothing is sent, and the link ends. Whatever reply was
    /// allowed is so still.
    fn may_tell<L: Witness>(&mut self, link: &mut L) -> Result<(), Withheld>
        ensures allowed { (before : Self) (message : Message) (moment : ℕ) (reply : Reply)
            → allows before message moment reply self.old → allows before message moment reply self.new }
        ensures tells { OnOk result (tells self.new) }
        ensures shown { OnOk result (L.told link.new ≡ showing (shows self.new) (L.told link.old)) }
        ensures withheld { IfErr result (λ why. withholds self.new why) }
        ensures unshown { OnErr result (L.told link.new ≡ L.told link.old) };
}

/// A desk that never withholds a reply.
pub trait AlwaysTells: Desk {
    ghost use Rattle.http_link.specs.declared.desk.Withheld.{Withheld};

    // Nothing is a cause for it to withhold one.
    ghost never: { (it : Self) (why : Withheld) → Self.withholds it why → ⊥ };
}
