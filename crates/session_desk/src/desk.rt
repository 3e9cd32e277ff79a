//! A desk of one session of a hub.
ghost use Rattle.std.specs.Prelude.{◌≡◌, ◌++◌, true, OnOk, OnErr, IfOk, IfSome};
ghost use Rattle.machine_law.specs.Rules.{is_legal};
ghost use Rattle.session_desk.specs.Answered.{AtDesk, IsFresh, RowOf, StaysOrFreshens};

use http_link::Desk;
use machine_law::Machine;
use osm_base::Memory;
use shared_front::{FoundFront, Front, HubName};
use snapshot_hub::{Session, Snapshot};

/// A desk that answers the messages of one session of a hub, which it keeps.
pub trait SessionDesk<N: HubName, M: Machine, S: Snapshot<N, M>>: Desk {
    ghost use Rattle.std.specs.Prelude.{ℕ};
    ghost use Rattle.http_link.specs.declared.desk.Reply.{Reply};
    ghost use Rattle.http_wire.specs.declared.message.Message.{Message};
    ghost use Rattle.session_desk.specs.Answered.{AtDesk, RowOf, Allows, RowsStay};

    // The users, and what its session knows.
    ghost keeps: { Self → AtDesk M.Entry };

    // What one message may be answered.
    ghost answers: { RowOf M.Entry };

    /// Publishes the journal that is found under the lock, and lets the session see it. That journal
    /// comes back, told where its end is.
    fn freshen(&mut self) -> Result<FoundFront<N, M::Entry>, Memory>
        ensures users { (keeps self.new).users ≡ (keeps self.old).users }
        ensures found { IfOk result (λ found. found ≡ (keeps self.new).known.front) }
        ensures ok { OnOk result (IsFresh M.rules (keeps self.old).known (keeps self.new).known) }
        ensures err { OnErr result (keeps self.new ≡ keeps self.old) };

    /// The beginning of the journal that its session has seen.
    fn front(&self) -> &Front<N, M::Entry>
        ensures { result.now ≡ (keeps self.now).known.front };

    /// Freshens the session, and copies the entries of its front behind this beginning of the journal.
    /// `None` where the session has seen less than this front, which no run has shown.
    fn behind(&mut self, front: &Front<N, M::Entry>) -> Result<Option<Vec<M::Entry>>, Memory>
        ensures part { IfOk result (λ copied. IfSome copied (λ part. (keeps self.new).known.front ≡ front.now ++ part.items)) }
        ensures session { StaysOrFreshens M.rules (keeps self.old) (keeps self.new) };

    /// A law: the front of its session is legal.
    fn law(&self)
        ensures { is_legal M.rules (keeps self.now).known.front ≡ true };

    // What it answers is a row on the front that its session has then.
    ghost allowed: { (old new : Self) (message : Message) (moment : ℕ) (reply : Reply) → Self.allows old message moment reply new
        → Allows answers (keeps old) message moment reply (keeps new) };

    // What is answered against entries is so against more.
    ghost rows_stay: { RowsStay answers };
}

/// A desk that gives its session back.
pub trait HasSession<N: HubName, M: Machine, S: Snapshot<N, M>>: SessionDesk<N, M, S> {
    /// The session, when the desk is done. It takes no memory.
    fn into_session(self) -> Session<N, M, S>
        ensures { result ≡ (Self.keeps self).known };
}
