//! A desk of a session that keeps before it tells.
//!
//! It answers by another desk, and before a reply is sent it sees to it that the file holds the
//! front on which the session was answered. Where the file can't, the reply isn't sent. Each machine
//! has such a desk of its own, which holds its desk and a keeper.
ghost use Rattle.std.specs.Prelude.{◌≡◌, IfOk, OnOk, OnErr};
ghost use Rattle.session_desk.specs.Answered.{IsFresh};
ghost use Rattle.kept_desk.specs.Kept.{AtKept};

use machine_law::Machine;
use osm_base::Memory;
use session_desk::SessionDesk;
use shared_front::{FoundFront, HubName};
use snapshot_hub::Snapshot;

/// A desk of a session, whose replies are sent only once the file holds what they tell of.
pub trait KeptSession<N: HubName, M: Machine, S: Snapshot<N, M>>: SessionDesk<N, M, S> {
    ghost use Rattle.std.specs.Prelude.{◌≡◌, ℕ};
    ghost use Rattle.http_link.specs.declared.desk.Reply.{Reply};
    ghost use Rattle.http_link.specs.declared.desk.Withheld.{Withheld};
    ghost use Rattle.http_wire.specs.declared.message.Message.{Message};
    ghost use Rattle.kept_desk.specs.Kept.{AtKept, Tells, shows_kept, Withholds, AllowsKept};

    // What its session has, how many entries its last reply may tell of, the receipts in hand, and whether keeping failed.
    ghost kept: { Self → AtKept M.Entry };

    /// Publishes the journal that is found under the lock, and lets the session see it. That journal
    /// comes back, told where its end is. The receipts in hand stay.
    fn freshen_session(&mut self) -> Result<FoundFront<N, M::Entry>, Memory>
        ensures users { (kept self.new).desk.users ≡ (kept self.old).desk.users }
        ensures found { IfOk result (λ found. found ≡ (kept self.new).desk.known.front) }
        ensures ok { OnOk result (IsFresh M.rules (kept self.old).desk.known (kept self.new).desk.known) }
        ensures err { OnErr result (kept self.new ≡ kept self.old) }
        ensures receipts { (kept self.new).receipts ≡ (kept self.old).receipts }
        ensures failed { (kept self.new).failed ≡ (kept self.old).failed };

    // Its session is the one that it keeps as any desk does.
    ghost same_session: { (it : Self) → Self.keeps it ≡ (kept it).desk };

    // What it answers is a row at a point that the reply may tell of.
    ghost allowed_kept: { (old new : Self) (message : Message) (moment : ℕ) (reply : Reply) → Self.allows old message moment reply new
        → AllowsKept Self.answers (kept old) message moment reply (kept new) };

    // Where it lets its last reply be sent, the last receipt in hand is for all that the reply may tell of.
    ghost tells_kept: { (it : Self) → Self.tells it → Tells (kept it) };

    // It shows the receipts that it has in hand.
    ghost shows_receipts: { (it : Self) → Self.shows it ≡ shows_kept (kept it) };

    // Where it withholds its last reply, it has a cause.
    ghost withholds_kept: { (it : Self) (why : Withheld) → Self.withholds it why → Withholds (kept it) why };
}
