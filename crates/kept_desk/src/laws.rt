//! Laws on replies that are sent only once what they tell of is kept.
ghost use Rattle.std.specs.Prelude.{◌≡◌, ◌≤◌, ◌++◌, ℕ, List, length};
ghost use mathlib.Core.List.{IsPrefix};
ghost use Rattle.http_link.specs.Exchange.{Exchange};
ghost use Rattle.http_link.specs.Link.{AreTold};
ghost use Rattle.http_link.specs.declared.end.LinkEnd.{LinkEnd};
ghost use Rattle.durable_log.specs.Receipts.{Receipt};
ghost use Rattle.session_desk.specs.Answered.{HasServed};
ghost use Rattle.session_desk.specs.Steps.{place_at};
ghost use Rattle.user_table.specs.Users.{Users};
ghost use Rattle.kept_desk.specs.Kept.{AtKept, Tells, shows_kept, Withholds, HasWithheld, AllowsKept, Sending, sendings, exchanges_in, AreKeptAndTold, HasKeptAndTold};

use machine_law::Machine;
use session_desk::SessionDesk;
use shared_front::HubName;
use snapshot_hub::Snapshot;

/// A law: whatever exchanges a desk goes through until a link's end, from any point of the front that
/// its session had, the link was shown a receipt that is for a reply's point before it was sent; and
/// where the last one was withheld, there was a cause.
pub fn told_chain<N: HubName, M: Machine, S: Snapshot<N, M>, D: SessionDesk<N, M, S>>()
    ensures { (old new : AtKept M.Entry) (exchanges : List Exchange) (end : LinkEnd) (point : ℕ) → point ≤ length old.desk.known.front
        → AreTold (AllowsKept D.answers) Tells shows_kept Withholds old exchanges new end
        → (new.desk.users ≡ old.desk.users) × HasKeptAndTold D.answers old.desk.users old point (sendings end exchanges) new × HasWithheld end new }
{}

/// A law: what one link and then another told by the same session is told together. The receipts in
/// hand never go back from one link to the next.
pub fn kept_links_chain<N: HubName, M: Machine, S: Snapshot<N, M>, D: SessionDesk<N, M, S>>()
    ensures { (users : Users) (old mid new : AtKept M.Entry) (point : ℕ) (first second : List Sending)
        → (served : HasKeptAndTold D.answers users old point first mid) → HasKeptAndTold D.answers users mid served.last second new
        → HasKeptAndTold D.answers users old point (first ++ second) new }
{}

/// A law: what was told on the front and with the receipts of a session is so on each longer front,
/// as the journal of a hub that is closed, and with each longer list of receipts, as all that were
/// given.
pub fn kept_stay<N: HubName, M: Machine, S: Snapshot<N, M>, D: SessionDesk<N, M, S>>()
    ensures { (users : Users) (old new : AtKept M.Entry) (point : ℕ) (told : List Sending) (front : List M.Entry) (receipts : List Receipt)
        → (served : HasKeptAndTold D.answers users old point told new) → IsPrefix new.desk.known.front front → IsPrefix new.receipts receipts
        → AreKeptAndTold D.answers users old.desk.known.number front receipts (place_at old.desk.known point) (length old.receipts)
        told (place_at new.desk.known served.last) }
{}

/// A law: what was told so was answered as by any desk, whether it was sent or not; and the exchanges
/// of a link are the same, however it ended.
pub fn kept_is_served<N: HubName, M: Machine, S: Snapshot<N, M>, D: SessionDesk<N, M, S>>()
    ensures served { (users : Users) (old new : AtKept M.Entry) (point : ℕ) (told : List Sending) → HasKeptAndTold D.answers users old point told new
        → HasServed D.answers users old.desk.known point (exchanges_in told) new.desk.known }
    ensures same { (end : LinkEnd) (exchanges : List Exchange) → exchanges_in (sendings end exchanges) ≡ exchanges }
{}
