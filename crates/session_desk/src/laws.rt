//! Laws on what a session of a hub is answered, message by message.
ghost use Rattle.std.specs.Prelude.{◌≡◌, ◌≤◌, ◌++◌, ℕ, List, length};
ghost use mathlib.Core.List.{IsPrefix};
ghost use Rattle.http_link.specs.Exchange.{Exchange, Chain};
ghost use Rattle.session_desk.specs.Steps.{place_at};
ghost use Rattle.snapshot_hub.specs.Known.{Known};
ghost use Rattle.user_table.specs.Users.{Users};
ghost use Rattle.session_desk.specs.Answered.{AreAnswered, HasServed};

use crate::desk::SessionDesk;
use machine_law::Machine;
use shared_front::HubName;
use snapshot_hub::Snapshot;

/// A law: whatever exchanges a desk goes through, from any point of the front that its session had,
/// they are answered at points of the front that it has then, which never go back.
pub fn exchanges_chain<N: HubName, M: Machine, S: Snapshot<N, M>, D: SessionDesk<N, M, S>>()
    ensures { (old new : D) (exchanges : List Exchange) (point : ℕ) → point ≤ length (D.keeps old).known.front
        → Chain D.allows old exchanges new
        → ((D.keeps new).users ≡ (D.keeps old).users) × HasServed D.answers (D.keeps old).users (D.keeps old).known point exchanges (D.keeps new).known }
{}

/// A law: what one link and then another had answered by the same session is answered together.
pub fn links_chain<N: HubName, M: Machine, S: Snapshot<N, M>, D: SessionDesk<N, M, S>>()
    ensures { (users : Users) (old mid new : Known M.Entry) (point : ℕ) (first second : List Exchange)
        → (served : HasServed D.answers users old point first mid) → HasServed D.answers users mid served.last second new
        → HasServed D.answers users old point (first ++ second) new }
{}

/// A law: what a session was answered on its front is answered so on each longer one, as the journal
/// of a hub that is closed.
pub fn served_stay<N: HubName, M: Machine, S: Snapshot<N, M>, D: SessionDesk<N, M, S>>()
    ensures { (users : Users) (old new : Known M.Entry) (point : ℕ) (exchanges : List Exchange) (front : List M.Entry)
        → (served : HasServed D.answers users old point exchanges new) → IsPrefix new.front front
        → AreAnswered D.answers users old.number front (place_at old point) exchanges (place_at new served.last) }
{}
