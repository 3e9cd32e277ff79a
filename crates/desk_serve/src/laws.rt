//! Laws on what a machine keeps, and on a hub that had no memory.
ghost use Rattle.std.specs.Prelude.{◌≡◌, ◌<◌, ◌≤◌, ◌-◌, ◌∷◌, [], ℕ, Bool, true, List, length, map, take};
ghost use Rattle.std.specs.List.{AllByRecursion, range_with_len};
ghost use mathlib.Core.List.{IsPrefix};
ghost use Rattle.machine_law.specs.Rules.{replay, is_legal};
ghost use Rattle.osm_outside.specs.Told.{Told};
ghost use Rattle.osm_outside.specs.Port.{PortTold};
ghost use Rattle.http_link.specs.declared.end.LinkEnd.TheVariants.{Memory};
ghost use Rattle.user_table.specs.Users.{Users};
ghost use Rattle.link_workers.specs.Port.{Visit, ServesEach};
ghost use Rattle.hub_core.specs.Journal.{calls_of};
ghost use Rattle.snapshot_hub.specs.Known.{Known, returner};
ghost use Rattle.snapshot_hub.specs.Closed.{HasClosed};
ghost use Rattle.durable_log.specs.Receipts.{AreKept};
ghost use Rattle.durable_log.specs.Receipts.{Receipt};
ghost use Rattle.kept_desk.specs.Kept.{AtKept};
ghost use Rattle.desk_serve.specs.Link.{ServesPipe};
ghost use Rattle.desk_serve.specs.Kept.{KeepsLink};
ghost use Rattle.desk_serve.specs.KeptPorts.{KeptJoins, HaveKept, ServesKept};

use durable_log::Lines;
use journal_file::Device;
use kept_desk::{kept_links_chain, kept_stay};
use machine_law::Machine;
use server_frame::link_left_alone;
use session_desk::SessionDesk;
use shared_front::HubName;
use snapshot_hub::Snapshot;

/// A law: after every entry of a legal journal the machine keeps what it keeps.
pub fn points_are_consistent<M: Machine>()
    ensures { (entries : List M.Entry) → is_legal M.rules entries ≡ true → (point : ℕ) → M.rules.consistent (replay M.rules (take point entries)) }
{}

/// A law: what a link comes to that is left alone, where there is no memory for the hub or its desk.
pub fn pipe_left_alone<N: HubName, M: Machine, S: Snapshot<N, M>, D: SessionDesk<N, M, S>>()
    ensures { (users : Users) (before after : Told) → after ≡ before → ServesPipe M.rules D.answers users before after Memory }
{
    link_left_alone();
}

/// A law: what the links of one session tell that keeps before it tells, one after another, is told
/// together, from any point of the front that it had before the first.
pub fn kept_links_join<N: HubName, M: Machine, S: Snapshot<N, M>, D: SessionDesk<N, M, S>>()
    ensures { (old new : AtKept M.Entry) (visits : List Visit) (point : ℕ) → point ≤ length old.desk.known.front
        → ServesEach (KeepsLink M.rules D.answers) old visits new → KeptJoins M.rules D.answers old new visits point }
{
    kept_links_chain::<N, M, S, D>();
}

/// A law: what it comes to that workers served ports by the first sessions of a hub that began with
/// the journal J, once that hub is closed. Its further sessions served none. Of the hub's one list all
/// receipts must be kept, in which those of each session come first.
pub fn kept_ports_served<
    N: HubName,
    M: Machine,
    S: Snapshot<N, M>,
    T: Lines<M::Entry>,
    V: Device,
    D: SessionDesk<N, M, S>,
>()
    ensures { (users : Users) (seats : ℕ) (J : List M.Entry) (before after : List PortTold) (stopped : List (AtKept M.Entry)) (spare : List (Known M.Entry))
        (failed : Bool) (device : V) (first : Receipt) (receipts : List Receipt)
        → HaveKept M.rules D.answers users J (first ∷ []) (range_with_len 0 (length before)) stopped before after failed
        → spare ≡ map (λ n. returner n J (calls_of M.rules.tag_of n J)) (range_with_len (length before) (seats - length before))
        → (closed : HasClosed M.rules seats (map (λ it. it.desk.known) stopped) spare) → IsPrefix J closed.one
        → AreKept T.text V.moment V.left_since device closed.one receipts → AllByRecursion (λ it. IsPrefix it.receipts receipts) stopped
        → AllByRecursion (λ it. it.failed ≡ true → 0 < V.faults device) stopped
        → IsPrefix (first ∷ []) receipts → first.count ≡ length J
        → ServesKept M.rules D.answers T.text V.moment V.left_since V.faults users J before after failed device }
{
    kept_links_chain::<N, M, S, D>();
    kept_stay::<N, M, S, D>();
    points_are_consistent::<M>();
}
