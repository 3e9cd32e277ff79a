//! What lies under the hub's lock, and the steps that are made there.
ghost use Rattle.std.specs.Prelude.{◌≡◌, ℕ, ◌⊎◌, ◌+◌, ◌≤◌, ◌<◌, ◌^◌, true, false, [], length, IfOk, OnOk, OnErr, IfSome, MatchResult, List, Option, IsTrue, ◌↔◌, slice_get, take, drop, get_or, Some};
ghost use mathlib.Core.List.{IsPrefix};
ghost use Rattle.machine_law.specs.Rules.{replay};
ghost use Rattle.hub_core.specs.Core.{tagged};
ghost use Rattle.hub_core.specs.Journal.{calls_of, IsJournal, IsMadeBefore};
ghost use Rattle.hub_core.specs.Paths.{MatchPath, IsPath, IsDone};
ghost use Rattle.snapshot_hub.specs.Editions.{edition};
ghost use Rattle.snapshot_hub.specs.Known.{returner, caught_up, owing};
ghost use Rattle.snapshot_hub.specs.Closings.{AreSeated, IsFront};
ghost use Rattle.snapshot_hub.specs.Commits.{count_of, IsEntered, IsCommitted};

use crate::press::Press;
use crate::seats::Seats;
use crate::session::Session;
use crate::snapshot::Snapshot;
use crate::twins::Twins;
use hub_core::{CountedJournal, Done, Entries, Judged};
use machine_law::{Machine, Settled, Tag};
use osm_base::{Memory, Steps};
use shared_front::{FoundFront, Front, HubName};
use std::alloc::Global;
use std::marker::Model;
use std::sync::Wait;
use std::sync::ledger::Ledger;

/// The journal, and the press that publishes it. Contracts see it as the journal and the part of it that is published.
///
/// It has no world of its own: what is committed is judged on the published one, once that is the
/// whole journal's.
pub struct Held<N: HubName, M: Machine, S: Snapshot<N, M>, R: Wait + Drop> {
    entries: CountedJournal<M>,
    press: Press<N, M, S, R>,
}

impl<N: HubName, M: Machine, S: Snapshot<N, M>, R: Wait + Drop> Drop for Held<N, M, S, R> {
    fn drop(self) {
        let Self {
            entries: _,
            press: _,
        } = self;
    }
}

impl<N: HubName, M: Machine, S: Snapshot<N, M>, R: Wait + Drop> Model for Held<N, M, S, R> {
    ghost use Rattle.std.specs.Prelude.{◌≡◌};
    ghost use Rattle.snapshot_hub.specs.Closings.{AreSeated};
    ghost use Rattle.snapshot_hub.specs.Editions.{Edition};

    ghost Value = { Edition M.Entry };

    ghost view = { λ h. h.press };

    ghost invariant = { λ h. (h.entries ≡ h.press.journal) × AreSeated M.rules.tag_of N.sessions h.press.journal };
}

/// The held value of the journal of these twins, all of it published, under the name of these seats,
/// and its sessions in the order of their numbers. Each takes up the calls that the journal has of it.
pub fn begin<N: HubName, M: Machine, S: Snapshot<N, M>, R: Wait + Drop>(
    alloc: Global,
    rt: R,
    seats: Seats<M::Entry>,
    twins: Twins<M>,
) -> Result<(Held<N, M, S, R>, Vec<Session<N, M, S>>), Memory>
    requires named { seats.opened ≡ N.book }
    requires seated { seats.sessions ≡ N.sessions }
    requires own { AreSeated M.rules.tag_of N.sessions twins }
    ensures held { IfOk result (λ r. r.0 ≡ edition twins twins) }
    ensures count { IfOk result (λ r. length r.1.items ≡ seats.sessions) }
    ensures back { IfOk result (λ r. (number : ℕ) → IfSome (slice_get r.1.items number)
        (λ s. s ≡ returner number twins (calls_of M.rules.tag_of number twins))) }
{
    let Seats { opened, sessions } = seats;
    let (journal, first, second) = twins.into_parts();
    let entries = journal.journal();
    let seat = opened.named::<N>();
    let press = Press::begin(
        alloc,
        rt,
        seat,
        &entries,
        (first, second),
        sessions as usize,
    )?;
    let sessions = returning(alloc, &press, &journal, sessions)?;
    let held = Held {
        entries: journal,
        press,
    };
    Ok((held, sessions))
}

// Sessions that take up the calls of a journal that the press has, in the order of their numbers.
fn returning<N: HubName, M: Machine, S: Snapshot<N, M>, R: Wait + Drop>(
    alloc: Global,
    press: &Press<N, M, S, R>,
    journal: &CountedJournal<M>,
    count: u32,
) -> Result<Vec<Session<N, M, S>>, Memory>
    requires same { press.now.journal ≡ journal.now }
    requires seated { count ≤ N.sessions }
    ensures count { IfOk result (λ all. length all.items ≡ count) }
    ensures back { IfOk result (λ all. (number : ℕ) → IfSome (slice_get all.items number)
        (λ s. s ≡ returner number journal.now (calls_of M.rules.tag_of number journal.now))) }
{
    let mut all = Vec::new(alloc);
    for number in 0..count {
        let reader = press.reader()?;
        let front = press.front().again();
        let calls = journal.calls(number);
        all.push(Session::at(alloc, number, reader, front, calls))?;
    }
    Ok(all)
}

impl<N: HubName, M: Machine, S: Snapshot<N, M>, R: Wait + Drop> Held<N, M, S, R> {
    /// Whether the journal has all that the session saw, and just as many calls as it made.
    pub fn serves(&self, session: &Session<N, M, S>) -> bool
        ensures seen { IsTrue result → length session.now.front ≤ length self.now.journal }
        ensures calls { IsTrue result → session.now.calls ≡ calls_of M.rules.tag_of session.now.number self.now.journal }
    {
        self.entries.calls(session.number()) == session.calls()
            && session.seen() <= self.press.front().len()
    }

    /// The entries, in the order of their commits.
    pub fn journal(&self) -> Entries<'_, M>
        ensures journal { result ≡ self.now.journal }
        ensures kept { IsJournal M.rules self.now.journal }
        ensures seated { AreSeated M.rules.tag_of N.sessions self.now.journal }
    {
        self.entries.journal()
    }

    // The front of the journal.
    pub(crate) fn front(&self) -> &Front<N, M::Entry>
        ensures front { result.now ≡ self.now.journal }
        ensures kept { IsFront M.rules N.sessions self.now.journal }
    {
        self.press.front()
    }

    /// Publishes the journal. `Memory` leaves it, and what was published.
    pub fn publish(&mut self) -> Result<(), Memory>
        ensures { MatchResult result (λ _. self.new ≡ edition self.old.journal self.old.journal) (λ _. self.new ≡ self.old) }
    {
        self.press.publish()
    }

    // Settles the plan at the end of the journal, on the world that is published. Its entry is still
    // to be published.
    fn settle<L: Ledger>(
        &mut self,
        plan: M::Plan,
        moment: u64,
        tag: Tag,
        steps: &mut Steps<L>,
    ) -> Result<Done<M::Look>, Memory>
        requires made { IsMadeBefore M.rules plan self.old.journal }
        requires next { tag.call ≡ calls_of M.rules.tag_of tag.session self.old.journal + 1 }
        requires seat { tag.session < N.sessions }
        requires whole { self.old.published ≡ self.old.journal }
        ensures acts { (made : List M.Entry) (command : M.Command) → IsPrefix made self.old.journal
            → M.rules.planned (replay M.rules made) command plan → IfOk result
            (λ done. IsDone (M.rules.act (replay M.rules self.old.journal) tag moment command) self.old.journal self.new.journal done.answer done.place) }
        ensures entry { IfOk result (λ done. IsEntered M.rules.tag_of tag self.old.journal self.new.journal done.place) }
        ensures path { IfOk result (λ done. IsPath M.rules plan (replay M.rules self.old.journal) done.path) }
        ensures grows { IsPrefix self.old.journal self.new.journal }
        ensures calls { IfOk result
            (λ done. calls_of M.rules.tag_of tag.session self.new.journal
            ≡ calls_of M.rules.tag_of tag.session self.old.journal + count_of done.place) }
        ensures fast { IfOk result (λ done. MatchPath done.path (steps.new ≡ steps.old) (λ look. Unit {0})) }
        ensures published { self.new.published ≡ self.old.published }
        ensures err { OnErr result (self.new ≡ self.old) }
    {
        let judged = self
            .entries
            .judge(self.press.shown().world(), plan, moment, tag, steps)?;
        let Judged { settled, path } = judged;
        let Settled { answer, entry } = settled;
        let place = self.entries.enter(entry, tag, &mut self.press)?;
        Ok(Done {
            answer,
            place,
            path,
        })
    }
}

/// Commits the plan, publishes the journal, and lets the session go on from there. Where only the
/// publishing finds no memory, the session owes.
pub fn commit<N: HubName, M: Machine, S: Snapshot<N, M>, R: Wait + Drop, L: Ledger>(
    held: &mut Held<N, M, S, R>,
    session: &mut Session<N, M, S>,
    plan: M::Plan,
    moment: u64,
    steps: &mut Steps<L>,
) -> Result<Done<M::Look>, Memory>
    requires made { IsMadeBefore M.rules plan session.old.front }
    requires seen { length session.old.front ≤ length held.old.journal }
    requires calls { session.old.calls ≡ calls_of M.rules.tag_of session.old.number held.old.journal }
    requires settled { session.old.owes ≡ false }
    requires whole { held.old.published ≡ held.old.journal }
    ensures front { IsPrefix session.old.front session.new.front }
    ensures journal { IsPrefix held.old.journal held.new.journal }
    ensures done { IfOk result (λ done. IsCommitted M.rules session.old plan moment done held.old.journal held.new.journal) }
    ensures calls { OnOk result (session.new.calls ≡ calls_of M.rules.tag_of session.new.number held.new.journal) }
    ensures raised { IfOk result (λ done. session.new.calls ≡ session.old.calls + count_of done.place) }
    ensures settled { OnOk result (session.new.owes ≡ false → (session.new ≡ caught_up session.old held.new.journal session.new.calls)
        × (held.new.published ≡ held.new.journal)) }
    ensures owes { OnOk result (session.new.owes ≡ true → (session.new ≡ owing session.old session.new.calls)
        × (held.new.published ≡ held.old.published)) }
    ensures fast { IfOk result (λ done. MatchPath done.path (steps.new ≡ steps.old) (λ look. Unit {0})) }
    ensures err { OnErr result ((held.new ≡ held.old) × (session.new ≡ session.old)) }
{
    let _begins = session.standing.front().begins(held.press.front());
    if session.calls() == u64::MAX || session.debts() == u64::MAX {
        return Err(Memory);
    }
    // Its number is that of a seat.
    session.standing.law();
    let tag = Tag {
        session: session.number(),
        call: session.calls() + 1,
    };
    let done = held.settle(plan, moment, tag, steps)?;
    let calls = raised(session.calls(), done.place);
    publish_for(held, session, calls);
    Ok(done)
}

// Publishes the journal, and lets the session go on from there, or owe.
fn publish_for<N: HubName, M: Machine, S: Snapshot<N, M>, R: Wait + Drop>(
    held: &mut Held<N, M, S, R>,
    session: &mut Session<N, M, S>,
    calls: u64,
)
    requires room { session.old.debts + 1 < 2 ^ 64 }
    requires settled { session.old.owes ≡ false }
    requires raised { (calls ≡ session.old.calls) ⊎ (calls ≡ session.old.calls + 1) }
    requires there { calls ≡ calls_of M.rules.tag_of session.old.number held.old.journal }
    ensures front { IsPrefix session.old.front held.old.journal → IsPrefix session.old.front session.new.front }
    ensures journal { held.new.journal ≡ held.old.journal }
    ensures number { session.new.number ≡ session.old.number }
    ensures calls { session.new.calls ≡ calls }
    ensures settled { session.new.owes ≡ false → (session.new ≡ caught_up session.old held.new.journal calls)
        × (held.new.published ≡ held.new.journal) }
    ensures owes { session.new.owes ≡ true → (session.new ≡ owing session.old calls) × (held.new.published ≡ held.old.published) }
{
    match held.publish() {
        Ok(()) => session.standing.catch_up(held.press.front().again(), calls),
        Err(_) => session.standing.owe(calls),
    }
}

// One call more, if it has a place.
fn raised(calls: u64, place: Option<u64>) -> u64
    requires { calls + 1 < 2 ^ 64 }
    ensures sum { result ≡ calls + count_of place }
    ensures raised { (result ≡ calls) ⊎ (result ≡ calls + 1) }
{
    match place {
        Some(_) => calls + 1,
        None => calls,
    }
}

/// Publishes the journal, and lets the session go on from there. It owes nothing then. The front is the
/// journal that was found.
pub fn freshen<N: HubName, M: Machine, S: Snapshot<N, M>, R: Wait + Drop>(
    held: &mut Held<N, M, S, R>,
    session: &mut Session<N, M, S>,
) -> Result<FoundFront<N, M::Entry>, Memory>
    requires seen { length session.old.front ≤ length held.old.journal }
    requires calls { session.old.calls ≡ calls_of M.rules.tag_of session.old.number held.old.journal }
    ensures begins { IsPrefix session.old.front held.old.journal }
    ensures front { IsPrefix session.old.front session.new.front }
    ensures journal { held.new.journal ≡ held.old.journal }
    ensures found { IfOk result (λ found. found ≡ held.new.journal) }
    ensures ok { OnOk result ((session.new ≡ caught_up session.old held.new.journal session.old.calls)
        × (held.new.published ≡ held.new.journal)) }
    ensures err { OnErr result ((held.new ≡ held.old) × (session.new ≡ session.old)) }
{
    let _begins = session.standing.front().begins(held.press.front());
    held.publish()?;
    let calls = session.calls();
    session.standing.catch_up(held.press.front().again(), calls);
    Ok(held.press.found())
}

/// Publishes the journal as `freshen` does, and copies its entries from this place on, counted from
/// 0: at most so many, and fewer where the journal ends. The copies come first, so `Memory` leaves
/// all as it was.
pub fn part<N: HubName, M: Machine, S: Snapshot<N, M>, R: Wait + Drop>(
    held: &mut Held<N, M, S, R>,
    session: &mut Session<N, M, S>,
    from: u64,
    count: u64,
) -> Result<Vec<M::Entry>, Memory>
    requires seen { length session.old.front ≤ length held.old.journal }
    requires calls { session.old.calls ≡ calls_of M.rules.tag_of session.old.number held.old.journal }
    ensures part { IfOk result (λ part. part.items ≡ take count (drop from held.new.journal)) }
    ensures begins { IsPrefix session.old.front held.old.journal }
    ensures front { IsPrefix session.old.front session.new.front }
    ensures journal { held.new.journal ≡ held.old.journal }
    ensures ok { OnOk result ((session.new ≡ caught_up session.old held.new.journal session.old.calls)
        × (held.new.published ≡ held.new.journal)) }
    ensures err { OnErr result ((held.new ≡ held.old) × (session.new ≡ session.old)) }
{
    let _begins = session.standing.front().begins(held.press.front());
    let part = held.journal().part(session.alloc, from, count)?;
    let _found = freshen(held, session)?;
    Ok(part)
}
