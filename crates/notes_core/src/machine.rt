//! Notes as a machine: a world that changes by entries.
ghost use Rattle.std.specs.Prelude.{◌≡◌, Some, None, IfOk, IsOk, MatchResult};
ghost use Rattle.notes_core.specs.Act.{judge, known};
ghost use Rattle.notes_core.specs.Machine.{act_as, reply};
ghost use Rattle.notes_core.specs.Plan.{Stands, Differs, comments_of};
ghost use Rattle.notes_core.specs.Sent.{HasTimelyEnd};
ghost use Rattle.notes_core.specs.Search.{found, numbered};
ghost use Rattle.notes_core.specs.Shown.{effect_bytes, one_bytes, found_bytes, refusal_bytes};
ghost use Rattle.notes_core.specs.World.{state_of, IsTimelyMoment};

use crate::answers::{entry_answer, kept_answer, list_answer, refusal_answer};
use crate::commands::{NoteAsked, NoteEntry, NoteLook, NotePlan, NoteQuery, NoteSubject};
use crate::limits::NOTES_AREA_LIMIT;
use crate::notes::{NoteRefusal, Notes};
use crate::search::newest_within;
use crate::worlds::NotesWorld;
use machine_law::{Machine, Settled, Tag};
use osm_base::{Box7, Bytes, Memory, Stamp, Steps, TryCopy};
use std::alloc::Global;
use std::sync::ledger::Ledger;

/// Notes. A command is planned with the number of comments of its note, and judged when it is
/// settled.
pub struct NotesMachine;

impl Machine for NotesMachine {
    ghost use Rattle.notes_core.specs.World.{state_of, HasRoomFor};
    ghost use Rattle.notes_core.specs.Machine.{note_rules};
    ghost use Rattle.notes_core.specs.Laws.{accepted_taken, empty_bounded, after_bounded};

    type World = NotesWorld;

    type Command = NoteAsked;

    type Query = NoteQuery;

    type Found = Bytes;

    type Plan = NotePlan;

    type Entry = NoteEntry;

    type Kept = NoteEntry;

    type Look = NoteLook;

    type State = Notes;

    ghost state = { λ w. state_of w };

    ghost rules = { note_rules };

    ghost told = { λ found. found };

    ghost entry_of = { λ kept. kept };

    ghost has_room = { λ w entry. HasRoomFor w entry.command };

    fn empty(alloc: Global) -> NotesWorld {
        NotesWorld::empty(alloc)
    }

    fn plan<L: Ledger>(
        _alloc: Global,
        world: &NotesWorld,
        command: NoteAsked,
        _steps: &mut Steps<L>,
    ) -> Result<NotePlan, Memory> {
        Ok(plan_command(world, command))
    }

    fn still(world: &NotesWorld, plan: &NotePlan) -> Result<(), NoteLook> {
        plan_still(world, plan)
    }

    fn settle<L: Ledger>(
        alloc: Global,
        world: &NotesWorld,
        plan: NotePlan,
        tag: Tag,
        moment: u64,
        _steps: &mut Steps<L>,
    ) -> Result<Settled<NoteEntry>, Memory> {
        settle_on(alloc, world, plan.asked, tag, moment)
    }

    fn again<L: Ledger>(
        alloc: Global,
        world: &NotesWorld,
        plan: NotePlan,
        tag: Tag,
        moment: u64,
        _steps: &mut Steps<L>,
    ) -> Result<Settled<NoteEntry>, Memory> {
        settle_on(alloc, world, plan.asked, tag, moment)
    }

    fn tag(entry: &NoteEntry) -> Tag {
        Tag {
            session: entry.session,
            call: entry.call,
        }
    }

    fn copy(alloc: Global, entry: &NoteEntry) -> Result<NoteEntry, Memory> {
        entry.copy(alloc)
    }

    fn keep(alloc: Global, entry: &NoteEntry) -> Result<NoteEntry, Memory> {
        entry.copy(alloc)
    }

    fn entry(alloc: Global, kept: &NoteEntry) -> Result<NoteEntry, Memory> {
        kept.copy(alloc)
    }

    fn accepts(_alloc: Global, world: &NotesWorld, entry: &NoteEntry) -> Result<bool, Memory> {
        Ok(world.takes(entry))
    }

    fn make_room(alloc: Global, world: &mut NotesWorld, entry: &NoteEntry) -> Result<(), Memory> {
        world.make_room(alloc, entry)
    }

    fn apply(world: &mut NotesWorld, entry: NoteEntry) {
        world.apply(entry);
    }

    fn find<L: Ledger>(
        alloc: Global,
        world: &NotesWorld,
        query: &NoteQuery,
        _moment: u64,
        _steps: &mut Steps<L>,
    ) -> Result<Bytes, Memory> {
        answer_query(alloc, world, query)
    }

    fn tell(_alloc: Global, found: Bytes) -> Result<Bytes, Memory> {
        Ok(found)
    }

    ghost entry_taken = { accepted_taken };

    ghost start_consistent = { empty_bounded };

    ghost after_consistent = { after_bounded };
}

fn plan_command(world: &NotesWorld, asked: NoteAsked) -> NotePlan
    ensures asked { result.asked ≡ asked }
    ensures stands { Stands result (state_of world.now) }
{
    let count = match asked.command.subject() {
        NoteSubject::New(_) => 0,
        NoteSubject::Known(id) => world.comments_of(id),
    };
    NotePlan { asked, count }
}

/// Whether the note of a plan has as many comments as when it was planned.
fn plan_still(world: &NotesWorld, plan: &NotePlan) -> Result<(), NoteLook>
    ensures { MatchResult result (λ _. Stands plan.now (state_of world.now))
        (λ look. ¬ Stands plan.now (state_of world.now) × Differs look plan.now (state_of world.now)) }
{
    match plan.asked.command.subject() {
        NoteSubject::New(_) => Ok(()),
        NoteSubject::Known(id) => count_still(world, id, plan.count),
    }
}

/// Whether a note has this number of comments.
fn count_still(world: &NotesWorld, id: u64, planned: u64) -> Result<(), NoteLook>
    ensures { MatchResult result (λ _. planned ≡ comments_of (state_of world.now) id)
        (λ look. (look ≡ record { id = id; planned = planned; found = comments_of (state_of world.now) id }) × ¬ (planned ≡ comments_of (state_of world.now) id)) }
{
    let found = world.comments_of(id);
    if found == planned {
        Ok(())
    } else {
        Err(NoteLook { id, planned, found })
    }
}

/// What a caller's command comes to, as that call, at a moment.
fn settle_on(
    alloc: Global,
    world: &NotesWorld,
    asked: NoteAsked,
    tag: Tag,
    moment: u64,
) -> Result<Settled<NoteEntry>, Memory>
    ensures { IfOk result (λ s. s ≡ act_as (state_of world.now) tag moment asked) }
{
    let at = Stamp::after(world.last_stamp(), moment);
    match world.judge(&asked.command) {
        Ok(()) => accepted(alloc, world, asked, tag, at),
        Err(refusal) => refused(alloc, refusal),
    }
}

/// The same of a command that is accepted.
fn accepted(
    alloc: Global,
    world: &NotesWorld,
    asked: NoteAsked,
    tag: Tag,
    at: Stamp,
) -> Result<Settled<NoteEntry>, Memory>
    requires accepted { IsOk (judge (state_of world.now) asked.caller at asked.command) }
    requires timely { IsTimelyMoment at }
    ensures { IfOk result (λ s. s ≡ record {
      answer = effect_bytes (judge (state_of world.now) asked.caller at asked.command);
      entry = Some (record { session = tag.session; call = tag.call; caller = asked.caller; stamp = at; command = asked.command });
    }) }
{
    let entry = entry_by(asked, tag, at);
    let answer = entry_answer(alloc, world, &entry)?;
    Ok(Settled {
        answer,
        entry: Some(entry),
    })
}

/// The entry of a caller's command, as that call, at a stamp.
fn entry_by(asked: NoteAsked, tag: Tag, at: Stamp) -> NoteEntry
    ensures { result
        ≡ record { session = tag.session; call = tag.call; caller = asked.caller; stamp = at; command = asked.command } }
{
    let NoteAsked { caller, command } = asked;
    NoteEntry {
        session: tag.session,
        call: tag.call,
        caller,
        stamp: at,
        command,
    }
}

/// What a command that is refused comes to: no entry.
fn refused(alloc: Global, refusal: NoteRefusal) -> Result<Settled<NoteEntry>, Memory>
    requires { HasTimelyEnd refusal }
    ensures { IfOk result (λ s. s ≡ record { answer = refusal_bytes refusal; entry = None }) }
{
    let answer = refusal_answer(alloc, &refusal)?;
    Ok(Settled {
        answer,
        entry: None,
    })
}

/// What a query is answered.
fn answer_query(alloc: Global, world: &NotesWorld, query: &NoteQuery) -> Result<Bytes, Memory>
    ensures { IfOk result (λ bytes. bytes ≡ reply (state_of world.now) query.now) }
{
    match query {
        NoteQuery::One { id } => answer_one(alloc, world, *id),
        NoteQuery::Within { within, closed } => answer_within(alloc, world, within, *closed),
    }
}

fn answer_one(alloc: Global, world: &NotesWorld, id: u64) -> Result<Bytes, Memory>
    ensures { IfOk result (λ bytes. bytes ≡ one_bytes id (known (state_of world.now) id)) }
{
    match world.known(id) {
        Ok(kept) => kept_answer(alloc, id, kept),
        Err(refusal) => refusal_answer(alloc, &refusal),
    }
}

fn answer_within(
    alloc: Global,
    world: &NotesWorld,
    within: &Box7,
    closed: bool,
) -> Result<Bytes, Memory>
    ensures { IfOk result (λ bytes. bytes ≡ found_bytes (numbered (state_of world.now)) (found (state_of world.now) within.now closed)) }
{
    let area = within.area();
    if area > NOTES_AREA_LIMIT {
        return refusal_answer(alloc, &NoteRefusal::NotesArea { area });
    }
    let ids = newest_within(alloc, world, within, closed)?;
    list_answer(alloc, world, ids.as_slice())
}
