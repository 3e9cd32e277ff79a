//! Two sessions whose events go between one another.
ghost use Rattle.std.specs.Prelude.{◌≡◌, ◌<◌};

use crate::rising::Rising;
use hub_core::{Event, Path, Run, Seen, interleave};
use machine_law::Tag;
use osm_base::{Memory, Steps};
use std::alloc::Global;
use std::marker::Brand;
use std::sync::ledger::{Blank, Ledger};

/// What a reply says, in plain values.
#[derive(Clone, Copy, PartialEq, Eq)]
enum Reply {
    Idle,
    Planned,
    Added { place: u64 },
    AddedAfterAll { place: u64 },
    Refused { last: Option<u64> },
    Answered { number: Option<u8> },
    Other,
}

fn reply_of(seen: &Seen<Option<u64>>) -> Reply {
    match seen {
        Seen::Idle => Reply::Idle,
        Seen::Planned => Reply::Planned,
        Seen::Committed(done) => match (done.place, &done.path) {
            (Some(place), Path::Fast) => Reply::Added { place },
            (Some(place), Path::Slow(_)) => Reply::AddedAfterAll { place },
            (None, Path::Slow(last)) => Reply::Refused { last: *last },
            (None, Path::Fast) => Reply::Other,
        },
        Seen::Answered(bytes) => Reply::Answered {
            number: bytes.as_slice().first().copied(),
        },
    }
}

fn play<L: Ledger>(
    alloc: Global,
    blank: Blank,
    events: Vec<Event<u64, u64>>,
) -> Result<Run<(Tag, u64), Option<u64>>, Memory>
    requires name { blank.name ≡ L.name }
    requires parts { blank.parts ≡ L.parts }
    requires some { 0 < blank.parts }
{
    let (book, share) = blank.open::<L>();
    let mut steps = Steps::of(book, share);
    interleave::<Rising, L>(alloc, 2, events, &mut steps)
}

/// What comes next, at the moment 0.
#[derive(Clone, Copy)]
enum Step {
    Plan { session: u32, number: u64 },
    Commit { session: u32 },
    Publish,
    Ask { session: u32, place: u64 },
    Freshen { session: u32 },
}

fn event_of(step: Step) -> Event<u64, u64> {
    match step {
        Step::Plan { session, number } => Event::Plan {
            session,
            command: number,
        },
        Step::Commit { session } => Event::Commit { session, moment: 0 },
        Step::Publish => Event::Publish,
        Step::Ask { session, place } => Event::Ask {
            session,
            query: place,
            moment: 0,
        },
        Step::Freshen { session } => Event::Freshen { session },
    }
}

/// Session 0 adds 5 on what it planned, so the plan of session 1 to add 3 no longer stands and is
/// refused; its plan to add 7 was made before 6 came, and is settled after all.
const STEPS: [(Step, Reply); 17] = [
    (
        Step::Plan {
            session: 0,
            number: 5,
        },
        Reply::Planned,
    ),
    (
        Step::Plan {
            session: 1,
            number: 3,
        },
        Reply::Planned,
    ),
    (Step::Commit { session: 0 }, Reply::Added { place: 0 }),
    (
        Step::Commit { session: 1 },
        Reply::Refused { last: Some(5) },
    ),
    (Step::Commit { session: 0 }, Reply::Idle),
    (Step::Commit { session: 2 }, Reply::Idle),
    (
        Step::Ask {
            session: 0,
            place: 0,
        },
        Reply::Idle,
    ),
    (
        Step::Ask {
            session: 1,
            place: 0,
        },
        Reply::Idle,
    ),
    (Step::Publish, Reply::Idle),
    (
        Step::Plan {
            session: 1,
            number: 7,
        },
        Reply::Planned,
    ),
    (
        Step::Plan {
            session: 0,
            number: 6,
        },
        Reply::Planned,
    ),
    (Step::Commit { session: 0 }, Reply::Added { place: 1 }),
    (
        Step::Commit { session: 1 },
        Reply::AddedAfterAll { place: 2 },
    ),
    (Step::Freshen { session: 0 }, Reply::Idle),
    (Step::Freshen { session: 2 }, Reply::Idle),
    (
        Step::Ask {
            session: 0,
            place: 2,
        },
        Reply::Answered { number: Some(7) },
    ),
    (
        Step::Ask {
            session: 0,
            place: 3,
        },
        Reply::Answered { number: None },
    ),
];

fn events(alloc: Global) -> Result<Vec<Event<u64, u64>>, Memory> {
    let mut events = Vec::new(alloc);
    for (step, _) in &STEPS {
        events.push(event_of(*step))?;
    }
    Ok(events)
}

const ENTRIES: [(Tag, u64); 3] = [
    (
        Tag {
            session: 0,
            call: 1,
        },
        5,
    ),
    (
        Tag {
            session: 0,
            call: 2,
        },
        6,
    ),
    (
        Tag {
            session: 1,
            call: 1,
        },
        7,
    ),
];

fn are_wanted(replies: &[Seen<Option<u64>>]) -> bool {
    let mut is_right = replies.len() == STEPS.len();
    for (seen, step) in replies.iter().zip(STEPS.iter()) {
        is_right &= reply_of(seen) == step.1;
    }
    is_right
}

pub fn two_sessions_add_numbers(alloc: Global) -> Result<bool, Memory> {
    let events = events(alloc)?;
    let run = play::<Brand>(alloc, Blank::new(1), events)?;
    Ok(are_wanted(run.replies.as_slice()) && run.journal.as_slice() == ENTRIES.as_slice())
}
