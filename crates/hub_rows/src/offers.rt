//! Commits of which each offer is refused in turn.
ghost use Rattle.std.specs.Prelude.{◌≡◌, ◌<◌};

use crate::rising::Rising;
use hub_core::{Book, ListOutlet, Outlet};
use machine_law::{Machine, Tag};
use osm_base::{Memory, Steps};
use row_lines::Tally;
use std::alloc::Global;
use std::marker::Brand;
use std::sync::ledger::{Blank, Ledger};

type Entry = (Tag, u64);

/// A number that a session commits, and how many entries there must be before and after it.
#[derive(Clone, Copy)]
struct Row {
    session: u32,
    number: u64,
    before: usize,
    after: usize,
}

/// The third number is less than the one before it. The machine refuses it, so it isn't offered.
const ROWS: [Row; 5] = [
    Row {
        session: 0,
        number: 5,
        before: 0,
        after: 1,
    },
    Row {
        session: 1,
        number: 7,
        before: 1,
        after: 2,
    },
    Row {
        session: 0,
        number: 3,
        before: 2,
        after: 2,
    },
    Row {
        session: 1,
        number: 7,
        before: 2,
        after: 3,
    },
    Row {
        session: 0,
        number: 20,
        before: 3,
        after: 4,
    },
];

const NUMBERS: [u64; 4] = [5, 7, 7, 20];

/// What must be accepted of the rows.
const ENTRIES: [Entry; 4] = [
    (
        Tag {
            session: 0,
            call: 1,
        },
        5,
    ),
    (
        Tag {
            session: 1,
            call: 1,
        },
        7,
    ),
    (
        Tag {
            session: 1,
            call: 2,
        },
        7,
    ),
    (
        Tag {
            session: 0,
            call: 2,
        },
        20,
    ),
];

/// The row at which each offer is made, where none before it was refused.
const ROW_OF_OFFER: [usize; 4] = [0, 1, 3, 4];

/// The row whose commit found no memory, and whether book and outlet were right all the time.
#[derive(Clone, Copy)]
struct Course {
    lacking: Option<usize>,
    right: bool,
}

fn commit<L: Ledger>(
    alloc: Global,
    book: &mut Book<Rising>,
    row: Row,
    outlet: &mut ListOutlet<Entry>,
    steps: &mut Steps<L>,
) -> Result<Option<u64>, Memory> {
    let Some(call) = book.calls(row.session).checked_add(1) else {
        return Err(Memory);
    };
    let tag = Tag {
        session: row.session,
        call,
    };
    let plan = Rising::plan(alloc, book.world(), row.number, steps)?;
    let done = book.commit(plan, 0, tag, outlet, steps)?;
    Ok(done.place)
}

fn calls_in(count: usize, session: u32) -> u64 {
    let mut calls = 0u64;
    for entry in ENTRIES.iter().take(count) {
        if entry.0.session == session {
            calls = calls.saturating_add(1);
        }
    }
    calls
}

/// Whether journal, world, counts and outlet are those after so many entries.
fn is_after(
    alloc: Global,
    count: usize,
    book: &Book<Rising>,
    outlet: &ListOutlet<Entry>,
) -> Result<bool, Memory> {
    let journal = book.journal().all(alloc)?;
    let (held, world) = (outlet.held(), book.world());
    Ok(
        journal.len() == count
            && held.len() == count
            && world.len() == count
            && ENTRIES.starts_with(journal.as_slice())
            && ENTRIES.starts_with(held)
            && NUMBERS.starts_with(world.as_slice())
            && book.calls(0) == calls_in(count, 0)
            && book.calls(1) == calls_in(count, 1),
    )
}

/// Commits a number, and once more where it finds no memory.
fn play_row<L: Ledger>(
    alloc: Global,
    book: &mut Book<Rising>,
    place: usize,
    row: Row,
    outlet: &mut ListOutlet<Entry>,
    course: &mut Course,
    steps: &mut Steps<L>,
) -> Result<(), Memory> {
    let entry = match commit(alloc, book, row, outlet, steps) {
        Ok(entry) => entry,
        Err(Memory) => {
            course.lacking = Some(place);
            course.right &= is_after(alloc, row.before, book, outlet)?;
            commit(alloc, book, row, outlet, steps)?
        }
    };
    course.right &= entry == (row.before < row.after).then_some(row.before as u64);
    course.right &= is_after(alloc, row.after, book, outlet)?;
    Ok(())
}

/// Plays all rows on a new book, where the offers with those numbers are refused.
fn play<L: Ledger>(alloc: Global, blank: Blank, bad: Vec<u64>) -> Result<Course, Memory>
    requires name { blank.name ≡ L.name }
    requires parts { blank.parts ≡ L.parts }
    requires some { 0 < blank.parts }
{
    let (ledger, share) = blank.open::<L>();
    let mut steps = Steps::of(ledger, share);
    let mut book = Book::<Rising>::new(alloc);
    let mut outlet = ListOutlet::new(alloc, bad);
    let mut course = Course {
        lacking: None,
        right: true,
    };
    for (place, row) in ROWS.iter().enumerate() {
        play_row(
            alloc,
            &mut book,
            place,
            *row,
            &mut outlet,
            &mut course,
            &mut steps,
        )?;
    }
    Ok(course)
}

/// Plays all rows, where the offers with those numbers are refused: whether all went right, and the
/// row at this place alone found no memory.
fn lacks(alloc: Global, bad: Vec<u64>, place: Option<usize>) -> Result<bool, Memory> {
    let course = play::<Brand>(alloc, Blank::new(1), bad)?;
    Ok(course.right && course.lacking == place)
}

fn each_offer_is_refused_in_turn(alloc: Global) -> Result<bool, Memory> {
    let mut is_right = true;
    for (offer, place) in ROW_OF_OFFER.iter().enumerate() {
        let bad = vec![in alloc; offer as u64]?;
        is_right &= lacks(alloc, bad, Some(*place))?;
    }
    Ok(is_right)
}

fn a_cleared_outlet_counts_on(alloc: Global) -> Result<bool, Memory> {
    let mut outlet = ListOutlet::new(alloc, vec![in alloc; 1, 2]?);
    let mut is_right = true;
    for (number, taken) in [true, false, false, true].iter().enumerate() {
        is_right &= outlet.offer(number).is_ok() == *taken;
    }
    is_right &= outlet.held() == [0usize, 3].as_slice();
    outlet.clear();
    Ok(is_right && outlet.held().is_empty())
}

pub fn play_all<R: Print>(rt: &R, alloc: Global, tally: &mut Tally) {
    tally.note(
        rt,
        "no offer is refused",
        lacks(alloc, Vec::new(alloc), None),
    );
    tally.note(
        rt,
        "each offer is refused in turn",
        each_offer_is_refused_in_turn(alloc),
    );
    tally.note(
        rt,
        "a cleared outlet counts on",
        a_cleared_outlet_counts_on(alloc),
    );
}
