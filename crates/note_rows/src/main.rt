//! Rows of a hub of notes, two sessions on two threads, and of a note with all its comments. What each
//! must give stands beside it; docs/ROWS.md tells more.
#![tactic(auto)]

mod full;
mod sent;
mod threads;
mod wanted;

use full::{a_full_note, a_note_with_room};
use osm_base::Memory;
use row_lines::Tally;
use sent::Wish;
use snapshot_hub::Seats;
use std::alloc::Global;
use std::io;
use std::marker::Brand;
use std::process::ExitCode;
use std::sync::Wait;
use std::thread::Threads;
use threads::{Row, two_threads_write};

/// Two threads open notes of their own.
const OPENING: Row = Row {
    first: None,
    each: Wish::Open,
    entries: 200,
};

/// Two threads write comments to one note, so that most are planned on a note that has changed since.
const COMMENTING: Row = Row {
    first: Some(Wish::Open),
    each: Wish::Comment,
    entries: 201,
};

fn play<R: Threads + Wait + Sync>(rt: &R, alloc: Global, row: Row) -> Result<bool, Memory> {
    two_threads_write::<Brand, R>(rt, alloc, Seats::new(2), row)
}

fn main(rt: HostRuntime) -> io::Result<ExitCode> {
    let mut tally = Tally::none();
    let opened = play(&rt, rt.alloc(), OPENING);
    tally.note(&rt, "two threads open a hundred notes each", opened);
    let commented = play(&rt, rt.alloc(), COMMENTING);
    tally.note(&rt, "two threads comment on one note", commented);
    tally.note(&rt, "a full note is closed", a_full_note(rt.alloc()));
    tally.note(
        &rt,
        "a note that is nearly full",
        a_note_with_room(rt.alloc()),
    );
    tally.tell(&rt)?;
    if tally.is_right() {
        Ok(ExitCode::SUCCESS)
    } else {
        Ok(ExitCode::FAILURE)
    }
}
