//! Plays the rows of a text: hubs and a book over a small machine, on one thread and on two.
//! docs/ROWS.md has the format.
#![tactic(auto)]

ghost use Rattle.std.specs.Prelude.{◌≡◌, ◌<◌};

mod books;
mod closings;
mod hubs;
mod listing;
mod plays;
mod rows;
mod tells;

use books::play_book;
use osm_base::{Memory, Steps};
use row_lines::{RowFault, Tally};
use rows::play_hub;
use std::alloc::Global;
use std::io;
use std::marker::Brand;
use std::process::ExitCode;
use std::sync::Wait;
use std::sync::ledger::{Blank, Ledger};
use std::thread::Threads;

/// Plays the lines of a row, of which the first may say that it is on a book.
fn play_row<R: Threads + Wait + Sync + Print, L: Ledger>(
    rt: &R,
    alloc: Global,
    lines: &str,
    steps: &mut Steps<L>,
) -> Result<bool, Memory> {
    let came = match lines.strip_prefix("on a book\n") {
        Some(lines) => play_book(rt, alloc, lines, steps),
        None => play_hub(rt, alloc, lines, steps),
    };
    match came {
        Ok(is_right) => Ok(is_right),
        Err(RowFault::Unread) => Ok(false),
        Err(RowFault::Memory) => Err(Memory),
    }
}

/// Plays each row of the text.
fn play_all<R: Threads + Wait + Sync + Print, L: Ledger>(
    rt: &R,
    alloc: Global,
    text: &str,
    steps: &mut Steps<L>,
) -> Tally {
    let mut tally = Tally::none();
    for row in text.split("\n== ").skip(1) {
        let (name, lines) = row.split_once('\n').unwrap_or((row, ""));
        let came = play_row(rt, alloc, lines, steps);
        tally.note(rt, name, came);
    }
    tally
}

/// The same, with steps that nobody counts. A `&str` in its signature would let no caller pick the ledger.
fn play<R: Threads + Wait + Sync + Print, L: Ledger>(
    rt: &R,
    alloc: Global,
    text: &String,
    blank: Blank,
) -> Tally
    requires name { blank.name ≡ L.name }
    requires parts { blank.parts ≡ L.parts }
    requires some { 0 < blank.parts }
{
    let (ledger, share) = blank.open::<L>();
    let mut steps = Steps::of(ledger, share);
    play_all(rt, alloc, text.as_str(), &mut steps)
}

/// The same, with the ledger picked.
fn play_uncounted<R: Threads + Wait + Sync + Print>(rt: &R, alloc: Global, text: &String) -> Tally {
    play::<R, Brand>(rt, alloc, text, Blank::new(1))
}

fn main(rt: HostRuntime) -> io::Result<ExitCode> {
    let text = io::read_to_string(rt.alloc(), rt.stdin())?;
    let tally = play_uncounted(&rt, rt.alloc(), &text);
    tally.tell(&rt)?;
    if tally.is_right() {
        Ok(ExitCode::SUCCESS)
    } else {
        Ok(ExitCode::FAILURE)
    }
}
