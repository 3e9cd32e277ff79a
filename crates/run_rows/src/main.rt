//! Plays the rows of a text: whole runs of `serve`, of `serve-notes` and of a mirror on ports in
//! memory, with a journal's file in memory or without. docs/ROWS.md has the format.
#![tactic(auto)]

mod came;
mod checks;
mod given;
mod marks;
mod mixed;
mod ports;
mod replies;
mod rows;

use row_lines::Tally;
use rows::Row;
use std::alloc::Global;
use std::io;
use std::process::ExitCode;
use std::sync::Wait;
use std::thread::Threads;

/// Plays a row: its name, and the lines behind it.
fn play_row<R: Print + Threads + Wait + Sync>(
    rt: &R,
    alloc: Global,
    blocks: &str,
    row: &str,
    tally: &mut Tally,
) {
    let (name, lines) = row.split_once('\n').unwrap_or((row, ""));
    let mut row = Row::new(alloc);
    let is_right = row.play(rt, alloc, blocks, lines);
    tally.note(rt, name, Ok(is_right));
}

/// Plays each row of the text, tells of each that is wrong, and then how many were played. What
/// stands before the first row are the blocks that rows use.
fn play_all<R: Print + Threads + Wait + Sync>(
    rt: &R,
    alloc: Global,
    text: &str,
) -> io::Result<bool> {
    let mut tally = Tally::none();
    let mut parts = text.split("\n== ");
    let blocks = parts.next().unwrap_or("");
    for row in parts {
        play_row(rt, alloc, blocks, row, &mut tally);
    }
    tally.tell(rt)?;
    Ok(tally.is_right())
}

fn main(rt: HostRuntime) -> io::Result<ExitCode> {
    let text = io::read_to_string(rt.alloc(), rt.stdin())?;
    if play_all(&rt, rt.alloc(), text.as_str())? {
        Ok(ExitCode::SUCCESS)
    } else {
        Ok(ExitCode::FAILURE)
    }
}
