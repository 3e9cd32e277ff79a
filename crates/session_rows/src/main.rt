//! Plays the rows of a text through the top calls of the server and of a mirror: sessions of requests
//! on a link in memory, and what must come of them. docs/ROWS.md has the format.
#![tactic(auto)]

mod pieces;
mod plays;
mod rows;
mod sweeps;
mod tally;

use std::alloc::Global;
use std::io;
use std::process::ExitCode;
use std::sync::Wait;
use std::thread::Threads;
use tally::Tally;

/// Plays each row of the text, tells of each that is wrong, and then how many were played.
fn play_all<R: Print + Threads + Wait + Sync>(
    rt: &R,
    alloc: Global,
    text: &str,
) -> io::Result<bool> {
    let mut tally = Tally::none();
    for row in text.split("\n== ").skip(1) {
        tally.play(rt, alloc, row)?;
    }
    tally.tell(rt)?;
    Ok(tally.is_right())
}

fn main(rt: HostRuntime) -> io::Result<ExitCode> {
    let text = io::read_to_string(rt.alloc(), rt.stdin())?;
    if play_all(&rt, rt.alloc(), text.as_str())? {
        Ok(ExitCode::SUCCESS)
    } else {
        Ok(ExitCode::FAILURE)
    }
}
