//! Rows of links that a hub's sessions serve: one that breaks off at each place, workers whose uploads
//! cross, and workers on a listener of the system. Whole runs are rows of `run_rows`.
#![tactic(auto)]

mod crossing;
mod gates;
mod links;
mod ports;
mod replies;
mod sockets;
mod texts;

use row_lines::Tally;
use std::io;
use std::process::ExitCode;

fn main(rt: HostRuntime) -> io::Result<ExitCode> {
    let mut tally = Tally::none();
    links::play(&rt, rt.alloc(), &mut tally);
    crossing::play(&rt, rt.alloc(), &mut tally);
    sockets::play(&rt, rt, &mut tally);
    tally.tell(&rt)?;
    if tally.is_right() {
        Ok(ExitCode::SUCCESS)
    } else {
        Ok(ExitCode::FAILURE)
    }
}
