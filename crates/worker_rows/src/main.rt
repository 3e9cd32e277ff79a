//! Rows of workers: on ports in memory, and on one listener of the system.
#![tactic(auto)]

mod desk;
mod flaky;
mod held;
mod meeting;
mod patience;
mod seated;
mod sockets;
mod stopping;

use row_lines::Tally;
use std::io;
use std::process::ExitCode;

fn main(rt: HostRuntime) -> io::Result<ExitCode> {
    let mut tally = Tally::none();
    held::play(&rt, rt.alloc(), &mut tally);
    seated::play(&rt, rt.alloc(), &mut tally);
    meeting::play(&rt, rt.alloc(), &mut tally);
    flaky::play(rt, &mut tally);
    patience::play(&rt, &mut tally);
    sockets::play(&rt, rt, &mut tally);
    stopping::play(&rt, rt, &mut tally);
    tally.tell(&rt)?;
    if tally.is_right() {
        Ok(ExitCode::SUCCESS)
    } else {
        Ok(ExitCode::FAILURE)
    }
}
