//! Rows of workers over one list: on ports in memory, in threads.
#![tactic(auto)]

mod links;
mod numbers;
mod served;

use row_lines::Tally;
use std::io;
use std::process::ExitCode;

fn main(rt: HostRuntime) -> io::Result<ExitCode> {
    let mut tally = Tally::none();
    served::play(&rt, rt.alloc(), &mut tally);
    tally.tell(&rt)?;
    if tally.is_right() {
        Ok(ExitCode::SUCCESS)
    } else {
        Ok(ExitCode::FAILURE)
    }
}
