//! A small machine, what two sessions get of it, and commits whose offers are refused, in rows. What
//! each must give stands beside it; docs/ROWS.md tells more.
#![tactic(auto)]

mod offers;
mod rising;
mod sessions;

use row_lines::Tally;
use std::io;
use std::process::ExitCode;

fn main(rt: HostRuntime) -> io::Result<ExitCode> {
    let alloc = rt.alloc();
    let mut tally = Tally::none();
    tally.note(
        &rt,
        "two sessions add numbers",
        sessions::two_sessions_add_numbers(alloc),
    );
    offers::play_all(&rt, alloc, &mut tally);
    tally.tell(&rt)?;
    if tally.is_right() {
        Ok(ExitCode::SUCCESS)
    } else {
        Ok(ExitCode::FAILURE)
    }
}
