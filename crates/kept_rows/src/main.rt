//! Rows of the files that journals are kept in, and of what they hold of a list that only grows: in
//! memory, in threads, and on files of the system. docs/ROWS.md tells more.
#![tactic(auto)]

mod crashes;
mod disk;
mod drawn;
mod marks;
mod memory;
mod roomy;
mod script;
mod shelves;
mod starts;
mod texts;

use row_lines::Tally;
use std::io;
use std::process::ExitCode;

fn main(rt: HostRuntime) -> io::Result<ExitCode> {
    let mut tally = Tally::none();
    crashes::play(&rt, rt.alloc(), &mut tally);
    memory::play(&rt, rt.alloc(), &mut tally);
    shelves::play(&rt, rt.alloc(), &mut tally);
    disk::play(rt, &mut tally);
    tally.tell(&rt)?;
    if tally.is_right() {
        Ok(ExitCode::SUCCESS)
    } else {
        Ok(ExitCode::FAILURE)
    }
}
