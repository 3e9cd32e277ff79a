//! Calls at values that were worked out by hand: of tables, changes, commands, loads and answers. What
//! each must give stands beside it. Bodies and journals come from the input, with what each must be
//! read as; docs/ROWS.md tells more.
#![tactic(auto)]

mod answers;
mod changes;
mod commands;
mod labels;
mod loads;
mod nodes;
mod tables;
mod texts;
mod values;

use row_lines::Tally;
use std::io;
use std::process::ExitCode;

fn main(rt: HostRuntime) -> io::Result<ExitCode> {
    let alloc = rt.alloc();
    let mut tally = Tally::none();
    tables::play(&rt, alloc, &mut tally);
    values::play(&rt, alloc, &mut tally);
    changes::play(&rt, alloc, &mut tally);
    commands::play(&rt, alloc, &mut tally);
    loads::play(&rt, alloc, &mut tally);
    answers::play(&rt, alloc, &mut tally);
    tally.tell(&rt)?;
    let text = io::read_to_string(alloc, rt.stdin())?;
    let are_read = texts::play(&rt, alloc, text.as_str())?;
    if tally.is_right() && are_read {
        Ok(ExitCode::SUCCESS)
    } else {
        Ok(ExitCode::FAILURE)
    }
}
