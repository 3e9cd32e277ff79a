//! Plays rows of requests on the plain program and on the fast one. Each reply must be the same, byte
//! by byte, each entry of the two journals, and after each entry each part of the two maps.
//! docs/ROWS.md has the format.
#![tactic(auto)]

mod counts;
mod desks;
mod faults;
mod interleaves;
mod meetings;
mod plain;
mod plays;
mod rows;
mod steps;

use faults::Fault;
use plain::PlainDesk;
use plays::Play;
use route_table::Routes;
use rows::play_row;
use std::alloc::Global;
use std::io;
use std::process::ExitCode;
use user_table::UserTable;

/// The users of the rows: bob is a moderator, Carol's name has to be escaped in JSON, dave has a limit
/// on the boxes of changesets, and the others send the loads. Changesets may be large from the year
/// 8307 on.
const USERS: &str =
    "1 alicetoken user alice\n2 bobtoken moderator bob\n3 caroltoken user Carol \"Ö\" \\ 3\n4 t1 user m1\n5 t2 user m2\n6 t3 user m3\n7 davetoken user/1000000 dave\n@large-from 200000000000\n";

/// Plays each row of the text, and tells how often each route was answered and each refusal came.
fn play_rows<R: Print>(
    rt: &R,
    plain: &PlainDesk<'_>,
    play: &mut Play,
    text: &str,
) -> Result<bool, Fault> {
    for row in text.split("\n== ").skip(1) {
        play_row(rt, plain, play, row)?;
    }
    play.counts.tell(rt)?;
    Ok(play.is_right())
}

fn play_on<R: Print>(rt: &R, plain: &PlainDesk<'_>, text: &str) -> Result<bool, Fault> {
    let mut play = Play::new(plain.alloc);
    play_rows(rt, plain, &mut play, text)
}

fn play_for<R: Print>(rt: &R, alloc: Global, users: &UserTable, text: &str) -> Result<bool, Fault> {
    match Routes::new(alloc) {
        Ok(routes) => {
            let plain = PlainDesk {
                alloc,
                routes: &routes,
                users,
            };
            play_on(rt, &plain, text)
        }
        Err(why) => Err(Fault::from(why)),
    }
}

fn play_all<R: Print>(rt: &R, alloc: Global, text: &str) -> Result<bool, Fault> {
    match UserTable::read(alloc, USERS.as_bytes()) {
        Ok(users) => play_for(rt, alloc, &users, text),
        Err(_) => Err(Fault::Users),
    }
}

fn main(rt: HostRuntime) -> io::Result<ExitCode> {
    let text = io::read_to_string(rt.alloc(), rt.stdin())?;
    match play_all(&rt, rt.alloc(), text.as_str()) {
        Ok(true) => Ok(ExitCode::SUCCESS),
        Ok(false) => Ok(ExitCode::FAILURE),
        Err(why) => {
            println!(rt; "a row ended early: {}", why.name())?;
            Ok(ExitCode::FAILURE)
        }
    }
}
