//! The map server's program. `program` has the contract; main hands it what the system gives: the
//! words, the files, the clock and the standard streams. With `--until-input-ends` a second thread reads the
//! standard input, and asks for the stop at its end.
#![tactic(auto)]

mod start;

use osm_real::{FileHost, FileJournals, Stop, StreamLink, ask_at_end};
use osm_words::is_until_input_ends;
use start::program;
use std::env;
use std::process::ExitCode;
use std::sync::Wait;
use std::thread::{Threads, join};

fn run<R: Threads + Wait + Sync>(handle: &R, rt: HostRuntime, stop: &Stop) -> ExitCode {
    let status = program(
        handle,
        rt.alloc(),
        env::args(&rt),
        &mut FileHost::new(rt, stop),
        &mut FileJournals::new(rt, stop),
        &mut StreamLink::new(rt.stdin(), rt.stdout(), rt),
    );
    stop.tell_end();
    status
}

fn main(rt: HostRuntime) -> ExitCode {
    let stop = Stop::new();
    if !is_until_input_ends(rt.alloc(), env::args(&rt)) {
        return run(&rt, rt, &stop);
    }
    // The watch comes last where no thread can be made, and finds that the program has ended.
    join(
        &rt,
        || ask_at_end(&mut rt.stdin(), &rt, &stop),
        || run(&rt, rt, &stop),
    )
    .1
}
