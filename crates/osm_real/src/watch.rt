//! What asks for a stop once an input ends.

use crate::stop::{LOOK_EACH, Stop};
use libc::net::{POLLIN, poll};
use libc::types::pollfd;
use std::io::{ErrorKind, Read};
use std::os::fd::AsRawFd;
use std::rt::Clock;

/// How many bytes of the input are thrown away at a time.
const THROWN: usize = 4_096;

/// Whether the input has bytes, has ended or has failed: whether a read wouldn't wait. It waits for that, but not for long.
fn is_ready<I: AsRawFd>(input: &I) -> bool {
    let mut places = [pollfd {
        fd: input.as_raw_fd(),
        events: POLLIN,
        revents: 0,
    }];
    poll(&mut places, LOOK_EACH as i32) > 0
}

/// Whether the input has ended. It throws away what comes. An input that can't be read has ended too, but for one that has
/// nothing yet.
fn is_at_end<I: Read>(input: &mut I) -> bool {
    match input.read(&mut [0; THROWN]) {
        Ok(count) => count == 0,
        Err(why) => !matches!(why.kind(), ErrorKind::WouldBlock | ErrorKind::Interrupted),
    }
}

/// Reads the input to its end, and then asks for the stop. It returns too once the server has ended, a little later.
pub fn ask_at_end<I: Read + AsRawFd, C: Clock>(input: &mut I, clock: &C, stop: &Stop) {
    for _ in 0..u64::MAX {
        if stop.has_ended() {
            return;
        }
        if is_ready(input) && is_at_end(input) {
            stop.ask(clock);
            return;
        }
    }
}
