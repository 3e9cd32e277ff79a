//! An orderly stop, which one thread asks for and others look for.

use std::rt::Clock;
use std::sync::atomic::{AtomicBool, AtomicU64, Ordering};

/// How long after a stop was asked for links may still be served, in seconds. Then all their reads and writes fail.
const STOP_LIMIT: u64 = 10;

/// How often those that wait look whether a stop was asked for, in milliseconds.
pub const LOOK_EACH: u64 = 250;

/// Whether a server is to end, and whether it has. All that serve look at it: once a stop was asked for no link is taken, and
/// a link ends behind the replies that were begun. It can't be taken back.
#[derive(Drop)]
pub struct Stop {
    /// When it was asked for, in seconds of the monotonic clock, and 0 before. `u64::MAX` where the clock couldn't be read.
    asked: AtomicU64,
    ended: AtomicBool,
}

impl Stop {
    /// A stop that nobody asked for yet.
    pub fn new() -> Stop {
        Stop {
            asked: AtomicU64::new(0),
            ended: AtomicBool::new(false),
        }
    }

    /// Asks for the stop. The first time counts.
    pub fn ask<C: Clock>(&self, clock: &C) {
        let now = match clock.monotonic() {
            Ok(now) => now.as_secs().max(1),
            Err(_) => u64::MAX,
        };
        let _ = self
            .asked
            .compare_exchange(0, now, Ordering::SeqCst, Ordering::SeqCst);
    }

    /// Whether the stop was asked for.
    pub fn is_asked(&self) -> bool {
        self.asked.load(Ordering::SeqCst) != 0
    }

    /// Whether it was asked for more than 10 seconds ago. Where the clock couldn't be read it wasn't.
    pub fn is_late<C: Clock>(&self, clock: &C) -> bool {
        let asked = self.asked.load(Ordering::SeqCst);
        if asked == 0 {
            return false;
        }
        match clock.monotonic() {
            Ok(now) => now.as_secs().saturating_sub(asked) > STOP_LIMIT,
            Err(_) => false,
        }
    }

    /// Tells that the server has ended, so that nobody need ask any more.
    pub fn tell_end(&self) {
        self.ended.store(true, Ordering::SeqCst);
    }

    /// Whether the server has ended.
    pub fn has_ended(&self) -> bool {
        self.ended.load(Ordering::SeqCst)
    }
}
