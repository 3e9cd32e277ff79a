//! A gate that holds a session back until one has come so far.
use osm_outside::{Gate, Point};
use std::sync::atomic::{AtomicU64, Ordering};
use std::thread;

/// How often a session that is held looks whether it may go on.
const TURNS: u32 = 10_000_000;

/// So many times that a session came to a point.
#[derive(Clone, Copy)]
pub enum Come {
    Planned { session: u32, times: u64 },
    Answered { session: u32, times: u64 },
}

/// A session is held behind its plan of that number, counted from 1, until one has come so far.
#[derive(Clone, Copy)]
pub struct Hold {
    pub session: u32,
    pub plan: u64,
    pub until: Come,
}

/// How often the two sessions came to a point.
#[derive(Drop)]
struct Visits {
    first: AtomicU64,
    second: AtomicU64,
}

impl Visits {
    fn none() -> Visits {
        Visits {
            first: AtomicU64::new(0),
            second: AtomicU64::new(0),
        }
    }

    fn of(&self, session: u32) -> &AtomicU64 {
        if session == 0 {
            &self.first
        } else {
            &self.second
        }
    }
}

/// A gate for two sessions that cross.
#[derive(Drop)]
pub struct Crossing {
    holds: [Hold; 3],
    planned: Visits,
    answered: Visits,
    /// How many holds ran out of turns.
    late: AtomicU64,
}

impl Crossing {
    pub fn new(holds: [Hold; 3]) -> Crossing {
        Crossing {
            holds,
            planned: Visits::none(),
            answered: Visits::none(),
            late: AtomicU64::new(0),
        }
    }

    /// Whether no hold ran out of turns.
    pub fn is_in_time(&self) -> bool {
        self.late.load(Ordering::SeqCst) == 0
    }

    fn has_come(&self, until: Come) -> bool {
        match until {
            Come::Planned { session, times } => {
                self.planned.of(session).load(Ordering::SeqCst) >= times
            }
            Come::Answered { session, times } => {
                self.answered.of(session).load(Ordering::SeqCst) >= times
            }
        }
    }

    fn wait(&self, until: Come) {
        for _ in 0..TURNS {
            if self.has_come(until) {
                return;
            }
            thread::yield_now();
        }
        self.late.fetch_add(1, Ordering::SeqCst);
    }
}

impl Gate for Crossing {
    fn at(&self, point: Point) {
        match point {
            Point::Planned { session } => {
                let before = self.planned.of(session).fetch_add(1, Ordering::SeqCst);
                for hold in &self.holds {
                    if hold.session == session && hold.plan.saturating_sub(1) == before {
                        self.wait(hold.until);
                    }
                }
            }
            Point::Answered { session } => {
                self.answered.of(session).fetch_add(1, Ordering::SeqCst);
            }
            Point::Committed { session: _ } => {}
        }
    }
}
