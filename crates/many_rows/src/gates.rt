//! Gates that hold a session back until another one has come so far.
use osm_base::Memory;
use osm_outside::{Gate, Point};
use row_lines::{RowFault, number, word_of};
use std::alloc::Global;
use std::sync::atomic::{AtomicU64, Ordering};
use std::thread;

/// How often a session that is held looks whether it may go on.
const TURNS: u32 = 10_000_000;

/// The points of a session, by the words of the rows.
const POINTS: [&str; 3] = ["planned", "committed", "answered"];

/// So many times that a session comes to a point.
#[derive(Clone, Copy)]
struct Visit {
    /// The counter of that session and point.
    place: usize,
    times: u64,
}

/// A session is held at its visit to a point until another one was made.
#[derive(Clone, Copy)]
pub struct Hold {
    held: Visit,
    until: Visit,
}

/// The counter of a session at a point.
fn place_of(session: u32, point: usize) -> usize {
    (session as usize)
        .saturating_mul(POINTS.len())
        .saturating_add(point)
}

fn place_at(point: Point) -> usize {
    match point {
        Point::Planned { session } => place_of(session, 0),
        Point::Committed { session } => place_of(session, 1),
        Point::Answered { session } => place_of(session, 2),
    }
}

/// `SESSION POINT TIMES`.
fn visit_of(text: &str) -> Result<Visit, RowFault> {
    let (session, rest) = word_of(text);
    let (word, times) = word_of(rest);
    let session = u32::try_from(number(session)?).unwrap_or(u32::MAX);
    for (point, name) in POINTS.iter().enumerate() {
        if *name == word {
            return Ok(Visit {
                place: place_of(session, point),
                times: number(times)?,
            });
        }
    }
    Err(RowFault::Unread)
}

impl Hold {
    /// `SESSION POINT TIMES until SESSION POINT TIMES`.
    pub fn of(text: &str) -> Result<Hold, RowFault> {
        let (held, until) = text.split_once(" until ").ok_or(RowFault::Unread)?;
        Ok(Hold {
            held: visit_of(held)?,
            until: visit_of(until)?,
        })
    }
}

/// A gate that counts the visits of each session to each point, and holds some of them.
#[derive(Drop)]
pub struct RowGate {
    holds: Vec<Hold>,
    visits: Vec<AtomicU64>,
    /// How many holds ran out of turns.
    late: AtomicU64,
}

impl RowGate {
    pub fn new(alloc: Global, sessions: u32, holds: &[Hold]) -> Result<RowGate, Memory> {
        let mut visits = Vec::new(alloc);
        for _ in 0..place_of(sessions, 0) {
            visits.push(AtomicU64::new(0))?;
        }
        Ok(RowGate {
            holds: Vec::from_slice(alloc, holds)?,
            visits,
            late: AtomicU64::new(0),
        })
    }

    pub fn late(&self) -> u64 {
        self.late.load(Ordering::SeqCst)
    }

    fn has_come(&self, until: Visit) -> bool {
        match self.visits.get(until.place) {
            Some(visits) => visits.load(Ordering::SeqCst) >= until.times,
            None => false,
        }
    }

    fn wait(&self, until: Visit) {
        for _ in 0..TURNS {
            if self.has_come(until) {
                return;
            }
            thread::yield_now();
        }
        self.late.fetch_add(1, Ordering::SeqCst);
    }
}

impl Gate for RowGate {
    fn at(&self, point: Point) {
        let place = place_at(point);
        let Some(visits) = self.visits.get(place) else {
            return;
        };
        let before = visits.fetch_add(1, Ordering::SeqCst);
        for hold in &self.holds {
            if hold.held.place == place && hold.held.times.saturating_sub(1) == before {
                self.wait(hold.until);
            }
        }
    }
}
