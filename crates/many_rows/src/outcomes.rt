//! What came of a row.
use std::io;

/// How much was done in a row, and how much of it was wrong.
#[derive(Clone, Copy)]
pub struct Outcome {
    pub calls: u64,
    pub ends: u64,
    /// Replies that aren't the row's.
    pub unwanted: u64,
    /// Replies that aren't those of one desk at the same point, and entries that aren't that desk's.
    pub astray: u64,
    /// Holds that ran out of turns.
    pub late: u64,
    /// Replies behind which a session owed a commit, or had owed one.
    pub owed: u64,
    /// Ends that didn't match.
    pub unmatched: u64,
    /// Whether the journal hasn't as many entries as it must.
    pub miscounted: bool,
}

impl Outcome {
    pub fn is_right(&self) -> bool {
        self.unwanted == 0
            && self.astray == 0
            && self.late == 0
            && self.owed == 0
            && self.unmatched == 0
            && !self.miscounted
    }

    /// Says how much was done, and whether it was right.
    pub fn tell<R: Print>(&self, rt: &R, name: &str) -> io::Result<()> {
        let Outcome {
            calls,
            ends,
            unwanted,
            astray,
            late,
            owed,
            unmatched,
            miscounted,
        } = *self;
        if self.is_right() {
            return println!(rt; "right: {name}: {calls} calls, {ends} ends");
        }
        println!(rt;
            "wrong: {name}: {unwanted} replies unwanted, {astray} astray, {late} holds late, {owed} owed, {unmatched} unmatched, miscounted {miscounted}"
        )
    }
}
