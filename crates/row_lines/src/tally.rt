//! How many rows were tried, and how many of them were wrong.
use osm_base::Memory;
use std::io;

#[derive(Clone, Copy)]
pub struct Tally {
    rows: u64,
    wrong: u64,
}

impl Tally {
    pub fn none() -> Tally {
        Tally { rows: 0, wrong: 0 }
    }

    pub fn is_right(&self) -> bool {
        self.wrong == 0
    }

    /// Counts a row, and names it where it didn't come out right. It counts as wrong even where its
    /// name cannot be written.
    pub fn note<R: Print>(&mut self, rt: &R, name: &str, outcome: Result<bool, Memory>) {
        self.rows = self.rows.saturating_add(1);
        let why = match outcome {
            Ok(true) => return,
            Ok(false) => "wrong",
            Err(Memory) => "no memory",
        };
        self.wrong = self.wrong.saturating_add(1);
        let _ = println!(rt; "{why}: {name}");
    }

    /// Says what was tried.
    pub fn tell<R: Print>(&self, rt: &R) -> io::Result<()> {
        println!(rt; "{} rows, {} wrong", self.rows, self.wrong)
    }
}
