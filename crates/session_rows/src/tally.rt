//! What was played, and how much of it was wrong.
use crate::plays::Play;
use crate::rows::Row;
use crate::sweeps::{numbers_of, play_of};
use std::alloc::Global;
use std::io;
use std::sync::Wait;
use std::thread::Threads;

#[derive(Clone, Copy)]
pub struct Tally {
    rows: u64,
    /// The requests that the rows send, and the replies that they want.
    requests: u64,
    replies: u64,
    /// The runs of the server, those of the sweeps among them.
    runs: u64,
    wrong: u64,
}

impl Tally {
    pub fn none() -> Tally {
        Tally {
            rows: 0,
            requests: 0,
            replies: 0,
            runs: 0,
            wrong: 0,
        }
    }

    pub fn is_right(&self) -> bool {
        self.wrong == 0
    }

    /// Reads a row, its name and behind a line end its lines, and plays it.
    pub fn play<R: Print + Threads + Wait + Sync>(
        &mut self,
        rt: &R,
        alloc: Global,
        text: &str,
    ) -> io::Result<()> {
        let (name, lines) = text.split_once('\n').unwrap_or((text, ""));
        let mut row = Row::new(alloc);
        self.rows = self.rows.saturating_add(1);
        match row.read(alloc, lines) {
            Ok(()) => self.play_row(rt, alloc, name, &row),
            Err(unread) => {
                self.wrong = self.wrong.saturating_add(1);
                println!(rt; "wrong: {name}: {}: {}", unread.why, unread.line)
            }
        }
    }

    /// Counts what the row asks and wants, and plays it and its sweeps.
    fn play_row<R: Print + Threads + Wait + Sync>(
        &mut self,
        rt: &R,
        alloc: Global,
        name: &str,
        row: &Row,
    ) -> io::Result<()> {
        self.requests = self.requests.saturating_add(row.requests.len() as u64);
        self.replies = self.replies.saturating_add(row.replies.len() as u64);
        self.run(rt, alloc, name, row, &Play::whole(row))?;
        for sweep in &row.sweeps {
            let (first, end) = numbers_of(row, *sweep);
            for number in first..end {
                self.run(rt, alloc, name, row, &play_of(row, *sweep, number))?;
            }
        }
        Ok(())
    }

    fn run<R: Print + Threads + Wait + Sync>(
        &mut self,
        rt: &R,
        alloc: Global,
        name: &str,
        row: &Row,
        play: &Play<'_>,
    ) -> io::Result<()> {
        self.runs = self.runs.saturating_add(1);
        if !play.run(rt, alloc, name, row)? {
            self.wrong = self.wrong.saturating_add(1);
        }
        Ok(())
    }

    /// Says what was played.
    pub fn tell<R: Print>(&self, rt: &R) -> io::Result<()> {
        let Tally {
            rows,
            requests,
            replies,
            runs,
            wrong,
        } = *self;
        println!(rt;
            "{rows} rows, {requests} requests, {replies} replies, {runs} runs, {wrong} wrong"
        )
    }
}
