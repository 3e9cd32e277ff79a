//! A play: who sends the next request and when, and how much of the row was played.
use crate::counts::Counts;
use crate::desks::{Replies, Sender};
use crate::meetings::Meeting;
use plain_model::Journal;
use std::alloc::Global;
use std::{io, mem};

/// When a row begins, in seconds since 1970: 2023-11-14T22:13:20Z.
const BEGIN: u64 = 1_700_000_000;

const FIRST: Sender = Sender {
    session: 0,
    moment: BEGIN,
};

#[derive(Drop)]
pub struct Play {
    pub sender: Sender,
    pub requests: u64,
    /// The entries after which the maps were compared.
    pub entries: usize,
    wrong: u64,
    /// How much was wrong in the rows before.
    wrong_before: u64,
    pub counts: Counts,
    /// The plain desk's entries of the row, and those of the row above.
    pub journal: Journal,
    pub above: Journal,
    /// What the row's sessions do by turns.
    pub meeting: Meeting,
}

impl Play {
    pub fn new(alloc: Global) -> Play {
        Play {
            sender: FIRST,
            requests: 0,
            entries: 0,
            wrong: 0,
            wrong_before: 0,
            counts: Counts::none(alloc),
            journal: Journal::new(alloc),
            above: Journal::new(alloc),
            meeting: Meeting::new(alloc),
        }
    }

    /// Begins a row.
    pub fn begin(&mut self, alloc: Global) {
        self.sender = FIRST;
        self.requests = 0;
        self.entries = 0;
        self.wrong_before = self.wrong.saturating_add(self.wrong_before);
        self.wrong = 0;
        self.above = mem::replace(&mut self.journal, Journal::new(alloc));
        self.meeting = Meeting::new(alloc);
    }

    pub fn is_right(&self) -> bool {
        self.wrong == 0 && self.wrong_before == 0
    }

    pub fn wait(&mut self, seconds: u64) {
        self.sender.moment = self.sender.moment.saturating_add(seconds);
    }

    /// Counts and tells a part that differs, where one does.
    pub fn note<R: Print>(&mut self, rt: &R, part: Option<&'static str>) -> io::Result<()> {
        let Some(part) = part else {
            return Ok(());
        };
        self.wrong = self.wrong.saturating_add(1);
        let entries = self.entries;
        println!(rt; "wrong: with {entries} entries: {part}")
    }

    /// So many entries must have been accepted.
    pub fn want<R: Print>(&mut self, rt: &R, count: u64) -> io::Result<()> {
        let is_right = count == self.entries as u64;
        self.note(rt, if is_right { None } else { Some("their number") })
    }

    /// Counts a request, and shows it where the replies differ.
    pub fn note_replies<R: Print>(
        &mut self,
        rt: &R,
        bytes: &[u8],
        replies: &Replies,
    ) -> io::Result<()> {
        self.requests = self.requests.saturating_add(1);
        if replies.are_same() {
            return Ok(());
        }
        self.wrong = self.wrong.saturating_add(1);
        let Sender { session, moment } = self.sender;
        println!(rt;
            "wrong: session {session} at {moment}: {}",
            bytes.escape_ascii()
        )?;
        show(
            rt,
            "plain",
            replies.plain.status,
            replies.plain.body.as_slice(),
        )?;
        show(
            rt,
            "fast",
            replies.fast.status,
            replies.fast.body.as_slice(),
        )
    }

    /// Says how much was played.
    pub fn tell<R: Print>(&self, rt: &R, name: &str) -> io::Result<()> {
        let (requests, entries, wrong) = (self.requests, self.entries, self.wrong);
        println!(rt; "{name}: {requests} requests, {entries} entries, {wrong} wrong")
    }
}

pub fn show<R: Print>(rt: &R, desk: &str, status: u16, body: &[u8]) -> io::Result<()> {
    println!(rt; "    {desk}: {status} {}", body.escape_ascii())
}
