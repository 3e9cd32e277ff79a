//! A row: a session on one link, and what must come of it.
use crate::pieces::Pieces;
use row_lines::{
    RowFault, add_numbered, add_reply, add_request, add_unescaped, add_written_out, number,
};
use std::alloc::Global;

/// With what a row begins, where its own lines say nothing else.
const USUAL: &str =
    "@words osm pipe --users users.txt --at 1700000000\n@users 1 alicetoken user alice\\n2 bobtoken moderator bob\\n";

/// The first word of a row that is played by a mirror.
const MIRROR: &str = "osm_mirror";

/// The words of a row by the link's own clock.
const WORDS_BY_THE_CLOCK: &str = "osm pipe --users users.txt";

/// What is played beside the row itself: the same session once more for each of many links.
#[derive(Clone, Copy)]
pub enum Sweep {
    /// The input in reads of each size.
    Piece,
    /// The input in two reads, cut behind each byte.
    Cut,
    /// The input ended behind each byte.
    End,
    /// The input in reads of that many bytes, of which each in turn fails.
    Read(usize),
    /// Each write in turn fails.
    Write,
    /// Room for fewer bytes than come, and for just these.
    Room,
}

const SWEEPS: [(&str, Sweep); 5] = [
    ("piece", Sweep::Piece),
    ("cut", Sweep::Cut),
    ("end", Sweep::End),
    ("write", Sweep::Write),
    ("room", Sweep::Room),
];

fn sweep_of(text: &str) -> Result<Sweep, RowFault> {
    for (name, sweep) in SWEEPS {
        if name == text {
            return Ok(sweep);
        }
    }
    match text.strip_prefix("read ") {
        Some(size) => Ok(Sweep::Read(number(size)? as usize)),
        None => Err(RowFault::Unread),
    }
}

/// What a line says whose first word is a mark.
#[derive(Clone, Copy)]
enum Mark {
    Request,
    Reply,
    Field,
    Words,
    Users,
    Moments,
    BadCalls,
    BadReads,
    BadWrites,
    Status,
    Each,
}

const MARKS: [(&str, Mark); 11] = [
    (">", Mark::Request),
    ("<", Mark::Reply),
    ("+", Mark::Field),
    ("@words", Mark::Words),
    ("@users", Mark::Users),
    ("@moments", Mark::Moments),
    ("@bad_calls", Mark::BadCalls),
    ("@bad_reads", Mark::BadReads),
    ("@bad_writes", Mark::BadWrites),
    ("@status", Mark::Status),
    ("@each", Mark::Each),
];

fn mark_of(word: &str) -> Option<Mark> {
    for (name, mark) in MARKS {
        if name == word {
            return Some(mark);
        }
    }
    None
}

/// Puts the words of a text, parted by single spaces, in the place of those; `""` is an empty word.
fn put_words(words: &mut Vec<String>, alloc: Global, text: &str) -> Result<(), RowFault> {
    words.clear();
    for word in text.split(' ') {
        let word = if word == "\"\"" { "" } else { word };
        words.push(String::from_str(alloc, word)?)?;
    }
    Ok(())
}

/// Puts the numbers of a text in the place of those.
fn put_numbers(numbers: &mut Vec<u64>, text: &str) -> Result<(), RowFault> {
    numbers.clear();
    for word in text.split(' ') {
        numbers.push(number(word)?)?;
    }
    Ok(())
}

/// A line that can't be read, and why.
#[derive(Clone, Copy)]
pub struct Unread<'a> {
    pub line: &'a str,
    pub why: RowFault,
}

/// What a row's link and host are given, and what must come.
#[derive(Drop)]
pub struct Row {
    pub words: Vec<String>,
    pub users: Vec<u8>,
    /// What each reading of the clock gives, in seconds since 1970, past the list the last of them.
    pub moments: Vec<u64>,
    /// The numbers of the calls that fail, from 0: of the host, of reading and of writing.
    pub bad_calls: Vec<u64>,
    pub bad_reads: Vec<u64>,
    pub bad_writes: Vec<u64>,
    /// The fields of the next request.
    fields: Vec<u8>,
    /// The bytes of each request, and of each reply that must come.
    pub requests: Pieces,
    pub replies: Pieces,
    /// The program's status that must come.
    pub status: u64,
    pub sweeps: Vec<Sweep>,
}

impl Row {
    /// A row of nothing.
    pub fn new(alloc: Global) -> Row {
        Row {
            words: Vec::new(alloc),
            users: Vec::new(alloc),
            moments: Vec::new(alloc),
            bad_calls: Vec::new(alloc),
            bad_reads: Vec::new(alloc),
            bad_writes: Vec::new(alloc),
            fields: Vec::new(alloc),
            requests: Pieces::none(alloc),
            replies: Pieces::none(alloc),
            status: 0,
            sweeps: Vec::new(alloc),
        }
    }

    /// Reads the lines of a row, with the usual words and users.
    pub fn read<'t>(&mut self, alloc: Global, text: &'t str) -> Result<(), Unread<'t>> {
        self.read_lines(alloc, USUAL)?;
        self.read_lines(alloc, text)
    }

    /// Whether its words are those of a mirror.
    pub fn is_of_mirror(&self) -> bool {
        match self.words.first() {
            Some(name) => name.as_str() == MIRROR,
            None => false,
        }
    }

    fn read_lines<'t>(&mut self, alloc: Global, text: &'t str) -> Result<(), Unread<'t>> {
        let mut room = String::new(alloc);
        for line in text.lines() {
            room.clear();
            if let Err(why) = self.read_line(alloc, line, &mut room) {
                return Err(Unread { line, why });
            }
        }
        Ok(())
    }

    /// Reads a line, which is written out in that room.
    fn read_line(&mut self, alloc: Global, line: &str, room: &mut String) -> Result<(), RowFault> {
        if line.is_empty() || line.starts_with('#') {
            return Ok(());
        }
        match line.strip_prefix('*') {
            Some(rest) => self.read_often(alloc, rest, room),
            None => {
                add_written_out(room, line)?;
                self.read_one(alloc, room.as_str())
            }
        }
    }

    /// Reads `N LINE`: the line that often.
    fn read_often(&mut self, alloc: Global, text: &str, room: &mut String) -> Result<(), RowFault> {
        let (count, line) = text.split_once(' ').ok_or(RowFault::Unread)?;
        for place in 1..=number(count)? {
            room.clear();
            add_numbered(room, line, place)?;
            self.read_one(alloc, room.as_str())?;
        }
        Ok(())
    }

    fn read_one(&mut self, alloc: Global, line: &str) -> Result<(), RowFault> {
        let (word, rest) = line.split_once(' ').ok_or(RowFault::Unread)?;
        match mark_of(word) {
            Some(mark) => self.read_marked(alloc, mark, rest),
            None if word.as_bytes().first().is_some_and(u8::is_ascii_digit) => {
                add_reply(self.replies.bytes(), line)?;
                self.replies.end()
            }
            None => {
                add_request(self.requests.bytes(), self.fields.as_slice(), line)?;
                self.fields.clear();
                self.requests.end()
            }
        }
    }

    /// Reads what stands behind a mark.
    fn read_marked(&mut self, alloc: Global, mark: Mark, text: &str) -> Result<(), RowFault> {
        match mark {
            Mark::Request => self.requests.add_unescaped(text),
            Mark::Reply => self.replies.add_unescaped(text),
            Mark::Field => self.add_field(text),
            Mark::Words => put_words(&mut self.words, alloc, text),
            Mark::Users => self.put_users(text),
            Mark::Moments => self.put_moments(alloc, text),
            Mark::BadCalls => put_numbers(&mut self.bad_calls, text),
            Mark::BadReads => put_numbers(&mut self.bad_reads, text),
            Mark::BadWrites => put_numbers(&mut self.bad_writes, text),
            Mark::Status => self.put_status(text),
            Mark::Each => self.add_sweep(text),
        }
    }

    fn add_field(&mut self, text: &str) -> Result<(), RowFault> {
        add_unescaped(&mut self.fields, text)?;
        self.fields.extend_from_slice(b"\r\n")?;
        Ok(())
    }

    fn put_users(&mut self, text: &str) -> Result<(), RowFault> {
        self.users.clear();
        add_unescaped(&mut self.users, text)
    }

    fn put_moments(&mut self, alloc: Global, text: &str) -> Result<(), RowFault> {
        put_words(&mut self.words, alloc, WORDS_BY_THE_CLOCK)?;
        put_numbers(&mut self.moments, text)
    }

    fn put_status(&mut self, text: &str) -> Result<(), RowFault> {
        self.status = number(text)?;
        Ok(())
    }

    fn add_sweep(&mut self, text: &str) -> Result<(), RowFault> {
        self.sweeps.push(sweep_of(text)?)?;
        Ok(())
    }
}
