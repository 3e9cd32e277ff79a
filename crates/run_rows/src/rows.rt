//! A row: what its runs are given, and what must come of them.
use crate::came::came_of;
use crate::checks::Played;
use crate::given::Given;
use crate::marks::{Check, Gift, Mark, mark_of};
use crate::mixed::Mixed;
use row_lines::{RowFault, add_numbered, number, word_of};
use std::alloc::Global;
use std::sync::Wait;
use std::thread::Threads;

/// A row, as far as it was played.
#[derive(Drop)]
pub struct Row {
    alloc: Global,
    given: Given,
    /// A journal's text.
    text: Vec<u8>,
    mixed: Mixed,
    played: Option<Played>,
    /// Whether what is given was used by the last run.
    is_used: bool,
}

/// The lines of a block, which begins with `-- NAME`.
fn block_of<'t>(blocks: &'t str, name: &str) -> Option<&'t str> {
    for block in blocks.split("\n-- ") {
        let (its_name, lines) = block.split_once('\n').unwrap_or((block, ""));
        if its_name == name {
            return Some(lines);
        }
    }
    None
}

/// The words of a program, parted by single spaces.
fn words_of(alloc: Global, text: &str) -> Result<Vec<String>, RowFault> {
    let mut words = Vec::new(alloc);
    for word in text.split(' ') {
        words.push(String::from_str(alloc, word)?)?;
    }
    Ok(words)
}

/// Whether a line came out right. Says so where it didn't.
fn is_right<R: Print>(rt: &R, line: &str, came: Result<bool, RowFault>) -> bool {
    let is_right = matches!(&came, Ok(true));
    if !is_right {
        match came {
            Ok(_) => tell(rt, line, "it isn't so"),
            Err(RowFault::Unread) => tell(rt, line, "it isn't of the format"),
            Err(RowFault::Memory) => tell(rt, line, "there is no memory"),
        }
    }
    is_right
}

fn tell<R: Print>(rt: &R, line: &str, why: &str) {
    let _ = println!(rt; "wrong: {why}: {line}");
}

impl Row {
    /// A row of nothing.
    pub fn new(alloc: Global) -> Row {
        Row {
            alloc,
            given: Given::new(alloc),
            text: Vec::new(alloc),
            mixed: Mixed::new(alloc),
            played: None,
            is_used: false,
        }
    }

    /// Plays the lines of a row up to the first that is wrong, and answers whether none is.
    pub fn play<R: Print + Threads + Wait + Sync>(
        &mut self,
        rt: &R,
        alloc: Global,
        blocks: &str,
        lines: &str,
    ) -> bool {
        match Given::usual(alloc) {
            Ok(given) => self.given = given,
            Err(_) => return false,
        }
        for line in lines.lines() {
            if !self.play_line(rt, blocks, line) {
                return false;
            }
        }
        self.played.is_some()
    }

    fn play_line<R: Print + Threads + Wait + Sync>(
        &mut self,
        rt: &R,
        blocks: &str,
        line: &str,
    ) -> bool {
        let (word, rest) = word_of(line);
        match word {
            "use" => self.play_blocks(rt, blocks, rest),
            "each" => self.play_each(rt, blocks, rest),
            "" | "#" => true,
            _ => self.play_one(rt, line),
        }
    }

    /// `NAME NAME ..`: the lines of these blocks.
    fn play_blocks<R: Print + Threads + Wait + Sync>(
        &mut self,
        rt: &R,
        blocks: &str,
        names: &str,
    ) -> bool {
        for name in names.split(' ') {
            if !self.play_block(rt, blocks, name) {
                return false;
            }
        }
        true
    }

    fn play_block<R: Print + Threads + Wait + Sync>(
        &mut self,
        rt: &R,
        blocks: &str,
        name: &str,
    ) -> bool {
        let Some(lines) = block_of(blocks, name) else {
            return is_right(rt, name, Err(RowFault::Unread));
        };
        for line in lines.lines() {
            if !line.is_empty() && !self.play_one(rt, line) {
                return false;
            }
        }
        true
    }

    /// `FIRST LAST NAME`: the lines of a block for each of these numbers, in the place of `#`.
    fn play_each<R: Print + Threads + Wait + Sync>(
        &mut self,
        rt: &R,
        blocks: &str,
        text: &str,
    ) -> bool {
        let (first, rest) = word_of(text);
        let (last, name) = word_of(rest);
        match (number(first), number(last), block_of(blocks, name)) {
            (Ok(first), Ok(last), Some(lines)) => self.play_numbers(rt, lines, first, last),
            _ => is_right(rt, text, Err(RowFault::Unread)),
        }
    }

    fn play_numbers<R: Print + Threads + Wait + Sync>(
        &mut self,
        rt: &R,
        lines: &str,
        first: u64,
        last: u64,
    ) -> bool {
        for number in first..=last {
            if !self.play_numbered(rt, lines, number) {
                return false;
            }
        }
        true
    }

    fn play_numbered<R: Print + Threads + Wait + Sync>(
        &mut self,
        rt: &R,
        lines: &str,
        number: u64,
    ) -> bool {
        let mut room = String::new(self.alloc);
        for line in lines.lines() {
            room.clear();
            let is_made = add_numbered(&mut room, line, number).is_ok();
            if !is_made || !(line.is_empty() || self.play_one(rt, room.as_str())) {
                return false;
            }
        }
        true
    }

    fn play_one<R: Print + Threads + Wait + Sync>(&mut self, rt: &R, line: &str) -> bool {
        let (word, rest) = word_of(line);
        let came = match mark_of(word) {
            Mark::Run => self.run(rt, rest),
            Mark::Gift(gift) => was_done(self.give(gift, line, rest)),
            Mark::Check(check) => self.check(check, rest),
        };
        is_right(rt, line, came)
    }

    /// Runs the program of these words on what it is given.
    fn run<R: Threads + Wait + Sync>(&mut self, rt: &R, words: &str) -> Result<bool, RowFault> {
        let words = words_of(self.alloc, words)?;
        let came = came_of(rt, self.alloc, words.as_slice(), &self.given)?;
        self.played = Some(Played::new(self.alloc, came));
        self.is_used = true;
        Ok(true)
    }

    /// What the run before was given is no more, once the next one is given something.
    fn renew(&mut self) {
        if self.is_used {
            self.given.renew();
            self.is_used = false;
        }
    }

    fn give(&mut self, gift: Gift, line: &str, rest: &str) -> Result<(), RowFault> {
        match gift {
            Gift::Fails | Gift::BadCalls | Gift::Port => self.renew(),
            _ => {}
        }
        match gift {
            Gift::Text => self.put_text(rest),
            Gift::Line => add_line(&mut self.text, rest),
            Gift::Again => self.put_again(),
            Gift::Session => self.mixed.add(rest),
            Gift::File => self.given.put_file(self.text.as_slice(), rest),
            Gift::New => self.given.put_none(),
            Gift::Byte => self.given.put_byte(rest),
            Gift::Fails => self.given.put_left(rest),
            Gift::Users => self.given.put_users(rest),
            Gift::BadCalls => self.given.put_bad_calls(rest),
            Gift::Port => self.given.add_port(rest),
            Gift::BadAccepts => self.given.put_bad_accepts(rest),
            Gift::Link => self.given.add_links(rest),
            Gift::Request => self.given.add_request(line),
            Gift::Reply => self.given.add_reply(line),
        }
    }

    /// Begins the text with a header.
    fn put_text(&mut self, header: &str) -> Result<(), RowFault> {
        self.text.clear();
        add_line(&mut self.text, header)
    }

    fn put_again(&mut self) -> Result<(), RowFault> {
        match &self.played {
            Some(played) => self.given.put_file(played.came.file(), ""),
            None => Err(RowFault::Unread),
        }
    }

    fn check(&mut self, check: Check, rest: &str) -> Result<bool, RowFault> {
        match &mut self.played {
            Some(played) => {
                played.check(
                    self.alloc,
                    check,
                    rest,
                    &self.given,
                    &mut self.mixed,
                    &self.text,
                )
            }
            None => Err(RowFault::Unread),
        }
    }
}

/// Adds a line to a text.
fn add_line(text: &mut Vec<u8>, line: &str) -> Result<(), RowFault> {
    text.extend_from_slice(line.as_bytes())?;
    text.push(b'\n')?;
    Ok(())
}

fn was_done(done: Result<(), RowFault>) -> Result<bool, RowFault> {
    match done {
        Ok(()) => Ok(true),
        Err(fault) => Err(fault),
    }
}
