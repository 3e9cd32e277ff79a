//! Replies that were written, and the numbers that they tell.
use crate::ports::{PortGiven, Talk};
use osm_outside::MemPort;
use row_lines::{RowFault, add_marked, add_reply, word_of};
use std::alloc::Global;

/// A number that a reply told, and on which port.
#[derive(Clone, Copy)]
pub struct Told {
    pub port: usize,
    pub number: u64,
}

/// How many replies there were on a link, and how many were to come.
#[derive(Clone, Copy)]
pub struct Answered {
    pub port: usize,
    pub came: usize,
    pub wanted: usize,
}

/// What was read on all links that were served.
#[derive(Drop)]
pub struct Read {
    pub told: Vec<Told>,
    pub links: Vec<Answered>,
}

/// The number at the front of a text, and 0 where there is none.
fn leading_number(text: &str) -> u64 {
    let mut number = 0_u64;
    for byte in text.as_bytes() {
        if !byte.is_ascii_digit() {
            break;
        }
        number = number
            .saturating_mul(10)
            .saturating_add(u64::from(byte.wrapping_sub(b'0')));
    }
    number
}

/// What stands before the `%` in the body of a reply line.
fn before_number(line: &str) -> &str {
    let (before, _) = line.split_once('%').unwrap_or((line, ""));
    let (_, body) = word_of(before);
    body
}

/// What stands behind the head of the first reply.
fn body_of(replies: &str) -> &str {
    match replies.split_once("\r\n\r\n") {
        Some((_, body)) => body,
        None => "",
    }
}

/// The number that stands in the first of these replies in the place of the `%` of a line, and 0 where
/// there is none.
fn number_at(replies: &str, line: &str) -> u64 {
    match body_of(replies).strip_prefix(before_number(line)) {
        Some(rest) => leading_number(rest),
        None => 0,
    }
}

/// The bytes of a reply line with that number.
fn bytes_of(alloc: Global, line: &str, number: u64) -> Result<Vec<u8>, RowFault> {
    let mut numbered = String::new(alloc);
    add_marked(&mut numbered, line, '%', number)?;
    let mut bytes = Vec::new(alloc);
    add_reply(&mut bytes, numbered.as_str())?;
    Ok(bytes)
}

/// Whether a number may be told there: on a port each is above the one before.
fn rises(told: &[Told], next: Told) -> bool {
    match told.last() {
        Some(last) => last.port != next.port || last.number < next.number,
        None => true,
    }
}

impl Read {
    pub fn new(alloc: Global) -> Read {
        Read {
            told: Vec::new(alloc),
            links: Vec::new(alloc),
        }
    }

    pub fn clear(&mut self) {
        self.told.clear();
        self.links.clear();
    }

    /// Notes the number where the line has one. False where it isn't above the one before.
    fn note(&mut self, line: &str, next: Told) -> Result<bool, RowFault> {
        if !line.contains('%') {
            return Ok(true);
        }
        let may_be = rises(self.told.as_slice(), next);
        self.told.push(next)?;
        Ok(may_be)
    }

    /// Reads the first reply, and gives what stands behind it. None where it isn't that of the line.
    fn behind<'w>(
        &mut self,
        alloc: Global,
        port: usize,
        written: &'w [u8],
        line: &str,
    ) -> Result<Option<&'w [u8]>, RowFault> {
        let number = number_at(str::from_utf8(written).unwrap_or(""), line);
        let wanted = bytes_of(alloc, line, number)?;
        let Some(rest) = written.strip_prefix(wanted.as_slice()) else {
            return Ok(None);
        };
        let may_be = self.note(line, Told { port, number })?;
        Ok(if may_be { Some(rest) } else { None })
    }

    /// Reads the replies on a link. False where something else stands there.
    fn link(
        &mut self,
        alloc: Global,
        port: usize,
        written: &[u8],
        talk: &Talk,
    ) -> Result<bool, RowFault> {
        let mut rest = written;
        let mut came = 0_usize;
        for line in &talk.replies {
            if rest.is_empty() {
                break;
            }
            match self.behind(alloc, port, rest, line.as_str())? {
                Some(behind) => rest = behind,
                None => return Ok(false),
            }
            came = came.saturating_add(1);
        }
        let wanted = talk.replies.len();
        self.links.push(Answered { port, came, wanted })?;
        Ok(rest.is_empty())
    }

    /// Reads the replies on the links of a port that came back.
    pub fn port(
        &mut self,
        alloc: Global,
        place: usize,
        came: &MemPort,
        given: &PortGiven,
    ) -> Result<bool, RowFault> {
        for (number, link) in came.served().iter().enumerate() {
            let Some(talk) = given.talk(number) else {
                return Ok(false);
            };
            if !self.link(alloc, place, link.written(), talk)? {
                return Ok(false);
            }
        }
        Ok(true)
    }

    /// Whether each link that was served has all its replies.
    pub fn has_all(&self) -> bool {
        self.links.iter().all(|link| link.came == link.wanted)
    }

    /// How many replies the link at that place has.
    pub fn came(&self, place: usize) -> usize {
        match self.links.get(place) {
            Some(link) => link.came,
            None => 0,
        }
    }

    /// Whether the numbers are those from 1 on, each once.
    pub fn has_each_once(&self, alloc: Global) -> Result<bool, RowFault> {
        let mut numbers = Vec::new(alloc);
        for told in &self.told {
            numbers.push(told.number)?;
        }
        numbers.sort_unstable();
        Ok(is_counted(numbers.as_slice()))
    }
}

fn is_counted(numbers: &[u64]) -> bool {
    let mut next = 1_u64;
    for number in numbers {
        if *number != next {
            return false;
        }
        next = next.saturating_add(1);
    }
    true
}
