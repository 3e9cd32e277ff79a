//! What is asked of a run.
use crate::came::Came;
use crate::given::Given;
use crate::marks::Check;
use crate::mixed::Mixed;
use crate::replies::Read;
use row_lines::{RowFault, add_reply, number, word_of};
use std::alloc::Global;

/// A run with what it was given, and what was found in it so far.
#[derive(Drop)]
pub struct Played {
    pub came: Came,
    pub read: Read,
}

/// Reads what was written on the links. False where something else than what must come stands there.
fn is_read(alloc: Global, came: &Came, read: &mut Read, given: &Given) -> Result<bool, RowFault> {
    read.clear();
    for (place, port) in came.ports().iter().enumerate() {
        let Some(its) = given.ports.get(place) else {
            return Ok(false);
        };
        if !read.port(alloc, place, port, its)? {
            return Ok(false);
        }
    }
    Ok(true)
}

/// Whether the ports that came back served so many of their links each.
fn are_served(came: &Came, counts: &str) -> Result<bool, RowFault> {
    let mut place = 0_usize;
    for count in counts.split(' ') {
        if served_by(came, place) as u64 != number(count)? {
            return Ok(false);
        }
        place = place.saturating_add(1);
    }
    Ok(place == came.ports().len())
}

fn served_by(came: &Came, place: usize) -> usize {
    match came.ports().get(place) {
        Some(port) => port.served().len(),
        None => 0,
    }
}

/// Whether each port served all its links.
fn are_all_served(came: &Came, given: &Given) -> bool {
    for (place, port) in given.ports.iter().enumerate() {
        if served_by(came, place) != port.len() {
            return false;
        }
    }
    true
}

/// Whether the links have so many replies, one after the other.
fn came_so(read: &Read, counts: &str) -> Result<bool, RowFault> {
    let mut place = 0_usize;
    for count in counts.split(' ') {
        if read.came(place) as u64 != number(count)? {
            return Ok(false);
        }
        place = place.saturating_add(1);
    }
    Ok(place >= read.links.len())
}

/// The reply that tells how many entries there are, and the moment of the last one, or of none.
fn state_of(alloc: Global, entries: usize, moments: &str) -> Result<Vec<u8>, RowFault> {
    let (none, last) = word_of(moments);
    let moment = if entries == 0 { none } else { last };
    let mut line = String::new(alloc);
    write!(
        line,
        "200 {{\"sequenceNumber\":{entries},\"timestamp\":\"{moment}\"}}"
    )?;
    let mut bytes = Vec::new(alloc);
    add_reply(&mut bytes, line.as_str())?;
    Ok(bytes)
}

/// How often a text stands in what was written on all links.
fn times_in(came: &Came, text: &str) -> usize {
    let mut times = 0_usize;
    for port in came.ports() {
        for link in port.served() {
            let written = str::from_utf8(link.written()).unwrap_or("");
            times = times.saturating_add(written.split(text).count().saturating_sub(1));
        }
    }
    times
}

/// Whether each link that was served ends with these bytes.
fn all_end_with(came: &Came, last: &[u8]) -> bool {
    for port in came.ports() {
        for link in port.served() {
            if !link.written().ends_with(last) {
                return false;
            }
        }
    }
    true
}

impl Played {
    pub fn new(alloc: Global, came: Came) -> Played {
        Played {
            came,
            read: Read::new(alloc),
        }
    }

    /// Whether it came out as a line asks.
    pub fn check(
        &mut self,
        alloc: Global,
        check: Check,
        rest: &str,
        given: &Given,
        mixed: &mut Mixed,
        text: &[u8],
    ) -> Result<bool, RowFault> {
        match check {
            Check::Status => self.has_status(rest),
            Check::Ends => self.ends(rest),
            Check::Ports => self.has_ports(rest),
            Check::Links => are_served(&self.came, rest),
            Check::Replied => self.has_replied(alloc, given, rest),
            Check::Replies => self.has_replies(alloc, given, rest),
            Check::Some => is_read(alloc, &self.came, &mut self.read, given),
            Check::Numbers => self.has_numbers(alloc, rest),
            Check::Places => Ok(self.has_places(mixed)),
            Check::Last => self.has_last(alloc, rest),
            Check::Found => self.has_found(rest),
            Check::Holds => Ok(self.came.text(alloc)?.as_slice() == text),
            Check::Sealed => Ok(self.came.is_sealed()),
            Check::Mixed => self.is_mixed(alloc, mixed, text),
            Check::State => self.has_state(alloc, mixed, rest),
            Check::Untouched => Ok(self.came.is_untouched()),
            Check::Same => Ok(self.is_same(given)),
            Check::Ungiven => Ok(self.came.is_ungiven()),
            Check::Unused => Ok(self.came.is_unused),
        }
    }

    fn has_status(&self, text: &str) -> Result<bool, RowFault> {
        Ok(u64::from(self.came.status) == number(text)?)
    }

    /// `COUNT WHOLE ELSE`: the status where so many numbers were told, and the one where not.
    fn ends(&self, text: &str) -> Result<bool, RowFault> {
        let (count, statuses) = word_of(text);
        let (whole, cut) = word_of(statuses);
        if self.read.told.len() as u64 == number(count)? {
            self.has_status(whole)
        } else {
            self.has_status(cut)
        }
    }

    /// Whether so many ports came back.
    fn has_ports(&self, text: &str) -> Result<bool, RowFault> {
        Ok(self.came.ports().len() as u64 == number(text)?)
    }

    /// Whether each link that was served has all its replies and nothing else, and each port served so
    /// many, or all.
    fn has_replied(
        &mut self,
        alloc: Global,
        given: &Given,
        counts: &str,
    ) -> Result<bool, RowFault> {
        let is_read = is_read(alloc, &self.came, &mut self.read, given)?;
        let is_served = if counts.is_empty() {
            are_all_served(&self.came, given)
        } else {
            are_served(&self.came, counts)?
        };
        Ok(is_read && is_served && self.read.has_all())
    }

    /// Whether the links of the ports, one after the other, have so many of their replies, and nothing
    /// else.
    fn has_replies(
        &mut self,
        alloc: Global,
        given: &Given,
        counts: &str,
    ) -> Result<bool, RowFault> {
        let is_read = is_read(alloc, &self.came, &mut self.read, given)?;
        let came_so = came_so(&self.read, counts)?;
        Ok(is_read && came_so)
    }

    /// Whether the numbers that were told are those from 1 to this one, each once.
    fn has_numbers(&self, alloc: Global, text: &str) -> Result<bool, RowFault> {
        let is_count = self.read.told.len() as u64 == number(text)?;
        Ok(is_count && self.read.has_each_once(alloc)?)
    }

    /// Whether each number that was told is that of a line, which is of the port's own session.
    fn has_places(&self, mixed: &Mixed) -> bool {
        for told in &self.read.told {
            if !mixed.has(told.number, told.port) {
                return false;
            }
        }
        true
    }

    /// Whether each link that was served ends with that reply.
    fn has_last(&self, alloc: Global, line: &str) -> Result<bool, RowFault> {
        let mut bytes = Vec::new(alloc);
        add_reply(&mut bytes, line)?;
        Ok(all_end_with(&self.came, bytes.as_slice()))
    }

    /// `TIMES TEXT`: whether the text was written so often in all.
    fn has_found(&self, text: &str) -> Result<bool, RowFault> {
        let (times, text) = word_of(text);
        Ok(times_in(&self.came, text) as u64 == number(times)?)
    }

    /// Whether what was written is that one state, by how many lines there are.
    fn has_state(&self, alloc: Global, mixed: &Mixed, moments: &str) -> Result<bool, RowFault> {
        let wanted = state_of(alloc, mixed.lines.len(), moments)?;
        Ok(self.wrote_once(wanted.as_slice()))
    }

    /// Whether one link was served, on which these bytes were written.
    fn wrote_once(&self, wanted: &[u8]) -> bool {
        match self.came.ports() {
            [port] => match port.served() {
                [link] => link.written() == wanted,
                _ => false,
            },
            _ => false,
        }
    }

    /// Whether the file has this header, and behind it lines of the sessions.
    fn is_mixed(&self, alloc: Global, mixed: &mut Mixed, header: &[u8]) -> Result<bool, RowFault> {
        let text = self.came.text(alloc)?;
        match text.strip_prefix(header) {
            Some(lines) => mixed.read(str::from_utf8(lines).unwrap_or("?")),
            None => Ok(false),
        }
    }

    /// Whether the file that came back is the one that was given.
    fn is_same(&self, given: &Given) -> bool {
        match &given.file {
            Some(file) => self.came.file() == file.as_slice(),
            None => false,
        }
    }
}
