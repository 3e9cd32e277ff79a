//! What a run is given.
use crate::ports::PortGiven;
use row_lines::{RowFault, add_unescaped, number, word_of};
use std::alloc::Global;

/// The users of a row, where its own lines say nothing else.
const USERS: &str = "1 alicetoken user alice\\n2 bobtoken moderator bob\\n";

/// What the next run is given.
#[derive(Drop)]
pub struct Given {
    alloc: Global,
    pub users: Vec<u8>,
    /// The file of its journal, if there is one.
    pub file: Option<Vec<u8>>,
    /// After how many calls the file fails.
    pub left: u64,
    pub bad_calls: Vec<u64>,
    pub ports: Vec<PortGiven>,
}

/// Puts the numbers of a text in the place of those.
fn put_numbers(numbers: &mut Vec<u64>, text: &str) -> Result<(), RowFault> {
    numbers.clear();
    for word in text.split(' ') {
        numbers.push(number(word)?)?;
    }
    Ok(())
}

/// The number of a text, and that one where there is none.
fn number_or(text: &str, otherwise: u64) -> Result<u64, RowFault> {
    if text.is_empty() {
        Ok(otherwise)
    } else {
        number(text)
    }
}

impl Given {
    pub fn new(alloc: Global) -> Given {
        Given {
            alloc,
            users: Vec::new(alloc),
            file: None,
            left: u64::MAX,
            bad_calls: Vec::new(alloc),
            ports: Vec::new(alloc),
        }
    }

    /// What every row begins with.
    pub fn usual(alloc: Global) -> Result<Given, RowFault> {
        let mut given = Given::new(alloc);
        given.put_users(USERS)?;
        Ok(given)
    }

    /// Nothing fails, and there is no port yet.
    pub fn renew(&mut self) {
        self.left = u64::MAX;
        self.bad_calls.clear();
        self.ports.clear();
    }

    pub fn put_users(&mut self, text: &str) -> Result<(), RowFault> {
        self.users.clear();
        add_unescaped(&mut self.users, text)
    }

    /// The file is this text, with these bytes behind it.
    pub fn put_file(&mut self, text: &[u8], behind: &str) -> Result<(), RowFault> {
        let mut file = text.to_vec(self.alloc)?;
        add_unescaped(&mut file, behind)?;
        self.file = Some(file);
        Ok(())
    }

    /// There is no file yet.
    pub fn put_none(&mut self) -> Result<(), RowFault> {
        self.file = None;
        Ok(())
    }

    /// `PLACE BYTE`: another byte at that place of the file, counted from 0.
    pub fn put_byte(&mut self, text: &str) -> Result<(), RowFault> {
        let (place, byte) = word_of(text);
        let place = number(place)? as usize;
        let byte = byte.as_bytes().first().copied();
        match (&mut self.file, byte) {
            (Some(file), Some(byte)) => put_at(file.as_mut_slice(), place, byte),
            _ => Err(RowFault::Unread),
        }
    }

    pub fn put_left(&mut self, text: &str) -> Result<(), RowFault> {
        self.left = number(text)?;
        Ok(())
    }

    pub fn put_bad_calls(&mut self, text: &str) -> Result<(), RowFault> {
        put_numbers(&mut self.bad_calls, text)
    }

    pub fn add_port(&mut self, moment: &str) -> Result<(), RowFault> {
        let moment = number(moment)?;
        self.ports.push(PortGiven::new(self.alloc, moment))?;
        Ok(())
    }

    pub fn put_bad_accepts(&mut self, text: &str) -> Result<(), RowFault> {
        match self.ports.last_mut() {
            Some(port) => put_numbers(&mut port.bad_accepts, text),
            None => Err(RowFault::Unread),
        }
    }

    /// So many links, or one.
    pub fn add_links(&mut self, count: &str) -> Result<(), RowFault> {
        let count = number_or(count, 1)? as usize;
        match self.ports.last_mut() {
            Some(port) => port.add_links(self.alloc, count),
            None => Err(RowFault::Unread),
        }
    }

    pub fn add_request(&mut self, line: &str) -> Result<(), RowFault> {
        match self.ports.last_mut() {
            Some(port) => port.add_request(line),
            None => Err(RowFault::Unread),
        }
    }

    pub fn add_reply(&mut self, line: &str) -> Result<(), RowFault> {
        match self.ports.last_mut() {
            Some(port) => port.add_reply(self.alloc, line),
            None => Err(RowFault::Unread),
        }
    }
}

fn put_at(file: &mut [u8], place: usize, byte: u8) -> Result<(), RowFault> {
    match file.get_mut(place) {
        Some(there) => {
            *there = byte;
            Ok(())
        }
        None => Err(RowFault::Unread),
    }
}
