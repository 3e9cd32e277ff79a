//! A row: its head, and its phases.
use crate::gates::Hold;
use row_lines::{RowFault, number, word_of};
use std::alloc::Global;

/// A row. Its text is a head, and phases that are played one after the other.
#[derive(Drop)]
pub struct Row<'a> {
    pub sessions: u32,
    /// How many sessions a thread has.
    pub each: u32,
    /// Whether the users are those of the load.
    pub has_load: bool,
    /// How many entries the journal must have, where the row says so.
    pub entries: Option<u64>,
    /// The sessions that are ended, in their order.
    pub ends: Vec<u64>,
    pub holds: Vec<Hold>,
    pub phases: &'a str,
}

/// A line of a phase.
#[derive(Clone, Copy)]
pub struct Step<'a> {
    /// The session that sends the request, or each one.
    pub session: Option<u64>,
    /// How often it is sent in a round.
    pub times: u64,
    pub request: &'a str,
    /// What must come.
    pub wanted: Option<&'a str>,
}

/// Lines that are played by each thread that has a session of theirs, in so many rounds.
#[derive(Drop)]
pub struct Phase<'a> {
    pub rounds: u64,
    pub steps: Vec<Step<'a>>,
}

fn small(text: &str) -> Result<u32, RowFault> {
    Ok(u32::try_from(number(text)?).unwrap_or(u32::MAX))
}

fn add_numbers(numbers: &mut Vec<u64>, text: &str) -> Result<(), RowFault> {
    for word in text.split(' ') {
        numbers.push(number(word)?)?;
    }
    Ok(())
}

impl<'a> Row<'a> {
    /// Reads the lines of a row, without its name.
    pub fn read(alloc: Global, lines: &'a str) -> Result<Row<'a>, RowFault> {
        let (head, phases) = lines.split_once("\n-- ").ok_or(RowFault::Unread)?;
        let mut row = Row {
            sessions: 0,
            each: 1,
            has_load: false,
            entries: None,
            ends: Vec::new(alloc),
            holds: Vec::new(alloc),
            phases,
        };
        for line in head.lines() {
            row.read_line(line)?;
        }
        if row.ends.is_empty() {
            for session in 0..row.sessions {
                row.ends.push(u64::from(session))?;
            }
        }
        Ok(row)
    }

    fn read_line(&mut self, line: &str) -> Result<(), RowFault> {
        let (word, rest) = word_of(line);
        match word {
            "sessions" => self.sessions = small(rest)?,
            "each" => self.each = small(rest)?,
            "load" => self.has_load = true,
            "entries" => self.entries = Some(number(rest)?),
            "ends" => add_numbers(&mut self.ends, rest)?,
            "hold" => self.holds.push(Hold::of(rest)?)?,
            _ => return Err(RowFault::Unread),
        }
        Ok(())
    }
}

impl<'a> Step<'a> {
    /// `SESSION REQUEST`, `* REQUEST` for each session, and `Nx` before it for N times.
    fn of(line: &'a str) -> Result<Step<'a>, RowFault> {
        let (word, rest) = word_of(line);
        let (times, line) = match word.strip_suffix('x') {
            Some(times) => (number(times)?, rest),
            None => (1, line),
        };
        let (word, request) = word_of(line);
        let session = if word == "*" {
            None
        } else {
            Some(number(word)?)
        };
        Ok(Step {
            session,
            times,
            request,
            wanted: None,
        })
    }

    pub fn is_of(&self, session: u64) -> bool {
        self.session.is_none_or(|number| number == session)
    }
}

impl<'a> Phase<'a> {
    /// Reads a phase: its number of rounds, and its lines.
    pub fn read(alloc: Global, text: &'a str) -> Result<Phase<'a>, RowFault> {
        let (rounds, lines) = text.split_once('\n').ok_or(RowFault::Unread)?;
        let mut phase = Phase {
            rounds: number(rounds)?,
            steps: Vec::new(alloc),
        };
        for line in lines.lines() {
            phase.read_line(line)?;
        }
        Ok(phase)
    }

    fn read_line(&mut self, line: &'a str) -> Result<(), RowFault> {
        if line.is_empty() || line.starts_with('#') {
            return Ok(());
        }
        let Some(wanted) = line.strip_prefix("= ") else {
            self.steps.push(Step::of(line)?)?;
            return Ok(());
        };
        match self.steps.last_mut() {
            Some(step) => step.wanted = Some(wanted),
            None => return Err(RowFault::Unread),
        }
        Ok(())
    }
}
