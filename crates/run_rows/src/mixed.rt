//! A journal's text in which lines of several sessions follow in any order.
use osm_base::Memory;
use row_lines::{RowFault, add_numbered};
use std::alloc::Global;

/// The lines that a session adds, by a form in which `#` is the number of its call, and how many of
/// them were found.
#[derive(Drop)]
pub struct Form {
    line: String,
    calls: u64,
}

/// The sessions of a text, and which of them has which line.
#[derive(Drop)]
pub struct Mixed {
    alloc: Global,
    forms: Vec<Form>,
    /// The session of each line.
    pub lines: Vec<usize>,
}

/// Whether the line is the next of a session.
fn is_next(alloc: Global, form: &Form, line: &str) -> Result<bool, RowFault> {
    let mut wanted = String::new(alloc);
    add_numbered(
        &mut wanted,
        form.line.as_str(),
        form.calls.saturating_add(1),
    )?;
    Ok(wanted.as_str() == line)
}

/// The session whose next line that is, if there is one.
fn session_of(alloc: Global, forms: &[Form], line: &str) -> Result<Option<usize>, RowFault> {
    for (session, form) in forms.iter().enumerate() {
        if is_next(alloc, form, line)? {
            return Ok(Some(session));
        }
    }
    Ok(None)
}

impl Mixed {
    pub fn new(alloc: Global) -> Mixed {
        Mixed {
            alloc,
            forms: Vec::new(alloc),
            lines: Vec::new(alloc),
        }
    }

    /// One more session, with the form of its lines.
    pub fn add(&mut self, form: &str) -> Result<(), RowFault> {
        let line = String::from_str(self.alloc, form)?;
        self.forms.push(Form { line, calls: 0 })?;
        Ok(())
    }

    fn forget(&mut self) {
        self.lines.clear();
        for form in self.forms.iter_mut() {
            form.calls = 0;
        }
    }

    fn note(&mut self, session: usize) -> Result<(), Memory> {
        if let Some(form) = self.forms.get_mut(session) {
            form.calls = form.calls.saturating_add(1);
        }
        self.lines.push(session)?;
        Ok(())
    }

    fn read_line(&mut self, line: &str) -> Result<bool, RowFault> {
        match session_of(self.alloc, self.forms.as_slice(), line)? {
            Some(session) => {
                self.note(session)?;
                Ok(true)
            }
            None => Ok(false),
        }
    }

    /// Whether each line is the next one of a session.
    pub fn read(&mut self, lines: &str) -> Result<bool, RowFault> {
        self.forget();
        for line in lines.lines() {
            if !self.read_line(line)? {
                return Ok(false);
            }
        }
        Ok(true)
    }

    /// Whether the line of that number, counted from 1, is of that session.
    pub fn has(&self, number: u64, session: usize) -> bool {
        let place = number.wrapping_sub(1);
        match self.lines.get(place as usize) {
            Some(there) => *there == session,
            None => false,
        }
    }
}
