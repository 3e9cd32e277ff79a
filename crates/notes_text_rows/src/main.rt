//! Texts of journals of notes, and what each must be read as: both come from the input.
//!
//! A line `| TEXT` is the next line of a text, `+ TEXT` a piece of one that no byte 10 ends, and
//! `= WANTED` what the text must be read as: `reads N` with the number of its entries, or its fault.
//! What is read is written again. Other lines are for the reader.
#![tactic(auto)]

mod texts;

use notes_core::NoteEntry;
use notes_text::{HEADER, lines_behind};
use osm_base::Memory;
use row_lines::Tally;
use std::alloc::{AllocError, Global};
use std::io;
use std::process::ExitCode;
use texts::{TextFault, read_text};

/// A line of a text, or a piece of one.
fn add(text: &mut String, line: &str) -> Result<(), AllocError> {
    if let Some(part) = line.strip_prefix("| ") {
        text.push_str(part)?;
        text.push('\n')
    } else if let Some(part) = line.strip_prefix("+ ") {
        text.push_str(part)
    } else {
        Ok(())
    }
}

/// Whether these entries have this text.
fn is_written_so(alloc: Global, text: &str, entries: &[NoteEntry]) -> Result<bool, Memory> {
    let written = lines_behind(Vec::from_slice(alloc, HEADER)?, entries)?;
    Ok(written.as_slice() == text.as_bytes())
}

fn fault(alloc: Global, why: TextFault) -> Result<String, Memory> {
    match why {
        TextFault::Header => Ok(String::from_str(alloc, "header")?),
        TextFault::Line { line } => Ok(format!(in alloc; "line {line}")?),
        TextFault::Illegal { line } => Ok(format!(in alloc; "illegal {line}")?),
        TextFault::Memory => Err(Memory),
    }
}

/// What a text is read as.
fn reading(alloc: Global, text: &str) -> Result<String, Memory> {
    let book = match read_text(alloc, text) {
        Ok(book) => book,
        Err(why) => return fault(alloc, why),
    };
    let entries = book.journal().all(alloc)?;
    let count = entries.len();
    if is_written_so(alloc, text, entries.as_slice())? {
        Ok(format!(in alloc; "reads {count}")?)
    } else {
        Ok(format!(in alloc; "is written otherwise, and reads {count}")?)
    }
}

fn is_read_so(alloc: Global, text: &str, wanted: &str) -> Result<bool, Memory> {
    let told = reading(alloc, text)?;
    Ok(told.as_str() == wanted)
}

/// Reads each text of the input.
fn play<R: Print>(rt: &R, alloc: Global, input: &str, tally: &mut Tally) -> Result<(), AllocError> {
    let mut text = String::new(alloc);
    for line in input.lines() {
        if let Some(wanted) = line.strip_prefix("= ") {
            let outcome = is_read_so(alloc, text.as_str(), wanted);
            tally.note(rt, text.as_str(), outcome);
            text.clear();
        } else {
            add(&mut text, line)?;
        }
    }
    Ok(())
}

fn main(rt: HostRuntime) -> io::Result<ExitCode> {
    let alloc = rt.alloc();
    let mut tally = Tally::none();
    let input = io::read_to_string(alloc, rt.stdin())?;
    play(&rt, alloc, input.as_str(), &mut tally)?;
    tally.tell(&rt)?;
    if tally.is_right() {
        Ok(ExitCode::SUCCESS)
    } else {
        Ok(ExitCode::FAILURE)
    }
}
