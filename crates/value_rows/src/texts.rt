//! Texts and what they are read as: bodies of requests, and journals. docs/ROWS.md has their format.
mod bodies;
mod journals;
mod keepers;
mod told;

use osm_base::Memory;
use std::alloc::{AllocError, Global};
use std::io;

/// Why a text has no reading.
#[derive(Clone, Copy)]
enum TextFault {
    Unread,
    Memory,
}

impl From<AllocError> for TextFault {
    fn from(_: AllocError) -> TextFault {
        TextFault::Memory
    }
}

impl From<Memory> for TextFault {
    fn from(_: Memory) -> TextFault {
        TextFault::Memory
    }
}

fn said(alloc: Global, word: &str) -> Result<String, TextFault> {
    Ok(String::from_str(alloc, word)?)
}

fn numbered(alloc: Global, word: &str, number: u64) -> Result<String, TextFault> {
    Ok(format!(in alloc; "{word} {number}")?)
}

/// What the texts of a part are.
#[derive(Clone, Copy)]
enum Part {
    Bodies,
    Journals,
}

impl Part {
    /// Takes up a line. A body is one line; a journal has many.
    fn add(self, text: &mut String, line: &str) -> Result<(), AllocError> {
        match self {
            Part::Bodies => bodies::add(text, line),
            Part::Journals => journals::add(text, line),
        }
    }

    /// What a text is read as.
    fn reading(self, alloc: Global, text: &str) -> Result<String, TextFault> {
        match self {
            Part::Bodies => bodies::reading(alloc, text),
            Part::Journals => journals::reading(alloc, text),
        }
    }

    fn noun(self) -> &'static str {
        match self {
            Part::Bodies => "bodies",
            Part::Journals => "texts",
        }
    }
}

/// What was read, and how much of it was wrong.
#[derive(Clone, Copy)]
struct Count {
    part: Part,
    rows: u64,
    texts: u64,
    wrong: u64,
}

/// Whether that is what must be told: all of it, or its first word.
fn is_wanted(told: &str, wanted: &str) -> bool {
    told == wanted || (wanted == "reads" && told.starts_with("reads"))
}

fn told_of(came: &Result<String, TextFault>) -> &str {
    match came {
        Ok(told) => told.as_str(),
        Err(TextFault::Unread) => "a line that isn't of the format",
        Err(TextFault::Memory) => "no memory",
    }
}

impl Count {
    /// Reads the texts of a row: its name, and then the lines of each text and what it must be read
    /// as.
    fn read<R: Print>(&mut self, rt: &R, alloc: Global, row: &str) {
        self.rows = self.rows.saturating_add(1);
        let mut lines = row.lines();
        let name = lines.next().unwrap_or("");
        let mut text = String::new(alloc);
        for line in lines {
            if let Some(wanted) = line.strip_prefix("= ") {
                self.compare(rt, alloc, name, text.as_str(), wanted);
                text.clear();
            } else if self.part.add(&mut text, line).is_err() {
                self.wrong = self.wrong.saturating_add(1);
            }
        }
    }

    fn read_all<R: Print>(&mut self, rt: &R, alloc: Global, rows: &str) {
        for row in rows.split("\n== ").skip(1) {
            self.read(rt, alloc, row);
        }
    }

    fn compare<R: Print>(&mut self, rt: &R, alloc: Global, name: &str, text: &str, wanted: &str) {
        self.texts = self.texts.saturating_add(1);
        let came = self.part.reading(alloc, text);
        let told = told_of(&came);
        if !is_wanted(told, wanted) {
            self.wrong = self.wrong.saturating_add(1);
            let _ = println!(rt; "wrong: {name}: {text}\n    wanted: {wanted}\n    came:   {told}");
        }
    }

    /// Says what was read.
    fn tell<R: Print>(&self, rt: &R) -> io::Result<()> {
        println!(rt;
            "{} rows, {} {}, {} wrong",
            self.rows,
            self.texts,
            self.part.noun(),
            self.wrong
        )
    }
}

/// Reads the rows of a part: whether all came out right.
fn read_part<R: Print>(rt: &R, alloc: Global, part: Part, rows: &str) -> io::Result<bool> {
    let mut count = Count {
        part,
        rows: 0,
        texts: 0,
        wrong: 0,
    };
    count.read_all(rt, alloc, rows);
    count.tell(rt)?;
    Ok(count.wrong == 0)
}

/// Reads the rows of bodies, and behind them those of journals: whether all came out right.
pub fn play<R: Print>(rt: &R, alloc: Global, text: &str) -> io::Result<bool> {
    let (bodies, journals) = text.split_once("\n=== journals\n").unwrap_or((text, ""));
    let are_bodies_right = read_part(rt, alloc, Part::Bodies, bodies)?;
    let are_journals_right = read_part(rt, alloc, Part::Journals, journals)?;
    Ok(are_bodies_right && are_journals_right)
}
