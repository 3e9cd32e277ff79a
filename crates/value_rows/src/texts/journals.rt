//! What a journal's text is read as, as a text.
use super::keepers::PlainKeeper;
use super::{TextFault, numbered, said};
use journal_text::{JournalFault, TEXT_LIMIT, Version, entry_line, read_line, split_header};
use osm_base::split_once;
use osm_model::Entry;
use packed_entry::PackedEntry;
use std::alloc::{AllocError, Global};

/// A line of a row: the next line of the journal, a piece of one, or a byte 13.
pub fn add(text: &mut String, line: &str) -> Result<(), AllocError> {
    if let Some(part) = line.strip_prefix("| ") {
        text.push_str(part)?;
        text.push('\n')
    } else if let Some(part) = line.strip_prefix("+ ") {
        text.push_str(part)
    } else if line == "13" {
        text.push('\r')
    } else {
        Ok(())
    }
}

/// Whether the line is that of the entry, and so of an equal one that was kept in few bytes.
fn is_line_of(alloc: Global, line: &str, entry: &Entry) -> Result<bool, TextFault> {
    let packed = PackedEntry::of(alloc, entry)?;
    let again = packed.entry(alloc)?;
    let written = entry_line(alloc, &again)?;
    Ok(line.as_bytes() == written.as_slice())
}

/// Whether the lines are those of the entries, each behind a byte 10, and one byte 10 more at the end.
fn is_written_so(alloc: Global, lines: &str, entries: &[Entry]) -> Result<bool, TextFault> {
    let mut rest = lines;
    for entry in entries {
        let Some((first, behind)) = rest.split_once('\n') else {
            return Ok(false);
        };
        if !is_line_of(alloc, first, entry)? {
            return Ok(false);
        }
        rest = behind;
    }
    Ok(rest.is_empty())
}

fn read(alloc: Global, text: &str, entries: &[Entry]) -> Result<String, TextFault> {
    let count = entries.len() as u64;
    let (_, lines) = text.split_once('\n').unwrap_or((text, ""));
    if is_written_so(alloc, lines, entries)? {
        numbered(alloc, "reads", count)
    } else {
        numbered(alloc, "is written otherwise, and reads", count)
    }
}

fn fault(alloc: Global, why: JournalFault) -> Result<String, TextFault> {
    match why {
        JournalFault::Long => said(alloc, "long"),
        JournalFault::Header => said(alloc, "header"),
        JournalFault::Line { line } => numbered(alloc, "line", line),
        JournalFault::Illegal { line } => numbered(alloc, "illegal", line),
        JournalFault::Memory => Err(TextFault::Memory),
    }
}

/// Reads the lines behind a header, each ended by byte 10, and has their entries kept.
fn read_lines(
    alloc: Global,
    version: Version,
    lines: &[u8],
    keeper: &mut PlainKeeper,
) -> Result<(), JournalFault> {
    let mut rest = lines;
    for number in 2..u64::MAX {
        if rest.is_empty() {
            return Ok(());
        }
        let Some((line, behind)) = split_once(rest, b'\n') else {
            return Err(JournalFault::Line { line: number });
        };
        read_line(alloc, version, line, number, keeper)?;
        rest = behind;
    }
    Ok(())
}

/// A keeper of the entries of a text.
fn read_journal(alloc: Global, text: &[u8]) -> Result<PlainKeeper, JournalFault> {
    if text.len() > TEXT_LIMIT {
        return Err(JournalFault::Long);
    }
    let Some((version, lines)) = split_header(text) else {
        return Err(JournalFault::Header);
    };
    let mut keeper = PlainKeeper::new(alloc);
    read_lines(alloc, version, lines, &mut keeper)?;
    Ok(keeper)
}

/// `reads N` with the number of entries, or the fault with its line.
pub fn reading(alloc: Global, text: &str) -> Result<String, TextFault> {
    match read_journal(alloc, text.as_bytes()) {
        Ok(keeper) => read(alloc, text, keeper.entries()),
        Err(why) => fault(alloc, why),
    }
}
