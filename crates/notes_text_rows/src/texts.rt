//! The entries of a text: its lines are read as a start reads a file's, and each entry is judged
//! behind those before it.
ghost use Rattle.std.specs.Prelude.{◌≡◌, ◌==◌, ◌+◌};

use hub_core::{Book, NoOutlet};
use line_text::LineFault;
use machine_law::Tag;
use notes_core::{NoteEntry, NotesMachine};
use notes_text::{HEADER, read_entry};
use osm_base::{Memory, split_once};
use std::alloc::Global;

/// Why a text has no journal. Lines count from 1, the header included.
#[derive(Clone, Copy)]
pub enum TextFault {
    /// It doesn't begin with the header and byte 10.
    Header,
    /// Not the line of any entry, or not ended by byte 10.
    Line { line: u64 },
    /// The entry may not follow those before it.
    Illegal { line: u64 },
    Memory,
}

impl From<Memory> for TextFault {
    fn from(_: Memory) -> TextFault {
        TextFault::Memory
    }
}

/// The book of a text's entries.
pub fn read_text(alloc: Global, text: &str) -> Result<Book<NotesMachine>, TextFault> {
    let Some(lines) = text.as_bytes().strip_prefix(HEADER) else {
        return Err(TextFault::Header);
    };
    let mut book = Book::new(alloc);
    read_lines(alloc, lines, &mut book)?;
    Ok(book)
}

/// Reads the lines behind a header, each ended by byte 10.
fn read_lines(alloc: Global, lines: &[u8], book: &mut Book<NotesMachine>) -> Result<(), TextFault> {
    let mut rest = lines;
    for line in 2..u64::MAX {
        if rest.is_empty() {
            return Ok(());
        }
        let Some((bytes, behind)) = split_once(rest, b'\n') else {
            return Err(TextFault::Line { line });
        };
        read_line(alloc, bytes, line, book)?;
        rest = behind;
    }
    Ok(())
}

/// Reads a line, and keeps its entry.
fn read_line(
    alloc: Global,
    bytes: &[u8],
    line: u64,
    book: &mut Book<NotesMachine>,
) -> Result<(), TextFault> {
    let entry = match read_entry(alloc, bytes) {
        Ok(entry) => entry,
        Err(LineFault::NotLine) => return Err(TextFault::Line { line }),
        Err(LineFault::Memory) => return Err(TextFault::Memory),
    };
    if keep(book, entry)? {
        Ok(())
    } else {
        Err(TextFault::Illegal { line })
    }
}

/// Keeps an entry where it may come next: its command is accepted there at its own stamp, and its
/// call is the next one of its session.
fn keep(book: &mut Book<NotesMachine>, entry: NoteEntry) -> Result<bool, Memory> {
    if !book.world().takes(&entry) || !is_next(entry.call, book.calls(entry.session)) {
        return Ok(false);
    }
    let tag = Tag {
        session: entry.session,
        call: entry.call,
    };
    book.append(entry, tag, &mut NoOutlet)?;
    Ok(true)
}

/// Whether a call is the next one after so many.
fn is_next(call: u64, calls: u64) -> bool
    ensures { result ≡ (call == calls + 1) }
{
    call > 0 && call - 1 == calls
}
