//! How the entries of the notes' journal are written, and read again.
use durable_log::{Lines, lines_law};
use journal_recovery::{KeptText, TextFault};
use line_text::LineFault;
use notes_core::NoteEntry;
use notes_text::{HEADER, lines_are_plain, lines_behind, lines_tell_entries, read_entry};
use osm_base::Memory;
use std::alloc::Global;

/// A line of JSON for each entry, behind the header of the notes' journal.
pub struct NoteLines;

impl Lines<NoteEntry> for NoteLines {
    ghost use Rattle.notes_text.specs.Text.{lines, text_of};
    ghost use Rattle.notes_kept.specs.More.{notes_more};

    ghost lines = { lines };

    ghost text = { text_of };

    fn lines_behind(bytes: Vec<u8>, entries: &[NoteEntry]) -> Result<Vec<u8>, Memory> {
        lines_are_plain();
        lines_law::<NoteEntry>();
        let longer = lines_behind(bytes, entries)?;
        Ok(longer)
    }

    ghost more = { notes_more };
}

impl KeptText<NoteEntry> for NoteLines {
    ghost use Rattle.notes_text.specs.Line.{line, IsEntry};
    ghost use Rattle.notes_text.specs.Text.{header};

    ghost is_entry = { IsEntry };

    ghost line = { line };

    ghost header = { header };

    fn header() -> &'static [u8] {
        HEADER
    }

    fn read_line(alloc: Global, bytes: &[u8]) -> Result<NoteEntry, TextFault> {
        match read_entry(alloc, bytes) {
            Ok(entry) => Ok(entry),
            Err(LineFault::NotLine) => Err(TextFault::NoJournal),
            Err(LineFault::Memory) => Err(TextFault::Memory),
        }
    }

    fn text_law() {
        lines_are_plain();
        lines_tell_entries();
    }
}
