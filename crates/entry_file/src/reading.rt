//! How the entries of the map's journal are read again.
use crate::lines::EntryLines;
use journal_recovery::{KeptText, TextFault};
use journal_text::{HEADER, lines_are_plain, lines_tell_entries, read_entry};
use line_text::LineFault;
use osm_model::Entry;
use std::alloc::Global;

impl KeptText<Entry> for EntryLines {
    ghost use Rattle.journal_text.specs.Line.{line, IsEntry};
    ghost use Rattle.journal_text.specs.Text.{header};
    ghost use Rattle.journal_text.specs.declared.versions.Version.TheVariants.{Two};

    ghost is_entry = { IsEntry };

    ghost line = { line };

    ghost header = { header Two };

    fn header() -> &'static [u8] {
        HEADER
    }

    fn read_line(alloc: Global, bytes: &[u8]) -> Result<Entry, TextFault> {
        match read_entry(alloc, bytes) {
            Ok(entry) => Ok(entry),
            Err(LineFault::NotLine) => Err(TextFault::NoJournal),
            Err(LineFault::Memory) => Err(TextFault::Memory),
        }
    }

    fn text_law() {
        lines_are_plain();
        lines_tell_entries();
    }
}
