//! How the entries of the map's journal are written.
use durable_log::{Lines, lines_law};
use journal_text::{lines_are_plain, lines_behind};
use osm_base::Memory;
use osm_model::Entry;

/// A line of JSON for each entry, behind the header of version 2.
pub struct EntryLines;

impl Lines<Entry> for EntryLines {
    ghost use Rattle.journal_text.specs.Text.{lines, text_of};
    ghost use Rattle.entry_file.specs.More.{journal_more};

    ghost lines = { lines };

    ghost text = { text_of };

    fn lines_behind(bytes: Vec<u8>, entries: &[Entry]) -> Result<Vec<u8>, Memory> {
        lines_are_plain();
        lines_law::<Entry>();
        let longer = lines_behind(bytes, entries)?;
        Ok(longer)
    }

    ghost more = { journal_more };
}
