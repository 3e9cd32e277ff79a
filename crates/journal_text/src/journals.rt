//! The journal as a text.
ghost use Rattle.std.specs.Prelude.{◌≡◌, ◌≤◌, ◌++◌, length, All, IfOk, IfErr, OnOk, OnErr};
ghost use Rattle.osm_model.specs.Journal.{IsLegal};
ghost use Rattle.journal_text.specs.Line.{line, IsEntry};
ghost use Rattle.journal_text.specs.Lines.{Follows, FollowsAlone, IsLineFault};
ghost use Rattle.journal_text.specs.Text.{lines, text_of, IsTextOf};
ghost use Rattle.journal_text.specs.declared.limits.TheConstants.{TEXT_LIMIT};

use crate::entries::read_entry;
use crate::faults::JournalFault;
use crate::keepers::Keeper;
use crate::line::line_behind;
use crate::versions::{HEADER, Version};
use line_text::LineFault;
use osm_base::{Bytes, Memory};
use osm_model::Entry;
use std::alloc::Global;

/// The lines of the entries, each ended by byte 10, behind what is there already.
pub fn lines_behind(bytes: Vec<u8>, entries: &[Entry]) -> Result<Vec<u8>, Memory>
    ensures lines { IfOk result (λ longer. longer.items ≡ bytes.items ++ lines entries.now) }
    ensures typed { OnOk result (All IsEntry entries.now) }
{
    let mut text = bytes;
    for entry in entries {
        text = line_behind(text, entry)?;
        text.push(b'\n')?;
    }
    Ok(text)
}

/// The text of a journal, in version 2: a header, and the line of each entry, each ended by byte 10.
/// `typed` and `again` are what its readers ask for: within `TEXT_LIMIT` it is read as that journal.
pub fn journal_text(alloc: Global, entries: &[Entry]) -> Result<Bytes, Memory>
    requires { IsLegal entries.now }
    ensures text { IfOk result (λ bytes. bytes ≡ text_of entries.now) }
    ensures typed { OnOk result (All IsEntry entries.now) }
    ensures again { IfOk result (λ bytes. length bytes ≤ TEXT_LIMIT → IsTextOf bytes entries.now) }
{
    let text = lines_behind(Vec::from_slice(alloc, HEADER)?, entries)?;
    Ok(Bytes::from_vec(text))
}

/// Reads a line of this version, without the byte 10 that ends it, and has its entry kept. A fault
/// tells this number of the line, and leaves the keeper as it was.
pub fn read_line<K: Keeper>(
    alloc: Global,
    version: Version,
    line: &[u8],
    number: u64,
    keeper: &mut K,
) -> Result<(), JournalFault>
    ensures ok { OnOk result (Follows version (K.kept keeper.old) line.now (K.kept keeper.new)) }
    ensures alone { OnOk result (FollowsAlone (K.kept keeper.old) line.now (K.kept keeper.new)) }
    ensures fault { IfErr result (λ f. IsLineFault version f number (K.kept keeper.old) line.now) }
    ensures same { OnErr result (K.kept keeper.new ≡ K.kept keeper.old) }
{
    let entry = match read_entry(alloc, line) {
        Ok(entry) if version.fits(&entry) => entry,
        Ok(_) | Err(LineFault::NotLine) => return Err(JournalFault::Line { line: number }),
        Err(LineFault::Memory) => return Err(JournalFault::Memory),
    };
    if keeper.keep(alloc, entry)? {
        Ok(())
    } else {
        Err(JournalFault::Illegal { line: number })
    }
}
