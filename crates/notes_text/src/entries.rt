//! The entry of a line.
ghost use Rattle.std.specs.Prelude.{◌≡◌, Err, IfOk, OnOk};
ghost use Rattle.json.specs.Lex.{tokens};
ghost use Rattle.notes_core.specs.declared.commands.NoteEntry.{NoteEntry};
ghost use Rattle.line_text.specs.declared.faults.LineFault.{LineFault};
ghost use Rattle.line_text.specs.Found.{Finds, IsEntryRead};
ghost use Rattle.json_line.specs.Read.{alone};
ghost use Rattle.notes_text.specs.Line.{line, IsEntry};
ghost use Rattle.notes_text.specs.Read.{entry_next};

use crate::line::entry_line;
use crate::read::entry;
use json::{Reader, Scratch};
use line_text::LineFault;
use notes_core::NoteEntry;
use osm_json::{texts_are_read_again, values_are_read_again};
use std::alloc::Global;

/// The entry of an object that nothing follows.
fn whole(alloc: Global, reader: &mut Reader<'_>) -> Result<NoteEntry, LineFault>
    ensures { Finds result (alone (entry_next reader.old)) }
{
    let found = entry(alloc, reader)?;
    match reader.next() {
        None => Ok(found),
        Some(_) => Err(LineFault::NotLine),
    }
}

fn candidate(alloc: Global, text: &str) -> Result<NoteEntry, LineFault>
    ensures { Finds result (alone (entry_next (tokens text.now))) }
{
    let mut scratch = Scratch::new(alloc);
    let mut reader = Reader::new(text, &mut scratch)?;
    whole(alloc, &mut reader)
}

/// What the bytes may be the line of, which is told by its own line alone.
fn entry_like(alloc: Global, bytes: &[u8]) -> Result<NoteEntry, LineFault>
    ensures { (e : NoteEntry) → IsEntry e → bytes.now ≡ line e → IsEntryRead result e }
{
    texts_are_read_again();
    values_are_read_again();
    match simdutf8::compat::from_utf8(bytes) {
        Ok(text) => candidate(alloc, text),
        Err(_) => Err(LineFault::NotLine),
    }
}

/// The entry whose line this is: `NotLine` exactly where it isn't the line of any entry. It is read,
/// and then told by the line that it has itself.
pub fn read_entry(alloc: Global, bytes: &[u8]) -> Result<NoteEntry, LineFault>
    ensures line { IfOk result (λ e. bytes.now ≡ line e) }
    ensures typed { IfOk result IsEntry }
    ensures all { (e : NoteEntry) → IsEntry e → bytes.now ≡ line e → IsEntryRead result e }
{
    let found = entry_like(alloc, bytes)?;
    compare(alloc, &found, bytes)?;
    Ok(found)
}

/// Refuses what isn't the line of the entry.
fn compare(alloc: Global, entry: &NoteEntry, bytes: &[u8]) -> Result<(), LineFault>
    ensures same { OnOk result (bytes.now ≡ line entry.now) }
    ensures typed { OnOk result (IsEntry entry.now) }
    ensures other { result ≡ Err LineFault.NotLine → bytes.now ≡ line entry.now → ⊥ }
{
    let own = entry_line(alloc, entry)?;
    if own.as_slice() == bytes {
        Ok(())
    } else {
        Err(LineFault::NotLine)
    }
}
