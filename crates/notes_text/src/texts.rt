//! The journal of notes as a text.
ghost use Rattle.std.specs.Prelude.{◌≡◌, ◌++◌, All, IfOk, OnOk};
ghost use Rattle.notes_text.specs.Line.{line, IsEntry};
ghost use Rattle.notes_text.specs.Text.{lines};

use crate::line::line_behind;
use notes_core::NoteEntry;
use osm_base::Memory;

/// The first line of a text, with the byte 10 that ends it.
pub const HEADER: &[u8] = b"osm-notes-journal 1\n";

/// The lines of the entries, each ended by byte 10, behind what is there already.
pub fn lines_behind(bytes: Vec<u8>, entries: &[NoteEntry]) -> Result<Vec<u8>, Memory>
    ensures lines { IfOk result (λ longer. longer.items ≡ bytes.items ++ lines entries.now) }
    ensures typed { OnOk result (All IsEntry entries.now) }
{
    let mut text = bytes;
    for entry in entries {
        text = line_behind(text, entry)?;
        text.push(b'\n')?;
    }
    Ok(text)
}
