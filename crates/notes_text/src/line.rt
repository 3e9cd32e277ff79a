//! The line of an entry.
ghost use Rattle.std.specs.Prelude.{◌≡◌, ◌++◌, IfOk, OnOk};
ghost use Rattle.notes_text.specs.Line.{line, IsEntry};

use crate::typed::entry_is_typed;
use crate::write::entry;
use json::Writer;
use notes_core::NoteEntry;
use osm_base::{Bytes, Memory};
use std::alloc::Global;

/// The line after what is there already, without a byte 10 behind it.
pub(crate) fn line_behind(bytes: Vec<u8>, of: &NoteEntry) -> Result<Vec<u8>, Memory>
    ensures line { IfOk result (λ longer. longer.items ≡ bytes.items ++ line of.now) }
    ensures typed { OnOk result (IsEntry of.now) }
{
    entry_is_typed(of);
    let mut out = Writer::new(bytes);
    entry(&mut out, of)?;
    Ok(out.into_inner())
}

/// The line of an entry, without the byte 10 that ends it: compact JSON, the members in the byte
/// order of their names.
pub fn entry_line(alloc: Global, entry: &NoteEntry) -> Result<Bytes, Memory>
    ensures line { IfOk result (λ bytes. bytes ≡ line entry.now) }
    ensures typed { OnOk result (IsEntry entry.now) }
{
    let bytes = line_behind(Vec::with_capacity(alloc, 256)?, entry)?;
    Ok(Bytes::from_vec(bytes))
}
