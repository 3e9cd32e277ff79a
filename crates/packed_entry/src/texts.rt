//! Texts: how many bytes, and these.
ghost use Rattle.std.specs.Prelude.{◌≡◌, ◌++◌, OnOk};
ghost use Rattle.packed_entry.specs.Packed.{packed_text};
ghost use Rattle.packed_entry.specs.Read.{Gives, text_at};
ghost use Rattle.packed_entry.specs.Typed.{IsText};

use crate::faults::Fault;
use crate::numbers::put_number;
use crate::reader::Reader;
use osm_base::{Memory, Text};
use std::alloc::Global;

#[tactic(auto, unfolding(crate::specs::Packed::packed_text))]
pub(crate) fn put_text(out: &mut Vec<u8>, text: &str) -> Result<(), Memory>
    ensures bytes { OnOk result (out.new.items ≡ out.old.items ++ packed_text text.now) }
    ensures typed { IsText text.now }
{
    let bytes = text.as_bytes();
    put_number(out, bytes.len() as u64)?;
    out.extend_from_slice(bytes)?;
    Ok(())
}

pub(crate) fn text(alloc: Global, reader: &mut Reader<'_>) -> Result<Text, Fault>
    ensures { Gives (λ x. x) result (text_at reader.old) reader.new }
{
    let text = reader.text()?;
    Ok(Text::of(alloc, text)?)
}
