//! The tags of an element or a changeset.
//!
//! An object's tags are read into one text with their places, which are sorted only where the
//! names don't rise as they come, and the last of a name is kept; a map by name took ten times the
//! memory of the tags. The room of the tags that are made of them is taken at once, and given back
//! where a name came again.
ghost use Rattle.std.specs.Prelude.{◌≡◌, ◌<◌, ◌≤◌, length, [], OnOk};
ghost use Rattle.osm_json.specs.Entries.{AreInOrder, gather, text_pairs};
ghost use Rattle.osm_json.specs.Found.{Makes};
ghost use Rattle.osm_json.specs.Pull.{next_data, next_members, Pulled};
ghost use Rattle.osm_json.specs.Reading.{pairs_of, tags_of};

use crate::entries::Entries;
use crate::fault::ReadFault;
use crate::scalar::{enter_object, next_text};
use json::Reader;
use osm_base::TryCopy;
use osm_element::Tags;
use std::alloc::Global;

/// The members of an object with their texts, as they come.
fn entries(alloc: Global, reader: &mut Reader<'_>, depth: usize) -> Result<Entries, ReadFault>
    ensures value { Pulled (λ es. text_pairs (gather [] es)) pairs_of result (next_members depth reader.old) reader.new }
    ensures shorter { OnOk result (length reader.new ≤ length reader.old) }
{
    let mut found = Entries::new(alloc)?;
    while let Some(key) = reader.next_key()? {
        let text = next_text(reader, depth)?;
        found = found.with(key, text)?;
    }
    Ok(found)
}

/// The texts, the last of each name, where there is nothing else.
fn tags_from(alloc: Global, entries: &Entries) -> Result<Option<Tags>, ReadFault>
    requires { AreInOrder entries.now }
    ensures { Makes (λ x. x) result (text_pairs (gather [] entries.now)) }
{
    let count = entries.len();
    let mut found = Tags::with_room(alloc, count, entries.byte_count())?;
    for index in 0..count {
        if entries.is_last(index) {
            let (key, text) = entries.entry(index);
            let Some(text) = text else {
                return Ok(None);
            };
            found = found.with(key, text)?;
        }
    }
    if found.len() < count {
        // Names that came again left room: a copy has none.
        return Ok(Some(found.copy(alloc)?));
    }
    Ok(Some(found))
}

/// An object of texts.
pub(crate) fn tags(
    alloc: Global,
    reader: &mut Reader<'_>,
    depth: usize,
) -> Result<Option<Tags>, ReadFault>
    ensures value { Pulled (λ x. x) tags_of result (next_data depth reader.old) reader.new }
    ensures shorter { OnOk result (length reader.new < length reader.old) }
{
    match enter_object(reader, depth)? {
        Some(within) => {
            let found = entries(alloc, reader, within)?.sorted()?;
            tags_from(alloc, &found)
        }
        None => Ok(None),
    }
}
