//! Tags of several versions, in one text and one list of ends.
ghost use Rattle.std.specs.Prelude.{◌≡◌, ◌<◌, ◌++◌, ◌∷◌, [], length, get_or, IfOk};
ghost use Rattle.osm_element.specs.Tags.{cut, AreEnds};

use crate::labels::{Ends, TagList};
use osm_base::Memory;
use std::alloc::Global;
use std::marker::Model;

/// Where the tags of one version stand in the text, and their ends in the list. Ends are counted from
/// where these tags begin.
#[derive(Clone, Copy, Drop)]
pub(crate) struct Place {
    text_from: usize,
    text_to: usize,
    ends_from: usize,
    ends_to: usize,
}

/// The tags of versions, those of one behind those of another, so that a copy of many takes two
/// blocks of memory and not three for each.
#[derive(Drop)]
pub struct TagLists {
    text: String,
    ends: Vec<Ends>,
    places: Vec<Place>,
}

impl Model for TagLists {
    ghost use Rattle.std.specs.Prelude.{List, All, map, string_bytes};
    ghost use Rattle.osm_element.specs.Tags.{Tag};
    ghost use Rattle.osm_element.specs.TagLists.{list_at, IsPlace};

    ghost Value = { List (List Tag) };

    ghost view = { λ l. map (list_at l.ends.items (string_bytes l.text)) l.places.items };

    ghost invariant = { λ l. All (IsPlace l.ends.items (string_bytes l.text)) l.places.items };
}

impl TagLists {
    /// No lists, with room for so many.
    pub fn with_room(alloc: Global, count: usize) -> Result<TagLists, Memory>
        ensures { IfOk result (λ lists. lists ≡ []) }
    {
        Ok(TagLists {
            text: String::new(alloc),
            ends: Vec::new(alloc),
            places: Vec::with_capacity(alloc, count)?,
        })
    }

    /// Puts a copy of these tags behind the others, and tells which list it is.
    pub fn push(&mut self, tags: &TagList<'_>) -> Result<usize, Memory>
        ensures index { IfOk result (λ index. index ≡ length self.old) }
        ensures lists { IfOk result (λ _. self.new ≡ self.old ++ tags.now ∷ []) }
    {
        let (text, ends) = tags.parts();
        let index = self.places.len();
        self.push_parts(text, ends)?;
        Ok(index)
    }

    fn push_parts(&mut self, text: &str, ends: &[Ends]) -> Result<(), Memory>
        requires { AreEnds 0 ends.now text.now }
        ensures { IfOk result (λ _. self.new ≡ self.old ++ cut 0 ends.now text.now ∷ []) }
    {
        let text_from = self.text.len();
        let ends_from = self.ends.len();
        self.text.push_str(text)?;
        self.ends.extend_from_slice(ends)?;
        self.places.push(Place {
            text_from,
            text_to: self.text.len(),
            ends_from,
            ends_to: self.ends.len(),
        })?;
        Ok(())
    }

    /// The tags of one version.
    pub fn list(&self, index: usize) -> TagList<'_>
        requires { index < length self.now }
        ensures { result ≡ get_or self.now index [] }
    {
        let place = self.places[index];
        TagList::of(
            &self.text[place.text_from..place.text_to],
            &self.ends[place.ends_from..place.ends_to],
        )
    }
}
