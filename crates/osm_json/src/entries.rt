//! The members of an object with their texts, kept in one text.
ghost use Rattle.std.specs.Prelude.{◌≡◌, ◌<◌, [], ◌∷◌, ◌++◌, length, get_or, slice_range, None, IfOk};
ghost use Rattle.osm_json.specs.Found.{text_in};
ghost use Rattle.osm_json.specs.Entries.{entry_at, IsPlace, name_cmp, name_at as name_of, AreInOrder, is_last, gather};

use osm_base::Memory;
use std::alloc::Global;
use std::cmp::Ordering;
use std::marker::Model;

/// How many entries, and how many bytes, there is room for from the start: most objects have no more.
const USUAL_COUNT: usize = 8;

const USUAL_BYTES: usize = 128;

/// Where a name begins, where it ends and its text begins, and where that ends.
#[derive(Clone, Copy, Drop)]
pub(crate) struct Place {
    start: u32,
    middle: u32,
    end: u32,
    /// Whether the name has a text. Another value leaves none here.
    is_text: bool,
}

/// Names with their texts, one after the other as they came: a name may come often, in any order.
#[derive(Drop)]
pub(crate) struct Entries {
    text: String,
    places: Vec<Place>,
}

impl Model for Entries {
    ghost use Rattle.std.specs.Prelude.{List, map, string_bytes};
    ghost use Rattle.std.specs.List.{All};
    ghost use Rattle.osm_json.specs.Entries.{Entry, entry_at, IsPlace};

    ghost Value = { List Entry };

    ghost view = { λ a. map (entry_at (string_bytes a.text)) a.places.items };

    ghost invariant = { λ a. All (IsPlace (string_bytes a.text)) a.places.items };
}

impl Entries {
    /// No entries, with room for a few.
    pub(crate) fn new(alloc: Global) -> Result<Entries, Memory>
        ensures { IfOk result (λ es. es ≡ []) }
    {
        Ok(Entries {
            text: String::with_capacity(alloc, USUAL_BYTES)?,
            places: Vec::with_capacity(alloc, USUAL_COUNT)?,
        })
    }

    /// The entries and one more.
    pub(crate) fn with(self, name: &str, text: Option<&str>) -> Result<Entries, Memory>
        ensures { IfOk result (λ es. es ≡ self ++ (name.now, text_in text.entry) ∷ []) }
    {
        let Entries {
            text: mut all,
            mut places,
        } = self;
        let start = all.len();
        all.push_str(name)?;
        let middle = all.len();
        all.push_str(text.unwrap_or(""))?;
        let end = all.len();
        if end > u32::MAX as usize {
            return Err(Memory);
        }
        places.push(Place {
            start: start as u32,
            middle: middle as u32,
            end: end as u32,
            is_text: text.is_some(),
        })?;
        Ok(Entries { text: all, places })
    }

    /// The same in the order of their names, those of one name as they came.
    pub(crate) fn sorted(self) -> Result<Entries, Memory>
        ensures same { IfOk result (λ es. gather [] es ≡ gather [] self) }
        ensures order { IfOk result (λ es. AreInOrder es) }
    {
        let Entries { text, mut places } = self;
        let all = text.as_str();
        places.sort_by(|a, b| by_name(all, a, b))?;
        Ok(Entries { text, places })
    }

    pub(crate) fn len(&self) -> usize
        ensures { result ≡ length self.now }
    {
        self.places.len()
    }

    /// How many bytes all names and texts take.
    pub(crate) fn byte_count(&self) -> usize {
        self.text.len()
    }

    fn name(&self, index: usize) -> &str
        requires { index < length self.now }
        ensures { result.now ≡ name_of self.now index }
    {
        name_at(self.text.as_str(), &self.places[index])
    }

    /// A name and its text, where it has one.
    pub(crate) fn entry(&self, index: usize) -> (&str, Option<&str>)
        requires { index < length self.now }
        ensures { (result.0.now, text_in result.1) ≡ get_or self.now index ([], None) }
    {
        entry_of(self.text.as_str(), &self.places[index])
    }

    /// Whether no entry of that name follows, where the names are in order.
    pub(crate) fn is_last(&self, index: usize) -> bool
        requires { index < length self.now }
        ensures { result ≡ is_last self.now index }
    {
        let count = self.len();
        let next = index + 1;
        next == count || self.name(index) < self.name(next)
    }
}

fn name_at<'a>(text: &'a str, place: &Place) -> &'a str
    requires { IsPlace text.now place.now }
    ensures { result.now ≡ (entry_at text.now place.now).0 }
{
    &text[place.start as usize..place.middle as usize]
}

fn entry_of<'a>(text: &'a str, place: &Place) -> (&'a str, Option<&'a str>)
    requires { IsPlace text.now place.now }
    ensures { (result.0.now, text_in result.1) ≡ entry_at text.now place.now }
{
    let value = &text[place.middle as usize..place.end as usize];
    let found = if place.is_text { Some(value) } else { None };
    (name_at(text, place), found)
}

/// The bytes of a name, at any place.
fn name_bytes<'a>(text: &'a str, place: &Place) -> &'a [u8]
    ensures { result.now ≡ slice_range text.now place.now.start place.now.middle }
{
    let bytes = text.as_bytes();
    let end = bytes.len().min(place.middle as usize);
    let start = end.min(place.start as usize);
    &bytes[start..end]
}

fn by_name(text: &str, place: &Place, other: &Place) -> Ordering
    ensures { result ≡ name_cmp (slice_range text.now place.now.start place.now.middle) (slice_range text.now other.now.start other.now.middle) }
{
    name_bytes(text, place).cmp(&name_bytes(text, other))
}
