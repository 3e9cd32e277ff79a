//! The title of a redaction.
ghost use Rattle.std.specs.Prelude.{◌≡◌, ◌<◌, ◌≤◌, [], length, codes, Some, option_map, if◌then◌else◌, OnOk};
ghost use Rattle.std.specs.Str.{bytes_eq, chars};
ghost use Rattle.serde_json.specs.Find.{get, get_member, as_str};
ghost use Rattle.serde_json.specs.Read.{read};
ghost use Rattle.osm_json.specs.Reading.{Gives, or_shape, in_json, title_of, title_in, is_title};
ghost use Rattle.osm_json.specs.Found.{text_in, title_in_members};
ghost use Rattle.osm_json.specs.Pull.{next_data, next_members, ended, Pulled};

use crate::fault::{BodyFault, ReadFault};
use crate::pass::pass_value;
use crate::scalar::{DEPTH_LIMIT, enter_object, next_text};
use json::{Reader, Scratch};
use osm_base::{CHARACTER_LIMIT, Text};
use std::alloc::Global;

/// A character is one Unicode scalar value.
fn character_count(text: &str) -> usize
    ensures { result ≡ length (chars text.now) }
{
    text.chars().count()
}

fn has_title_length(text: &str) -> bool
    ensures { result ≡ is_title text.now }
{
    let count = character_count(text);
    0 < count && count <= CHARACTER_LIMIT
}

fn title_member<'a>(
    reader: &mut Reader<'a>,
    depth: usize,
    key: &str,
    found: &mut Option<Option<&'a str>>,
) -> Result<(), ReadFault>
    ensures value { Pulled (λ _. option_map text_in found.new)
        (λ d. if bytes_eq key.now (codes "title") then Some (as_str d) else option_map text_in found.old) result (next_data depth reader.old) reader.new }
    ensures shorter { OnOk result (length reader.new < length reader.old) }
{
    if key == "title" {
        let text = next_text(reader, depth)?;
        *found = Some(text);
        Ok(())
    } else {
        pass_value(reader, depth)
    }
}

fn title_members<'a>(
    reader: &mut Reader<'a>,
    depth: usize,
) -> Result<Option<Option<&'a str>>, ReadFault>
    ensures value { Pulled (λ o. option_map text_in o)
        (λ ms. option_map as_str (get_member (codes "title") ms)) result (next_members depth reader.old) reader.new }
    ensures shorter { OnOk result (length reader.new ≤ length reader.old) }
{
    let mut found = None;
    while let Some(key) = reader.next_key()? {
        title_member(reader, depth, key, &mut found)?;
    }
    Ok(found)
}

fn title_value<'a>(reader: &mut Reader<'a>) -> Result<Option<Option<&'a str>>, ReadFault>
    ensures { Pulled (λ o. option_map text_in o) (λ d. option_map as_str (get (codes "title") d)) result (next_data 127 reader.old) reader.new }
{
    match enter_object(reader, DEPTH_LIMIT)? {
        Some(within) => title_members(reader, within),
        None => Ok(None),
    }
}

fn title_text<'a>(reader: &mut Reader<'a>) -> Result<Option<Option<&'a str>>, ReadFault>
    ensures { Pulled (λ o. option_map text_in o) (λ d. option_map as_str (get (codes "title") d)) result (ended (next_data 127 reader.old)) [] }
{
    let found = title_value(reader)?;
    match reader.next() {
        None => Ok(found),
        Some(_) => Err(ReadFault::NotJson),
    }
}

fn title<'a>(found: Option<Option<&'a str>>) -> Option<&'a str>
    ensures { option_map (λ t. t.now) result ≡ title_in_members (option_map text_in found.entry) }
{
    let text = found??;
    if has_title_length(text) {
        Some(text)
    } else {
        None
    }
}

fn read_title_text(alloc: Global, text: &str) -> Result<Text, BodyFault>
    ensures { Gives (λ t. t) result (in_json (λ d. or_shape 0 (title_of d)) (read text.now)) }
{
    let mut scratch = Scratch::new(alloc);
    let mut reader = Reader::new(text, &mut scratch)?;
    match title_text(&mut reader) {
        Ok(found) => match title(found) {
            Some(text) => Ok(Text::of(alloc, text)?),
            None => Err(BodyFault::Shape { op: 0 }),
        },
        Err(ReadFault::NotJson) => Err(BodyFault::NotJson),
        Err(ReadFault::Memory) => Err(BodyFault::Memory),
    }
}

/// The title of a redaction that is to be made: 1 to 255 characters.
pub fn read_title(alloc: Global, body: &[u8]) -> Result<Text, BodyFault>
    ensures { Gives (λ t. t) result (title_in body.now) }
{
    match simdutf8::compat::from_utf8(body) {
        Ok(text) => read_title_text(alloc, text),
        Err(_) => Err(BodyFault::NotJson),
    }
}
