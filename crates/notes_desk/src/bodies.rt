//! What the body of a call on notes asks.
ghost use Rattle.std.specs.Prelude.{◌≡◌, true, length, IfErr};
ghost use Rattle.std.specs.Option.{option_map, option_copied};
ghost use Rattle.std.specs.Str.{chars};
ghost use Rattle.serde_json.specs.View.{view};
ghost use Rattle.osm_base.specs.Place.{is_position};
ghost use Rattle.osm_json.specs.Reading.{Gives as GivesBody, data_of, needed, integer_of};
ghost use Rattle.desk_parts.specs.Faults.{Gives, HasShownFault};
ghost use Rattle.notes_desk.specs.Bodies.{Reads, is_fit, text_of, text_in, last_text_in, opening_of, opening_in, position_of, open_in, command_of};

use crate::calls::NoteEdit;
use crate::limits::NOTE_TEXT_LIMIT;
use desk_parts::RequestFault;
use notes_core::NoteCommand;
use osm_base::{Coord, Text, is_on_globe};
use osm_change::Refusal;
use osm_element::LocalFault;
use osm_json::BodyFault;
use serde_json::Value;
use std::alloc::Global;

/// The data of a body.
#[tactic(auto, using(crate::proofs::Read::given, crate::proofs::Read::ungiven))]
fn data_of(alloc: Global, body: &[u8]) -> Result<Value, BodyFault>
    ensures { Reads result (data_of body.now) }
{
    match Value::from_slice(alloc, body) {
        Ok(value) => Ok(value),
        Err(error) => if error.is_memory() {
            Err(BodyFault::Memory)
        } else {
            Err(BodyFault::NotJson)
        },
    }
}

/// A character is one Unicode scalar value.
fn character_count(text: &str) -> usize
    ensures { result ≡ length (chars text.now) }
{
    text.chars().count()
}

/// Whether a text has so many characters at least, and no more than any text of a note.
fn is_fit(text: &str, least: usize) -> bool
    ensures { result ≡ is_fit least text.now }
{
    let count = character_count(text);
    least <= count && count <= NOTE_TEXT_LIMIT
}

/// The member that is a text of so many characters at least.
fn text_of(value: &Value, least: usize) -> Option<&str>
    ensures { option_copied result ≡ text_of least (view value.now) }
{
    let text = value.get("text")?.as_str()?;
    if is_fit(text, least) {
        Some(text)
    } else {
        None
    }
}

#[tactic(auto, using(crate::proofs::Read::missing, crate::proofs::Read::present, crate::proofs::Read::malformed))]
fn text_in(alloc: Global, body: &[u8], least: usize) -> Result<Text, BodyFault>
    ensures { GivesBody (λ t. t) result (text_in least body.now) }
{
    let value = data_of(alloc, body)?;
    match text_of(&value, least) {
        Some(text) => Ok(Text::of(alloc, text)?),
        None => Err(BodyFault::Shape { op: 0 }),
    }
}

/// The text of a closing, which may be empty, as the body may.
fn last_text_in(alloc: Global, body: &[u8]) -> Result<Text, BodyFault>
    ensures { GivesBody (λ t. t) result (last_text_in body.now) }
{
    if body.is_empty() {
        Ok(Text::of(alloc, "")?)
    } else {
        text_in(alloc, body, 0)
    }
}

/// A member that is a whole number.
fn integer_in(value: &Value, name: &str) -> Option<i64>
    ensures { result ≡ needed name.now integer_of (view value.now) }
{
    value.get(name)?.as_i64()
}

/// The latitude, the longitude and the text that open a note.
fn opening_of(value: &Value) -> Option<(i64, i64, &str)>
    ensures { option_map (λ parts. (parts.0, parts.1, parts.2.now)) result ≡ opening_of (view value.now) }
{
    let lat7 = integer_in(value, "lat7")?;
    let lon7 = integer_in(value, "lon7")?;
    let text = text_of(value, 1)?;
    Some((lat7, lon7, text))
}

#[tactic(auto, using(crate::proofs::Read::missing, crate::proofs::Read::present, crate::proofs::Read::malformed))]
fn opening_in(alloc: Global, body: &[u8]) -> Result<(i64, i64, Text), BodyFault>
    ensures { GivesBody (λ parts. parts) result (opening_in body.now) }
{
    let value = data_of(alloc, body)?;
    match opening_of(&value) {
        Some((lat7, lon7, text)) => Ok((lat7, lon7, Text::of(alloc, text)?)),
        None => Err(BodyFault::Shape { op: 0 }),
    }
}

fn position(lat7: i64, lon7: i64) -> Coord
    requires { is_position lat7 lon7 ≡ true }
    ensures { result ≡ record { lat7 = lat7; lon7 = lon7 } }
{
    Coord::new(lat7 as i32, lon7 as i32).unwrap()
}

/// The position of a latitude and a longitude, where they lie on the globe.
fn position_of(lat7: i64, lon7: i64) -> Result<Coord, RequestFault>
    ensures gives { Gives (λ at. at) (position_of lat7 lon7) result }
    ensures shown { IfErr result HasShownFault }
{
    if is_on_globe(lat7, lon7) {
        Ok(position(lat7, lon7))
    } else {
        Err(RequestFault::Refused(Refusal::Local {
            fault: LocalFault::Position,
            op: Some(0),
        }))
    }
}

/// The command that opens a note.
#[tactic(auto, unfolding(crate::specs::Bodies::open_in))]
fn open_in(alloc: Global, body: &[u8]) -> Result<NoteCommand, RequestFault>
    ensures gives { Gives (λ c. c) (open_in body.now) result }
    ensures shown { IfErr result HasShownFault }
{
    let (lat7, lon7, text) = opening_in(alloc, body)?;
    let at = position_of(lat7, lon7)?;
    Ok(NoteCommand::OpenNote { at, text })
}

/// The command that a call and its body ask for. A text has 1 to 2,000 characters; that of a closing
/// may be empty.
pub fn command_of(alloc: Global, edit: NoteEdit, body: &[u8]) -> Result<NoteCommand, RequestFault>
    ensures gives { Gives (λ c. c) (command_of edit body.now) result }
    ensures shown { IfErr result HasShownFault }
{
    match edit {
        NoteEdit::Open => open_in(alloc, body),
        NoteEdit::Comment { id } => Ok(NoteCommand::Comment {
            id,
            text: text_in(alloc, body, 1)?,
        }),
        NoteEdit::Close { id } => Ok(NoteCommand::CloseNote {
            id,
            text: last_text_in(alloc, body)?,
        }),
        NoteEdit::Reopen { id } => Ok(NoteCommand::Reopen {
            id,
            text: text_in(alloc, body, 1)?,
        }),
    }
}
