//! Passing over values, which are checked as `serde_json` checks them.
ghost use Rattle.std.specs.Prelude.{◌≡◌, [], ◌∷◌, ◌≤◌, ◌<◌, length, OnOk, MatchResult};
ghost use Rattle.json.specs.Reads.{token_of};
ghost use Rattle.osm_json.specs.Pull.{next_data, next_items, next_members, Passed};

use crate::fault::ReadFault;
use crate::figure::read_figure;
use json::{Invalid, Reader, Token};

/// The token that is next, where one is.
#[inline(always)]
pub(crate) fn first_token<'a>(reader: &mut Reader<'a>) -> Result<Token<'a>, Invalid>
    ensures { MatchResult result (λ t. reader.old ≡ token_of t ∷ reader.new) (λ _. reader.old ≡ []) }
{
    reader.next().ok_or(Invalid)
}

/// Passes the rest of a value whose first token was read. Arrays and objects may nest `depth` deep.
#[cycle(pass)]
pub(crate) fn pass_rest(
    reader: &mut Reader<'_>,
    depth: usize,
    first: Token<'_>,
) -> Result<(), ReadFault>
    ensures value { Passed result (next_data depth (token_of first.entry ∷ reader.old)) reader.new }
    ensures shorter { OnOk result (length reader.new ≤ length reader.old) }
{
    match first {
        Token::String(_) | Token::Bool(_) | Token::Null => Ok(()),
        Token::Number(text) => match read_figure(text) {
            Some(_) => Ok(()),
            None => Err(ReadFault::NotJson),
        },
        Token::EndObject | Token::EndArray | Token::Key(_) | Token::Bad => Err(ReadFault::NotJson),
        Token::BeginArray => if depth == 0 {
            Err(ReadFault::NotJson)
        } else {
            pass_items(reader, depth - 1)
        },
        Token::BeginObject => if depth == 0 {
            Err(ReadFault::NotJson)
        } else {
            pass_members(reader, depth - 1)
        },
    }
}

/// Passes the rest of an array.
#[cycle(pass)]
pub(crate) fn pass_items(reader: &mut Reader<'_>, depth: usize) -> Result<(), ReadFault>
    ensures value { Passed result (next_items depth reader.old) reader.new }
    ensures shorter { OnOk result (length reader.new ≤ length reader.old) }
{
    while !reader.take_end_array() {
        let first = first_token(reader)?;
        pass_rest(reader, depth, first)?;
    }
    Ok(())
}

/// Passes the rest of an object.
#[cycle(pass)]
pub(crate) fn pass_members(reader: &mut Reader<'_>, depth: usize) -> Result<(), ReadFault>
    ensures value { Passed result (next_members depth reader.old) reader.new }
    ensures shorter { OnOk result (length reader.new ≤ length reader.old) }
{
    while let Some(_) = reader.next_key()? {
        let first = first_token(reader)?;
        pass_rest(reader, depth, first)?;
    }
    Ok(())
}

/// Passes the next value.
pub(crate) fn pass_value(reader: &mut Reader<'_>, depth: usize) -> Result<(), ReadFault>
    ensures value { Passed result (next_data depth reader.old) reader.new }
    ensures shorter { OnOk result (length reader.new < length reader.old) }
{
    let first = first_token(reader)?;
    pass_rest(reader, depth, first)
}
