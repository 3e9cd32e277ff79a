//! Values that are read at one look, and the beginning of others.
ghost use Rattle.std.specs.Prelude.{◌≡◌, ◌<◌, length, option_map, OnOk};
ghost use Rattle.json.specs.Token.{begin_array, begin_object};
ghost use Rattle.serde_json.specs.Find.{as_number, as_i64, as_u64, as_str, as_bool, as_array, as_object};
ghost use Rattle.osm_json.specs.Again.{natural_of};
ghost use Rattle.osm_json.specs.Reading.{◌>>=◌ as bind, integer_of, id_of, count_of, kind_of};
ghost use Rattle.osm_json.specs.Pull.{next_data, Pulled, Enters};
ghost use Rattle.osm_json.specs.Scalars.{scalar_view, flat};

use crate::fault::ReadFault;
use crate::figure::{Figure, read_figure};
use crate::pass::{first_token, pass_rest};
use json::{Reader, Token};
use osm_base::Kind;

/// How deep arrays and objects may nest, as `serde_json` lets them.
pub(crate) const DEPTH_LIMIT: usize = 127;

/// A value, of which what an array or an object contains was passed.
#[derive(Clone, Copy, Drop)]
pub(crate) enum Scalar<'a> {
    Null,
    Flag(bool),
    Number(Figure),
    Text(&'a str),
    List,
    Record,
}

/// The next value.
fn next_scalar<'a>(reader: &mut Reader<'a>, depth: usize) -> Result<Scalar<'a>, ReadFault>
    ensures value { Pulled scalar_view flat result (next_data depth reader.old) reader.new }
    ensures shorter { OnOk result (length reader.new < length reader.old) }
{
    let first = first_token(reader)?;
    match first {
        Token::Null => Ok(Scalar::Null),
        Token::Bool(flag) => Ok(Scalar::Flag(flag)),
        Token::Number(text) => match read_figure(text) {
            Some(figure) => Ok(Scalar::Number(figure)),
            None => Err(ReadFault::NotJson),
        },
        Token::String(text) => Ok(Scalar::Text(text)),
        Token::BeginArray => {
            pass_rest(reader, depth, Token::BeginArray)?;
            Ok(Scalar::List)
        }
        Token::BeginObject => {
            pass_rest(reader, depth, Token::BeginObject)?;
            Ok(Scalar::Record)
        }
        Token::EndObject | Token::EndArray | Token::Key(_) | Token::Bad => Err(ReadFault::NotJson),
    }
}

/// Enters the array that is next, and gives how deep its items may nest. Another value is passed.
pub(crate) fn enter_array(reader: &mut Reader<'_>, depth: usize) -> Result<Option<usize>, ReadFault>
    ensures value { Enters begin_array as_array result depth reader.old reader.new }
    ensures shorter { OnOk result (length reader.new < length reader.old) }
{
    let first = first_token(reader)?;
    match first {
        Token::BeginArray => if depth == 0 {
            Err(ReadFault::NotJson)
        } else {
            Ok(Some(depth - 1))
        },
        _ => {
            pass_rest(reader, depth, first)?;
            Ok(None)
        }
    }
}

/// Enters the object that is next, and gives how deep its members may nest. Another value is
/// passed.
pub(crate) fn enter_object(
    reader: &mut Reader<'_>,
    depth: usize,
) -> Result<Option<usize>, ReadFault>
    ensures value { Enters begin_object as_object result depth reader.old reader.new }
    ensures shorter { OnOk result (length reader.new < length reader.old) }
{
    let first = first_token(reader)?;
    match first {
        Token::BeginObject => if depth == 0 {
            Err(ReadFault::NotJson)
        } else {
            Ok(Some(depth - 1))
        },
        _ => {
            pass_rest(reader, depth, first)?;
            Ok(None)
        }
    }
}

/// A whole number that fits 64 bits with a sign.
fn integer(value: Scalar<'_>) -> Option<i64>
    ensures { result ≡ integer_of (scalar_view value.entry) }
{
    match value {
        Scalar::Number(Figure::Natural(number)) if number <= i64::MAX as u64 => Some(number as i64),
        Scalar::Number(Figure::Negative(number)) => Some(number),
        _ => None,
    }
}

/// A whole number that fits 64 bits without a sign.
fn natural(value: Scalar<'_>) -> Option<u64>
    ensures { result ≡ bind (as_number (scalar_view value.entry)) as_u64 }
{
    match value {
        Scalar::Number(Figure::Natural(number)) => Some(number),
        _ => None,
    }
}

/// The number of an element, or its placeholder.
fn id(value: Scalar<'_>) -> Option<i64>
    ensures { result ≡ id_of (scalar_view value.entry) }
{
    let number = integer(value)?;
    let size = number.unsigned_abs();
    if 0 < size && size < 1 << 63 {
        Some(number)
    } else {
        None
    }
}

/// A version or a changeset.
fn count(value: Scalar<'_>) -> Option<u64>
    ensures { result ≡ count_of (scalar_view value.entry) }
{
    let number = natural(value)?;
    if 0 < number && number < 1 << 63 {
        Some(number)
    } else {
        None
    }
}

fn text<'a>(value: Scalar<'a>) -> Option<&'a str>
    ensures { option_map (λ t. t.now) result ≡ as_str (scalar_view value.entry) }
{
    match value {
        Scalar::Text(text) => Some(text),
        _ => None,
    }
}

fn flag(value: Scalar<'_>) -> Option<bool>
    ensures { result ≡ as_bool (scalar_view value.entry) }
{
    match value {
        Scalar::Flag(flag) => Some(flag),
        _ => None,
    }
}

fn kind(value: Scalar<'_>) -> Option<Kind>
    ensures { result ≡ kind_of (scalar_view value.entry) }
{
    let name = text(value)?;
    if name == "node" {
        Some(Kind::Node)
    } else if name == "way" {
        Some(Kind::Way)
    } else if name == "relation" {
        Some(Kind::Relation)
    } else {
        None
    }
}

// The next value, read.

pub(crate) fn next_integer(reader: &mut Reader<'_>, depth: usize) -> Result<Option<i64>, ReadFault>
    ensures value { Pulled (λ x. x) integer_of result (next_data depth reader.old) reader.new }
    ensures shorter { OnOk result (length reader.new < length reader.old) }
{
    let value = next_scalar(reader, depth)?;
    Ok(integer(value))
}

pub(crate) fn next_natural(reader: &mut Reader<'_>, depth: usize) -> Result<Option<u64>, ReadFault>
    ensures value { Pulled (λ x. x) natural_of result (next_data depth reader.old) reader.new }
    ensures shorter { OnOk result (length reader.new < length reader.old) }
{
    let value = next_scalar(reader, depth)?;
    Ok(natural(value))
}

pub(crate) fn next_id(reader: &mut Reader<'_>, depth: usize) -> Result<Option<i64>, ReadFault>
    ensures value { Pulled (λ x. x) id_of result (next_data depth reader.old) reader.new }
    ensures shorter { OnOk result (length reader.new < length reader.old) }
{
    let value = next_scalar(reader, depth)?;
    Ok(id(value))
}

pub(crate) fn next_count(reader: &mut Reader<'_>, depth: usize) -> Result<Option<u64>, ReadFault>
    ensures value { Pulled (λ x. x) count_of result (next_data depth reader.old) reader.new }
    ensures shorter { OnOk result (length reader.new < length reader.old) }
{
    let value = next_scalar(reader, depth)?;
    Ok(count(value))
}

pub(crate) fn next_text<'a>(
    reader: &mut Reader<'a>,
    depth: usize,
) -> Result<Option<&'a str>, ReadFault>
    ensures value { Pulled (λ x. option_map (λ t. t.now) x) as_str result (next_data depth reader.old) reader.new }
    ensures shorter { OnOk result (length reader.new < length reader.old) }
{
    let value = next_scalar(reader, depth)?;
    Ok(text(value))
}

pub(crate) fn next_flag(reader: &mut Reader<'_>, depth: usize) -> Result<Option<bool>, ReadFault>
    ensures value { Pulled (λ x. x) as_bool result (next_data depth reader.old) reader.new }
    ensures shorter { OnOk result (length reader.new < length reader.old) }
{
    let value = next_scalar(reader, depth)?;
    Ok(flag(value))
}

pub(crate) fn next_kind(reader: &mut Reader<'_>, depth: usize) -> Result<Option<Kind>, ReadFault>
    ensures value { Pulled (λ x. x) kind_of result (next_data depth reader.old) reader.new }
    ensures shorter { OnOk result (length reader.new < length reader.old) }
{
    let value = next_scalar(reader, depth)?;
    Ok(kind(value))
}
