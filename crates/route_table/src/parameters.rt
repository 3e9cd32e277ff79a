//! The parameters of a query.
//!
//! A box is read from bytes, so a value that is no text is no box. Digits past the seventh are cut
//! off and not rounded.
//!
//! The moment is a number as in a path, so 0 is none; what a clock at 0 made is read by 1.
ghost use Rattle.std.specs.Prelude.{◌≡◌, IfOk, Some};
ghost use Rattle.std.specs.Option.{option_copied, option_map};
ghost use Rattle.std.specs.List.{find, before_first, after_first};
ghost use Rattle.std.specs.Cow.{cow_slice_items};
ghost use Rattle.osm_base.specs.Number.{number_of};
ghost use Rattle.osm_base.specs.Parts.{parts_of};
ghost use Rattle.route_table.specs.Parameters.{ampersand, is_equals, is_named, name_of, value_of};
ghost use Rattle.route_table.specs.Parameters.{value_if_any, parameter_of, truth_of, area_in, ids_in};
ghost use Rattle.route_table.specs.Parameters.{optional, needed, flag, IsBad};
ghost use Rattle.route_table.specs.Calls.{Gives};

use crate::faults::RouteFault;
use crate::targets::query_of;
use osm_base::{Box7, Bytes, Ids, Items, Memory, Text, path_number, split_once};
use percent_encoding::percent_decode;
use std::alloc::Global;
use std::borrow::CowSlice;

/// The value of the first part of a target's query that has a name, percent-decoded (RFC 3986,
/// sections 3.4 and 2.1). A `+` stays a `+`, and a part without `=` has an empty value.
pub fn parameter(alloc: Global, target: &[u8], name: &[u8]) -> Result<Option<Bytes>, Memory>
    ensures { IfOk result (λ value. value ≡ parameter_of target.now name.now) }
{
    match value_if_any(alloc, query_of(target), name)? {
        Some(value) => Ok(Some(Bytes::of(alloc, value.as_slice())?)),
        None => Ok(None),
    }
}

/// The number of a parameter, where it is there.
pub fn number(alloc: Global, query: Option<&[u8]>, name: &str) -> Result<Option<u64>, RouteFault>
    ensures { Gives (optional number_of name.now (option_copied query.entry)) result }
{
    let Some(value) = value_if_any(alloc, query, name.as_bytes())? else {
        return Ok(None);
    };
    match path_number(value.as_slice()) {
        Some(number) => Ok(Some(number)),
        None => Err(bad(alloc, name)),
    }
}

/// Whether a parameter is true. A missing one isn't.
pub fn flag(alloc: Global, query: Option<&[u8]>, name: &str) -> Result<bool, RouteFault>
    ensures { Gives (flag name.now (option_copied query.entry)) result }
{
    let Some(value) = value_if_any(alloc, query, name.as_bytes())? else {
        return Ok(false);
    };
    match truth_of(value.as_slice()) {
        Some(truth) => Ok(truth),
        None => Err(bad(alloc, name)),
    }
}

/// The box of a parameter, where it is there.
pub fn area(alloc: Global, query: Option<&[u8]>, name: &str) -> Result<Option<Box7>, RouteFault>
    ensures { Gives (optional area_in name.now (option_copied query.entry)) result }
{
    let Some(value) = value_if_any(alloc, query, name.as_bytes())? else {
        return Ok(None);
    };
    match Box7::read_bytes(value.as_slice()) {
        Ok(area) => Ok(Some(area)),
        Err(_) => Err(bad(alloc, name)),
    }
}

/// The box of a parameter that has to be there.
pub fn needed_area(alloc: Global, query: Option<&[u8]>, name: &str) -> Result<Box7, RouteFault>
    ensures { Gives (needed area_in name.now (option_copied query.entry)) result }
{
    match area(alloc, query, name)? {
        Some(area) => Ok(area),
        None => Err(bad(alloc, name)),
    }
}

/// The ids of a parameter that has to be there.
pub fn needed_ids(alloc: Global, query: Option<&[u8]>, name: &str) -> Result<Ids, RouteFault>
    ensures { Gives (needed ids_in name.now (option_copied query.entry)) result }
{
    let Some(value) = value_if_any(alloc, query, name.as_bytes())? else {
        return Err(bad(alloc, name));
    };
    match ids_in(alloc, value.as_slice())? {
        Some(ids) => Ok(ids),
        None => Err(bad(alloc, name)),
    }
}

/// The fault of a parameter.
fn bad(alloc: Global, name: &str) -> RouteFault
    ensures { IsBad name.now result }
{
    match Text::of(alloc, name) {
        Ok(name) => RouteFault::BadParameter { name },
        Err(memory) => RouteFault::from(memory),
    }
}

fn truth_of(value: &[u8]) -> Option<bool>
    ensures { result ≡ truth_of value.now }
{
    if value == b"true".as_slice() {
        Some(true)
    } else if value == b"false".as_slice() {
        Some(false)
    } else {
        None
    }
}

fn ids_in(alloc: Global, value: &[u8]) -> Result<Option<Ids>, Memory>
    ensures { IfOk result (λ ids. ids ≡ ids_in value.now) }
{
    let mut ids = Vec::new(alloc);
    let mut rest = value;
    while let Some((part, behind)) = split_once(rest, b',') {
        let Some(id) = path_number(part) else {
            return Ok(None);
        };
        ids.push(id)?;
        rest = behind;
    }
    let Some(id) = path_number(rest) else {
        return Ok(None);
    };
    ids.push(id)?;
    Ok(Some(Items::of(ids)))
}

/// The value of the first part with a name. Nothing is copied that isn't percent-encoded.
fn value_if_any<'a>(
    alloc: Global,
    query: Option<&'a [u8]>,
    name: &[u8],
) -> Result<Option<CowSlice<'a, u8>>, Memory>
    ensures { IfOk result (λ value.
        option_map cow_slice_items value ≡ value_if_any (option_copied query.entry) name.now) }
{
    let Some(query) = query else {
        return Ok(None);
    };
    match part_named(query, name) {
        Some(part) => Ok(Some(value_of(alloc, part)?)),
        None => Ok(None),
    }
}

fn part_named<'a>(query: &'a [u8], name: &[u8]) -> Option<&'a [u8]>
    ensures { option_copied result ≡ find (is_named name.now) (parts_of ampersand query.now) }
{
    query
        .split(|byte| *byte == b'&')
        .find(|part| is_named(part, name))
}

fn is_named(part: &[u8], name: &[u8]) -> bool
    ensures { result ≡ is_named name.now part.now }
{
    let mut rest = name;
    for byte in percent_decode(around_equals(part).0) {
        match rest {
            [first, behind @ ..] if *first == byte => rest = behind,
            _ => return false,
        }
    }
    rest.is_empty()
}

fn value_of<'a>(alloc: Global, part: &'a [u8]) -> Result<CowSlice<'a, u8>, Memory>
    ensures { IfOk result (λ value. cow_slice_items value ≡ value_of part.now) }
{
    let value = percent_decode(around_equals(part).1).into_cow(alloc)?;
    Ok(value)
}

/// What stands before the first `=` and behind it.
fn around_equals(part: &[u8]) -> (&[u8], &[u8])
    ensures name { result.0.now ≡ before_first is_equals part.now }
    ensures value { result.1.now ≡ after_first is_equals part.now }
{
    split_once(part, b'=').unwrap_or((part, &part[part.len()..]))
}
