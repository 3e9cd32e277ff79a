//! Boxes as texts, of four decimal numbers of degrees.
ghost use Rattle.std.specs.Prelude.{◌≡◌, ◌≤◌, true, min};
ghost use Rattle.std.specs.Option.{option_map};
ghost use Rattle.std.specs.List.{list_all, before_first, after_first};
ghost use Rattle.std.specs.Char.{is_ascii_digit};
ghost use Rattle.std.specs.Str.Parse.{digits_value_after};
ghost use Rattle.osm_base.specs.Parts.{parts_of};
ghost use Rattle.osm_base.specs.Decimal.{comma, is_point, is_negative, without_sign, units_of};
ghost use Rattle.osm_base.specs.Decimal.{capped_decimal, area_of_edges, area_of, four_of};

use crate::box_faults::BoxFault;
use crate::numbers::are_digits;
use crate::parts::split_once;
use crate::places::Box7;

/// How many digits behind the point count: a unit is 1e-7 degrees.
const PLACES: usize = 7;

/// More units than any edge of a box has. A larger number counts as this one.
const UNIT_CAP: u64 = 2_000_000_000;

/// The four parts of a box's text.
#[derive(Clone, Copy)]
struct Edges<'a> {
    left: &'a [u8],
    bottom: &'a [u8],
    right: &'a [u8],
    top: &'a [u8],
}

impl Box7 {
    /// The box of a text `left,bottom,right,top`, in degrees. Digits past the seventh behind a
    /// point are cut off (OpenStreetMap wiki, API v0.6, "Bounding box").
    pub fn read(text: &str) -> Result<Box7, BoxFault>
        ensures { result ≡ area_of text.now }
    {
        Box7::read_bytes(text.as_bytes())
    }

    /// The same of a text whose bytes nobody looked at yet.
    pub fn read_bytes(text: &[u8]) -> Result<Box7, BoxFault>
        ensures { result ≡ area_of text.now }
    {
        match edges_of(text) {
            Some(edges) => between(
                units_of(edges.left),
                units_of(edges.bottom),
                units_of(edges.right),
                units_of(edges.top),
            ),
            None => Err(BoxFault::NotFour),
        }
    }
}

fn between(
    left: Option<i32>,
    bottom: Option<i32>,
    right: Option<i32>,
    top: Option<i32>,
) -> Result<Box7, BoxFault>
    ensures { result ≡ area_of_edges left bottom right top }
{
    match (left, bottom, right, top) {
        (Some(left), Some(bottom), Some(right), Some(top)) => Box7::new(left, bottom, right, top),
        _ => Err(BoxFault::NotDecimal),
    }
}

fn edges_of(text: &[u8]) -> Option<Edges<'_>>
    ensures { option_map (λ edges. record {
      left = edges.left.now;
      bottom = edges.bottom.now;
      right = edges.right.now;
      top = edges.top.now;
    }) result ≡ four_of (parts_of comma text.now) }
{
    let (left, rest) = split_once(text, b',')?;
    let (bottom, rest) = split_once(rest, b',')?;
    let (right, top) = split_once(rest, b',')?;
    match split_once(top, b',') {
        None => Some(Edges {
            left,
            bottom,
            right,
            top,
        }),
        Some(_) => None,
    }
}

/// The number of a text in units of 1e-7 degrees, but no further from 0 than the cap.
fn units_of(text: &[u8]) -> Option<i32>
    ensures { result ≡ capped_decimal text.now }
{
    let (whole, fraction) = around_point(without_sign(text));
    if whole.is_empty() && fraction.is_empty() || !are_digits(whole) || !are_digits(fraction) {
        return None;
    }
    let units = magnitude(whole, fraction) as i32;
    if is_negative(text) {
        Some(-units)
    } else {
        Some(units)
    }
}

fn is_negative(text: &[u8]) -> bool
    ensures { result ≡ is_negative text.now }
{
    match text {
        [first, ..] => *first == b'-',
        [] => false,
    }
}

fn without_sign(text: &[u8]) -> &[u8]
    ensures { result.now ≡ without_sign text.now }
{
    match text {
        [b'+' | b'-', rest @ ..] => rest,
        _ => text,
    }
}

/// What stands before the point and behind it; without one the whole number stands before it.
fn around_point(number: &[u8]) -> (&[u8], &[u8])
    ensures whole { result.0.now ≡ before_first is_point number.now }
    ensures fraction { result.1.now ≡ after_first is_point number.now }
{
    split_once(number, b'.').unwrap_or((number, &number[number.len()..]))
}

fn magnitude(whole: &[u8], fraction: &[u8]) -> u64
    requires whole { list_all is_ascii_digit whole.now ≡ true }
    requires fraction { list_all is_ascii_digit fraction.now ≡ true }
    ensures { result ≡ min (units_of whole.now fraction.now) UNIT_CAP }
{
    let kept = &fraction[..fraction.len().min(PLACES)];
    let zeros: &[u8] = b"0000000";
    let zeros = &zeros[kept.len()..];
    let units = with_digits(0, whole);
    let units = with_digits(units, kept);
    with_digits(units, zeros)
}

/// The number with these digits behind it, or the cap, if that is less.
fn with_digits(number: u64, digits: &[u8]) -> u64
    requires digits { list_all is_ascii_digit digits.now ≡ true }
    requires capped { number ≤ UNIT_CAP }
    ensures { result ≡ min (digits_value_after 10 number digits.now) UNIT_CAP }
{
    let mut number = number;
    for digit in digits {
        number = (number * 10 + u64::from(*digit - b'0')).min(UNIT_CAP);
    }
    number
}
