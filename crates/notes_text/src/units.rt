//! Coordinates of a line, in units of 1e-7 degrees.
//!
//! Whether a number is written as it would be again is told by the entry's own line, so zeros may
//! lead here.
ghost use Rattle.std.specs.Prelude.{◌≡◌, ◌<◌, ◌^◌, IfSome, List, option_map, pos, neg_ℤ};
ghost use Rattle.json.specs.Token.{Token};
ghost use Rattle.json_line.specs.Heard.{Hears};
ghost use Rattle.notes_text.specs.Read.{short_of, units_of, placed};

use line_text::LineFault;
use osm_base::{Coord, whole_number};

/// The number of digits alone, below 2^31.
fn short(digits: &str) -> Option<u64>
    ensures value { result ≡ short_of digits.now }
    ensures bound { IfSome result (λ n. n < 2 ^ 31) }
{
    let number = whole_number(digits)?;
    if number <= i32::MAX as u64 {
        Some(number)
    } else {
        None
    }
}

fn positive(digits: &str) -> Option<i32>
    ensures { result ≡ option_map pos (short_of digits.now) }
{
    let number = short(digits)?;
    Some(number as i32)
}

fn negative(digits: &str) -> Option<i32>
    ensures { result ≡ option_map (λ n. neg_ℤ (pos n)) (short_of digits.now) }
{
    let number = short(digits)?;
    Some(-(number as i32))
}

/// A number of 31 bits, negative behind `-`.
pub(crate) fn read_units(text: &str) -> Option<i32>
    ensures { result ≡ units_of text.now }
{
    match text.strip_prefix('-') {
        Some(digits) => negative(digits),
        None => positive(text),
    }
}

/// The position of a latitude and a longitude.
pub(crate) fn place(lat7: i32, lon7: i32) -> Result<Coord, LineFault>
    ensures { (ts : List Token) → Hears (λ c. c) result (placed lat7 lon7 ts) ts }
{
    match Coord::new(lat7, lon7) {
        Some(at) => Ok(at),
        None => Err(LineFault::NotLine),
    }
}
