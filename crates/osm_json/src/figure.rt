//! The numbers of a body (RFC 8259, section 6).
ghost use Rattle.std.specs.Prelude.{true, false, ◌≡◌, ◌<◌, ◌==◌, IsTrue, IfSome, length, option_map, slice_index};
ghost use Rattle.fast_float.specs.Text.{minus, scan};
ghost use Rattle.serde_json.specs.Read.{number_of, number_from, float_of};
ghost use Rattle.osm_json.specs.Scalars.{figure_view, IsPlain};

use fast_float::Numeral;

/// A number: a whole one where 64 bits hold it, and else the nearest float.
#[derive(Clone, Copy, Drop)]
pub(crate) enum Figure {
    Natural(u64),
    /// Below 0.
    Negative(i64),
    Float(f64),
}

fn begins_with_minus(text: &[u8]) -> bool
    ensures value { result ≡ (slice_index text.now 0 == minus) }
    ensures there { IsTrue result → 0 < length text.now }
{
    !text.is_empty() && text[0] == b'-'
}

/// No number of this size or above gets a further digit from `plain`.
const LARGE: u64 = 100_000_000_000_000_000;

/// The number that digits write. None where it is large, and where there are no digits or other
/// bytes among them.
fn plain(digits: &[u8]) -> Option<u64>
    ensures { IfSome result (IsPlain digits.now) }
{
    let mut number: u64 = 0;
    for digit in digits {
        if *digit < b'0' || *digit > b'9' || number >= LARGE {
            return None;
        }
        number = number * 10 + (*digit - b'0') as u64;
    }
    if digits.is_empty() {
        None
    } else {
        Some(number)
    }
}

/// The number that a text is. None where a float can't hold it.
pub(crate) fn read_figure(text: &str) -> Option<Figure>
    ensures { option_map figure_view result ≡ number_of text.now }
{
    let digits = text.as_bytes();
    if begins_with_minus(digits) {
        below_zero(&digits[1..])
    } else {
        from_zero(digits)
    }
}

fn from_zero(digits: &[u8]) -> Option<Figure>
    ensures { option_map figure_view result ≡ number_from false (scan digits.now) }
{
    match plain(digits) {
        Some(number) => Some(Figure::Natural(number)),
        None => from_numeral(&Numeral::scan(digits)),
    }
}

/// `-0` is a float.
fn below_zero(digits: &[u8]) -> Option<Figure>
    ensures { option_map figure_view result ≡ number_from true (scan digits.now) }
{
    match plain(digits) {
        Some(number) if number > 0 => Some(Figure::Negative(-(number as i64))),
        _ => negative_numeral(&Numeral::scan(digits)),
    }
}

fn from_numeral(numeral: &Numeral<'_>) -> Option<Figure>
    ensures { option_map figure_view result ≡ number_from false numeral.now }
{
    match numeral.to_u64() {
        Some(number) => Some(Figure::Natural(number)),
        None => nearest(numeral, false),
    }
}

fn negative_numeral(numeral: &Numeral<'_>) -> Option<Figure>
    ensures { option_map figure_view result ≡ number_from true numeral.now }
{
    match numeral.to_i64(true) {
        Some(number) if number < 0 => Some(Figure::Negative(number)),
        _ => nearest(numeral, true),
    }
}

fn nearest(numeral: &Numeral<'_>, negative: bool) -> Option<Figure>
    ensures { option_map figure_view result ≡ float_of negative numeral.now }
{
    let float = numeral.to_float::<f64>(negative);
    if float.is_finite() {
        Some(Figure::Float(float))
    } else {
        None
    }
}
