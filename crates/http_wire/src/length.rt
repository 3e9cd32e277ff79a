//! The length of a body, by the Content-Length fields. Numbers of any size are compared exactly.
//!
//! Numbers of Content-Length are compared exactly, whatever their size: two huge lengths that
//! differ are bad_length, two that are equal are body_long. Leading zeros are allowed.
ghost use Rattle.std.specs.Prelude.{◌≡◌, ◌+◌, map, min, length, All, IsTrue, option_map};
ghost use Rattle.std.specs.Char.{is_ascii_digit};
ghost use Rattle.std.specs.List.{list_all};
ghost use Rattle.std.specs.Str.Parse.{digits_value};
ghost use Rattle.httparse.specs.Spans.{IsHeaderWithin, header_bytes};
ghost use Rattle.http_wire.specs.Fields.{values_of};
ghost use Rattle.http_wire.specs.Length.{is_numeral, writes_number, body_length, without_zeros};

use crate::fields::{first_value, is_named};
use httparse::spans::HeaderSpan;

/// Whether a text is digits alone, at least one.
fn is_numeral(text: &[u8]) -> bool
    ensures { result ≡ is_numeral text.now }
{
    for byte in text {
        if !byte.is_ascii_digit() {
            return false;
        }
    }
    !text.is_empty()
}

/// The digits from the first that isn't 0 on.
fn without_zeros(digits: &[u8]) -> &[u8]
    ensures { result.now ≡ without_zeros digits.now }
{
    let mut rest = digits;
    'zeros: while let [b'0', behind @ ..] = rest {
        rest = behind;
    }
    rest
}

/// Whether a text is digits that write the number of these digits.
fn writes_same(text: &[u8], digits: &[u8]) -> bool
    requires { IsTrue (list_all is_ascii_digit digits.now) }
    ensures { result ≡ writes_number (digits_value 10 digits.now) text.now }
{
    is_numeral(text) && without_zeros(text) == without_zeros(digits)
}

/// The number of the digits, or the limit of a body and one, if that is less.
fn capped_number(digits: &[u8], body_limit: usize) -> u128
    requires { IsTrue (list_all is_ascii_digit digits.now) }
    ensures { result ≡ min (digits_value 10 digits.now) (body_limit + 1) }
{
    let cap = body_limit as u128 + 1;
    let mut number = 0;
    for digit in digits {
        number = (number * 10 + u128::from(*digit - b'0')).min(cap);
    }
    number
}

/// Whether each field of that name writes the number of these digits.
fn all_write_same(block: &[u8], headers: &[HeaderSpan], name: &[u8], digits: &[u8]) -> bool
    requires within { All (IsHeaderWithin (length block.now)) headers.now }
    requires digits { IsTrue (list_all is_ascii_digit digits.now) }
    ensures { result ≡ list_all (writes_number (digits_value 10 digits.now))
        (values_of name.now (map (header_bytes block.now) headers.now)) }
{
    for header in headers {
        if is_named(header.name.of(block), name) && !writes_same(header.value.of(block), digits) {
            return false;
        }
    }
    true
}

/// The length that the Content-Length fields give the body, or the limit of a body and one, if that is less.
pub fn body_length(block: &[u8], headers: &[HeaderSpan], body_limit: usize) -> Option<u128>
    requires { All (IsHeaderWithin (length block.now)) headers.now }
    ensures { result ≡ option_map (λ n. min n (body_limit + 1)) (body_length (map (header_bytes block.now) headers.now)) }
{
    let name = b"content-length";
    match first_value(block, headers, name) {
        None => Some(0),
        Some(digits) => {
            if is_numeral(digits) && all_write_same(block, headers, name, digits) {
                Some(capped_number(digits, body_limit))
            } else {
                None
            }
        }
    }
}
