//! Numbers of paths and of users texts.
ghost use Rattle.std.specs.Prelude.{◌≡◌, ◌<◌, ◌^◌, true};
ghost use Rattle.std.specs.List.{list_all};
ghost use Rattle.std.specs.Char.{is_ascii_digit};
ghost use Rattle.std.specs.Str.Parse.{digits_value};
ghost use Rattle.osm_base.specs.Number.{is_digits, checked_number, number_of, checked_limit, limit_of, is_whole, whole_of};

/// The most digits of a number in a path.
const DIGIT_LIMIT: usize = 19;

/// The number of a path or of a users text: an id or a version. Leading zeros are allowed.
pub fn path_number(text: &[u8]) -> Option<u64>
    ensures { result ≡ number_of text.now }
{
    if is_digits(text) {
        checked(value_of(text))
    } else {
        None
    }
}

/// The number of a limit in a users text, which may be 0. Leading zeros are allowed.
pub fn limit_number(text: &[u8]) -> Option<u64>
    ensures { result ≡ limit_of text.now }
{
    if is_digits(text) {
        checked_limit(value_of(text))
    } else {
        None
    }
}

/// The number of digits alone, where it fits 64 bits. Leading zeros are allowed.
pub fn whole_number(text: &str) -> Option<u64>
    ensures { result ≡ whole_of text.now }
{
    if is_whole(text.as_bytes()) {
        parsed(text)
    } else {
        None
    }
}

fn is_whole(text: &[u8]) -> bool
    ensures { result ≡ is_whole text.now }
{
    !text.is_empty() && are_digits(text)
}

fn parsed(text: &str) -> Option<u64>
    requires { is_whole text.now ≡ true }
    ensures { result ≡ whole_of text.now }
{
    match text.parse::<u64>() {
        Ok(number) => Some(number),
        Err(_) => None,
    }
}

fn is_digits(text: &[u8]) -> bool
    ensures { result ≡ is_digits text.now }
{
    !text.is_empty() && text.len() <= DIGIT_LIMIT && are_digits(text)
}

/// Whether each byte is a digit.
pub fn are_digits(text: &[u8]) -> bool
    ensures { result ≡ list_all is_ascii_digit text.now }
{
    text.iter().all(|byte| byte.is_ascii_digit())
}

fn checked(value: u64) -> Option<u64>
    ensures { result ≡ checked_number value }
{
    if 0 < value && value <= 9_223_372_036_854_775_807 {
        Some(value)
    } else {
        None
    }
}

fn checked_limit(value: u64) -> Option<u64>
    ensures { result ≡ checked_limit value }
{
    if value <= 9_223_372_036_854_775_807 {
        Some(value)
    } else {
        None
    }
}

fn value_of(text: &[u8]) -> u64
    requires digits { list_all is_ascii_digit text.now ≡ true }
    requires fits { digits_value 10 text.now < 10 ^ 19 }
    ensures { result ≡ digits_value 10 text.now }
{
    let mut value = 0u64;
    for digit in text {
        value = value * 10 + u64::from(digit - b'0');
    }
    value
}
