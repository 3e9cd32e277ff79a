//! The token of an Authorization field.
ghost use Rattle.std.specs.Prelude.{◌≡◌, ◌≤◌, IsTrue, length};
ghost use Rattle.std.specs.Option.{option_copied};
ghost use Rattle.user_table.specs.Who.{is_gap, trimmed_start, trimmed_end, trimmed, is_bearer, token_of};

/// The token of a header's value. Spaces and tabs before and after it don't count.
pub fn token_of(header: &[u8]) -> Option<&[u8]>
    ensures { option_copied result ≡ token_of header.now }
{
    let value = trimmed(header);
    if is_bearer(value) {
        Some(trimmed(&value[6..]))
    } else {
        None
    }
}

fn is_bearer(value: &[u8]) -> bool
    ensures value { result ≡ is_bearer value.now }
    ensures long { IsTrue result → 6 ≤ length value.now }
{
    value.len() > 6 && value[..6].eq_ignore_ascii_case(b"Bearer") && value[6] == b' '
}

/// The bytes without spaces and tabs at both ends.
fn trimmed(bytes: &[u8]) -> &[u8]
    ensures { result.now ≡ trimmed bytes.now }
{
    trimmed_end(trimmed_start(bytes))
}

fn trimmed_start(bytes: &[u8]) -> &[u8]
    ensures { result.now ≡ trimmed_start bytes.now }
{
    let mut rest = bytes;
    while let [b' ' | b'\t', after @ ..] = rest {
        rest = after;
    }
    rest
}

fn trimmed_end(bytes: &[u8]) -> &[u8]
    ensures { result.now ≡ trimmed_end bytes.now }
{
    let mut end = bytes.len();
    while end > 0 && is_gap(bytes[end - 1]) {
        end -= 1;
    }
    &bytes[..end]
}

fn is_gap(byte: u8) -> bool
    ensures { result ≡ is_gap byte }
{
    byte == b' ' || byte == b'\t'
}
