//! Whether the link ends after the reply.
//!
//! Each Connection field counts, not the first alone.
ghost use Rattle.std.specs.Prelude.{◌≡◌, map, length, All};
ghost use Rattle.httparse.specs.Grammar.{is_ows, skip_ows, trim_ows};
ghost use Rattle.httparse.specs.Spans.{IsHeaderWithin, header_bytes};
ghost use Rattle.http_wire.specs.Close.{is_close, says_close, ends_link};

use crate::fields::is_named;
use httparse::spans::HeaderSpan;

fn is_ows(byte: u8) -> bool
    ensures { result ≡ is_ows byte }
{
    byte == b' ' || byte == b'\t'
}

/// The bytes from the first on that is no space and no tab.
fn skip_ows(bytes: &[u8]) -> &[u8]
    ensures { result.now ≡ skip_ows bytes.now }
{
    let mut rest = bytes;
    'spaces: while let [first, behind @ ..] = rest
        && is_ows(*first)
    {
        rest = behind;
    }
    rest
}

/// The bytes without the spaces and tabs at both ends (RFC 9110, section 5.6.3, "Whitespace").
#[tactic(auto, unfolding(httparse::specs::Grammar::trim_ows))]
pub fn trim_ows(bytes: &[u8]) -> &[u8]
    ensures { result.now ≡ trim_ows bytes.now }
{
    let mut rest = skip_ows(bytes);
    'spaces: while let [before @ .., last] = rest
        && is_ows(*last)
    {
        rest = before;
    }
    rest
}

fn is_close(part: &[u8]) -> bool
    ensures { result ≡ is_close part.now }
{
    trim_ows(part).eq_ignore_ascii_case(b"close")
}

/// Whether some part between commas is `close`.
fn says_close(value: &[u8]) -> bool
    ensures { result ≡ says_close value.now }
{
    value.split(|byte| *byte == b',').any(|part| is_close(part))
}

/// Whether the version is HTTP/1.0, or some Connection field says close.
pub fn ends_link(minor: u8, block: &[u8], headers: &[HeaderSpan]) -> bool
    requires { All (IsHeaderWithin (length block.now)) headers.now }
    ensures { result ≡ ends_link minor (map (header_bytes block.now) headers.now) }
{
    if minor == 0 {
        return true;
    }
    for header in headers {
        if is_named(header.name.of(block), b"connection") && says_close(header.value.of(block)) {
            return true;
        }
    }
    false
}
