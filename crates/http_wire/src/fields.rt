//! The fields of a head, by the parser's spans.
ghost use Rattle.std.specs.Prelude.{◌≡◌, map, length, All, option_copied};
ghost use Rattle.std.specs.Str.{str_eq_ignore_ascii_case};
ghost use Rattle.httparse.specs.Spans.{IsHeaderWithin, header_bytes};
ghost use Rattle.http_wire.specs.Fields.{first_value};

use httparse::spans::HeaderSpan;

/// Whether two names are one, whatever the case of their letters.
pub fn is_named(name: &[u8], wanted: &[u8]) -> bool
    ensures { result ≡ str_eq_ignore_ascii_case name.now wanted.now }
{
    name.eq_ignore_ascii_case(wanted)
}

/// The value of the first field of that name.
pub fn first_value<'a>(block: &'a [u8], headers: &[HeaderSpan], name: &[u8]) -> Option<&'a [u8]>
    requires { All (IsHeaderWithin (length block.now)) headers.now }
    ensures { option_copied result ≡ first_value name.now (map (header_bytes block.now) headers.now) }
{
    for header in headers {
        if is_named(header.name.of(block), name) {
            return Some(header.value.of(block));
        }
    }
    None
}
