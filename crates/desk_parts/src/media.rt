//! Whether a body is XML.
//!
//! XML is refused wherever a route takes the message, also on calls that read no body, and before
//! the caller is looked at.
ghost use Rattle.std.specs.Prelude.{◌≡◌, option_copied};
ghost use Rattle.std.specs.List.{before_first};
ghost use Rattle.desk_parts.specs.Media.{is_semicolon, has_xml_suffix, names_xml, says_xml, is_blank, begins_as_xml, is_xml};

use crate::bytes::{place_of, value_of};
use http_wire::{Message, trim_ows};

/// What stands before the first `;`.
fn before_parameters(media: &[u8]) -> &[u8]
    ensures { result.now ≡ before_first is_semicolon media.now }
{
    match place_of(b';', media) {
        Some(end) => &media[..end],
        None => media,
    }
}

fn has_xml_suffix(kind: &[u8]) -> bool
    ensures { result ≡ has_xml_suffix kind.now }
{
    kind[kind.len().saturating_sub(4)..].eq_ignore_ascii_case(b"+xml")
}

fn names_xml(kind: &[u8]) -> bool
    ensures { result ≡ names_xml kind.now }
{
    kind.eq_ignore_ascii_case(b"text/xml")
        || kind.eq_ignore_ascii_case(b"application/xml")
        || has_xml_suffix(kind)
}

/// Whether a media type is that of XML (RFC 7303). Its parameters don't count.
fn says_xml(media: Option<&[u8]>) -> bool
    ensures { result ≡ says_xml (option_copied media.entry) }
{
    match media {
        Some(media) => names_xml(trim_ows(before_parameters(media))),
        None => false,
    }
}

fn is_blank(byte: u8) -> bool
    ensures { result ≡ is_blank byte }
{
    byte == b' ' || byte == b'\t' || byte == b'\r' || byte == b'\n'
}

/// Whether the first byte that isn't white space is `<`.
fn begins_as_xml(body: &[u8]) -> bool
    ensures { result ≡ begins_as_xml body.now }
{
    for byte in body {
        if !is_blank(*byte) {
            return *byte == b'<';
        }
    }
    false
}

/// Whether the message has a body that is XML, by its media type or by its first byte.
pub fn is_xml(message: &Message) -> bool
    ensures { result ≡ is_xml message.now }
{
    let body = message.body.as_slice();
    !body.is_empty() && (says_xml(value_of(&message.media)) || begins_as_xml(body))
}
