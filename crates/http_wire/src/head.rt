//! The head of a message.
ghost use Rattle.std.specs.Prelude.{◌≡◌, length, IfOk, IfErr, IfSome, IfNone, option_copied};
ghost use Rattle.httparse.specs.Grammar.{RequestHead};
ghost use Rattle.httparse.specs.Spans.{IsRequestAt, IsRequestWithin};
ghost use Rattle.http_wire.specs.Head.{IsHeadOf, HasNoHead, ReadsHead, RefusesHead};
ghost use Rattle.osm_base.specs.declared.limits.TheConstants.{FIELD_LIMIT};

use crate::close::ends_link;
use crate::end::WireEnd;
use crate::fields::first_value;
use crate::length::body_length;
use httparse::Status;
use httparse::spans::{EMPTY_HEADER_SPAN, HeaderSpan, RequestSpans, parse_request};
use osm_base::{Bytes, FIELD_LIMIT, Memory};
use std::alloc::Global;

/// What a message needs of its head.
#[derive(Drop)]
pub struct Head {
    pub method: Bytes,
    pub target: Bytes,
    /// Whether the link ends after the reply.
    pub close: bool,
    pub authorization: Option<Bytes>,
    pub media: Option<Bytes>,
    /// The length of the body.
    pub length: usize,
}

/// Where the parts of the head are, if the whole block is one.
fn parse_block(block: &[u8], headers: &mut [HeaderSpan]) -> Option<RequestSpans>
    requires { length headers.old ≡ FIELD_LIMIT }
    ensures head { IfSome result (λ found. (head : RequestHead) × IsHeadOf block.now head
        × IsRequestAt block.now headers.new found head) }
    ensures within { IfSome result (λ found. found.len ≡ length block.now) }
    ensures spans { IfSome result (IsRequestWithin block.now headers.new) }
    ensures none { IfNone result (HasNoHead block.now) }
{
    match parse_request(block, headers) {
        Ok(Status::Complete(found)) if found.len == block.len() => Some(found),
        _ => None,
    }
}

/// A copy of a value that is there.
fn copied(alloc: Global, value: Option<&[u8]>) -> Result<Option<Bytes>, Memory>
    ensures { IfOk result (λ copy. copy ≡ option_copied value.entry) }
{
    match value {
        Some(bytes) => Ok(Some(Bytes::of(alloc, bytes)?)),
        None => Ok(None),
    }
}

/// What a message needs of its head block, where a body may have so many bytes.
pub fn read_head(alloc: Global, block: &[u8], body_limit: usize) -> Result<Head, WireEnd>
    ensures ok { IfOk result (ReadsHead body_limit block.now) }
    ensures err { IfErr result (RefusesHead body_limit block.now) }
{
    let mut spans = [EMPTY_HEADER_SPAN; FIELD_LIMIT];
    let Some(found) = parse_block(block, &mut spans) else {
        return Err(WireEnd::BadHead);
    };
    let headers = &spans[..found.headers];
    if first_value(block, headers, b"transfer-encoding").is_some() {
        return Err(WireEnd::Coded);
    }
    let Some(length) = body_length(block, headers, body_limit) else {
        return Err(WireEnd::BadLength);
    };
    if length > body_limit as u128 {
        return Err(WireEnd::BodyLong);
    }
    let authorization = first_value(block, headers, b"authorization");
    let media = first_value(block, headers, b"content-type");
    Ok(Head {
        method: Bytes::of(alloc, found.method.of(block))?,
        target: Bytes::of(alloc, found.path.of(block))?,
        close: ends_link(found.version, block, headers),
        authorization: copied(alloc, authorization)?,
        media: copied(alloc, media)?,
        length: length as usize,
    })
}
