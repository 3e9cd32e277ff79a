//! One message.
ghost use Rattle.std.specs.Prelude.{◌≡◌, IsErrOf};
ghost use Rattle.http_wire.specs.Message.{message_of};
ghost use Rattle.http_wire.specs.Wire.{Reads};
ghost use Rattle.osm_outside.specs.Told.{Rose};

use crate::body::read_body;
use crate::buffer::Buffer;
use crate::end::WireEnd;
use crate::head::{Head, read_head};
use crate::search::read_block;
use osm_base::Bytes;
use osm_outside::{Outside, Source};
use std::alloc::Global;

/// A request as it came (RFC 9112, sections 2 to 6). The target is kept as it was written.
#[derive(Drop)]
pub struct Message {
    pub method: Bytes,
    pub target: Bytes,
    /// Whether the link ends after the reply: the version is HTTP/1.0, or a Connection field says
    /// `close`.
    pub close: bool,
    /// The value of the first Authorization field.
    pub authorization: Option<Bytes>,
    /// The value of the first Content-Type field.
    pub media: Option<Bytes>,
    pub body: Bytes,
}

/// The message with that head and that body.
fn message_of(head: Head, body: Bytes) -> Message
    ensures { result ≡ message_of head body }
{
    let Head {
        method,
        target,
        close,
        authorization,
        media,
        length: _,
    } = head;
    Message {
        method,
        target,
        close,
        authorization,
        media,
        body,
    }
}

/// Reads the message that the bytes begin with, where a body may have so many bytes.
pub fn read_next<S: Source>(
    buffer: &mut Buffer,
    alloc: Global,
    source: &mut S,
    body_limit: usize,
) -> Result<Message, WireEnd>
    ensures reads { Reads body_limit (S.told source.old) (S.told source.new) buffer.old result buffer.new }
    ensures fault { IsErrOf result WireEnd.ReadFault
        → Rose (S.told source.old).read_faults (S.told source.new).read_faults }
{
    let block = read_block(buffer, source)?;
    let head = read_head(
        alloc,
        &buffer.as_slice()[block.begin..block.end],
        body_limit,
    )?;
    buffer.drop_front(block.end);
    let body = read_body(buffer, alloc, source, head.length)?;
    Ok(message_of(head, body))
}
