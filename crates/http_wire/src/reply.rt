//! Replies written to a sink.
ghost use Rattle.std.specs.Prelude.{◌≡◌, ◌+◌, ◌≤◌, ◌++◌, length, IsErr, IfOk};
ghost use Rattle.arrayvec.specs.ArrayVec.{array_vec_len};
ghost use Rattle.http_wire.specs.Reply.{status_text, reply_head, reply};
ghost use Rattle.osm_base.specs.Status.{IsStatus};
ghost use Rattle.http_wire.specs.Written.{Writes};
ghost use Rattle.http_wire.specs.declared.reply.TheConstants.{JOINED_LIMIT, PIECE_ROOM};
ghost use Rattle.osm_outside.specs.Told.{Rose};

use arrayvec::ArrayVec;
use itoa::Buffer;
use osm_outside::{Failed, Outside, Sink};
use std::alloc::{AllocError, Global};

/// The head of any reply has at most so many bytes, and the body of a short one fits behind it.
const PIECE_ROOM: usize = 1_024;

/// A reply of at most so many bytes is written in one piece, which the reader then gets at once.
const JOINED_LIMIT: usize = 1_048_576;

/// A status and its reason.
fn status_text(status: u16) -> &'static [u8]
    ensures text { result.now ≡ status_text status }
    ensures short { length result.now ≤ 40 }
{
    match status {
        200 => b"200 OK",
        400 => b"400 Bad Request",
        401 => b"401 Unauthorized",
        403 => b"403 Forbidden",
        404 => b"404 Not Found",
        405 => b"405 Method Not Allowed",
        409 => b"409 Conflict",
        410 => b"410 Gone",
        412 => b"412 Precondition Failed",
        413 => b"413 Content Too Large",
        415 => b"415 Unsupported Media Type",
        431 => b"431 Request Header Fields Too Large",
        501 => b"501 Not Implemented",
        _ => b"503 Service Unavailable",
    }
}

/// Appends a piece of the head.
fn append(head: &mut ArrayVec<u8, PIECE_ROOM>, piece: &[u8])
    requires { array_vec_len head.old + length piece.now ≤ PIECE_ROOM }
    ensures items { head.new.items ≡ head.old.items ++ piece.now }
    ensures len { array_vec_len head.new ≡ array_vec_len head.old + length piece.now }
{
    let _ = head.try_extend_from_slice(piece);
}

/// The head of a reply with a body of that many bytes.
#[tactic(auto, unfolding(crate::specs::Reply::reply_head))]
fn reply_head(status: u16, size: usize, close: bool) -> ArrayVec<u8, PIECE_ROOM>
    ensures { result.items ≡ reply_head status size close }
{
    let mut digits = Buffer::new();
    let mut head = ArrayVec::new();
    append(&mut head, b"HTTP/1.1 ");
    append(&mut head, status_text(status));
    append(
        &mut head,
        b"\r\nContent-Type: application/json\r\nContent-Length: ",
    );
    append(&mut head, digits.format(size).as_bytes());
    append(&mut head, b"\r\n");
    append(
        &mut head,
        if close { b"Connection: close\r\n" } else { b"" },
    );
    append(&mut head, b"\r\n");
    head
}

/// Writes all the bytes. At a fault a beginning of them was written.
pub fn write_all<S: Sink>(sink: &mut S, bytes: &[u8]) -> Result<(), Failed>
    ensures writes { Writes (S.told sink.old) (S.told sink.new) bytes.now result }
    ensures failed { IsErr result → Rose (S.told sink.old).write_faults (S.told sink.new).write_faults }
{
    let mut rest = bytes;
    'pieces: while !rest.is_empty() {
        let count = sink.write(rest)?;
        if count == 0 {
            return Err(Failed);
        }
        rest = &rest[count..];
    }
    Ok(())
}

/// The two one behind the other, where there is memory for that. Nothing is written there but they.
fn join(alloc: Global, head: &[u8], body: &[u8]) -> Result<Vec<u8>, AllocError>
    requires { length head.now + length body.now ≤ JOINED_LIMIT }
    ensures { IfOk result (λ piece. piece.items ≡ head.now ++ body.now) }
{
    let mut piece = Vec::with_capacity(alloc, head.len() + body.len())?;
    piece.extend_from_slice(head)?;
    piece.extend_from_slice(body)?;
    Ok(piece)
}

/// Writes the two one after the other.
fn write_two<S: Sink>(sink: &mut S, head: &[u8], body: &[u8]) -> Result<(), Failed>
    ensures writes { Writes (S.told sink.old) (S.told sink.new) (head.now ++ body.now) result }
    ensures failed { IsErr result → Rose (S.told sink.old).write_faults (S.told sink.new).write_faults }
{
    write_all(sink, head)?;
    write_all(sink, body)
}

/// Writes the two as one piece, or one after the other where there is no memory for the piece.
fn write_joined<S: Sink>(
    alloc: Global,
    sink: &mut S,
    head: &[u8],
    body: &[u8],
) -> Result<(), Failed>
    requires { length head.now + length body.now ≤ JOINED_LIMIT }
    ensures writes { Writes (S.told sink.old) (S.told sink.new) (head.now ++ body.now) result }
    ensures failed { IsErr result → Rose (S.told sink.old).write_faults (S.told sink.new).write_faults }
{
    match join(alloc, head, body) {
        Ok(piece) => write_all(sink, piece.as_slice()),
        Err(_) => write_two(sink, head, body),
    }
}

/// Writes a reply with a JSON body (RFC 9112, section 4), in one write where it has at most `JOINED_LIMIT` bytes, the sink
/// takes all, and there is memory to put head and body together. `close` says in a Connection field that the link ends after
/// it. At a fault a beginning of it was written.
pub fn write_reply<S: Sink>(
    alloc: Global,
    sink: &mut S,
    status: u16,
    body: &[u8],
    close: bool,
) -> Result<(), Failed>
    requires { IsStatus status }
    ensures writes { Writes (S.told sink.old) (S.told sink.new) (reply status body.now close) result }
    ensures failed { IsErr result → Rose (S.told sink.old).write_faults (S.told sink.new).write_faults }
{
    let mut head = reply_head(status, body.len(), close);
    // A second small write would wait on a real socket.
    if body.len() <= PIECE_ROOM - head.len() {
        append(&mut head, body);
        return write_all(sink, head.as_slice());
    }
    if body.len() <= JOINED_LIMIT - head.len() {
        return write_joined(alloc, sink, head.as_slice(), body);
    }
    write_two(sink, head.as_slice(), body)
}
