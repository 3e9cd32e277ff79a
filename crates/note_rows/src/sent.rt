//! What the sessions send, as bytes on a link.
use osm_base::{Bytes, Memory};
use std::alloc::Global;

/// What a request asks for.
#[derive(Clone, Copy, PartialEq, Eq)]
pub enum Wish {
    /// A note at latitude 1 and longitude 2.
    Open,
    /// A comment on the first note.
    Comment,
}

const OPEN: &str =
    "POST /api/0.6/notes HTTP/1.1\r\nAuthorization: Bearer alicetoken\r\nContent-Length: 33\r\n\r\n{\"lat7\":1,\"lon7\":2,\"text\":\"gate\"}";

const COMMENT: &str =
    "POST /api/0.6/notes/1/comment HTTP/1.1\r\nAuthorization: Bearer bobtoken\r\nContent-Length: 15\r\n\r\n{\"text\":\"gate\"}";

/// The bytes of a request.
pub fn request(alloc: Global, wish: Wish) -> Result<Bytes, Memory> {
    let text = match wish {
        Wish::Open => OPEN,
        Wish::Comment => COMMENT,
    };
    Bytes::of(alloc, text.as_bytes())
}
