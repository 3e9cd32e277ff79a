//! Replies that were written.
use osm_base::Memory;
use std::alloc::Global;

const TYPE: &str = "Content-Type: application/json\r\nContent-Length: ";

/// A reply with that status and reason.
pub fn reply_of(alloc: Global, status: &str, body: &str, closes: bool) -> Result<String, Memory> {
    let length = body.len();
    let close = if closes { "Connection: close\r\n" } else { "" };
    let mut text = String::new(alloc);
    write!(
        text,
        "HTTP/1.1 {status}\r\n{TYPE}{length}\r\n{close}\r\n{body}"
    )?;
    Ok(text)
}

/// A reply with status 200.
pub fn reply(alloc: Global, body: &str, closes: bool) -> Result<String, Memory> {
    reply_of(alloc, "200 OK", body, closes)
}
