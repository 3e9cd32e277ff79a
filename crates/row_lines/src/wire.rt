//! The bytes of requests and replies.
use crate::faults::RowFault;
use crate::lines::word_of;
use itoa::Buffer;

/// The fields that tell who asks.
const TOKENS: [(&str, &str); 6] = [
    ("alice", "Authorization: Bearer alicetoken\r\n"),
    ("bob", "Authorization: Bearer bobtoken\r\n"),
    ("carol", "Authorization: Bearer caroltoken\r\n"),
    ("dave", "Authorization: Bearer davetoken\r\n"),
    ("stranger", "Authorization: Bearer carolstoken\r\n"),
    ("nobody", ""),
];

/// The reasons of statuses (RFC 9110, section 15; RFC 6585, section 5).
const REASONS: [(&str, &str); 14] = [
    ("200", "OK"),
    ("400", "Bad Request"),
    ("401", "Unauthorized"),
    ("403", "Forbidden"),
    ("404", "Not Found"),
    ("405", "Method Not Allowed"),
    ("409", "Conflict"),
    ("410", "Gone"),
    ("412", "Precondition Failed"),
    ("413", "Content Too Large"),
    ("415", "Unsupported Media Type"),
    ("431", "Request Header Fields Too Large"),
    ("501", "Not Implemented"),
    ("503", "Service Unavailable"),
];

/// What stands between the first line of a reply and its length.
const TYPE: &str = "Content-Type: application/json\r\nContent-Length: ";

/// What stands behind the length of a reply, and the same where the link is closed.
const KEPT: &str = "\r\n\r\n";

const CLOSE: &str = "\r\nConnection: close\r\n\r\n";

/// What a table has beside a word.
fn looked_up(table: &[(&'static str, &'static str)], word: &str) -> Result<&'static str, RowFault> {
    for (name, text) in table {
        if *name == word {
            return Ok(*text);
        }
    }
    Err(RowFault::Unread)
}

/// Adds the texts one behind the other.
fn add_all(made: &mut Vec<u8>, texts: &[&str]) -> Result<(), RowFault> {
    for text in texts {
        made.extend_from_slice(text.as_bytes())?;
    }
    Ok(())
}

fn add_number(made: &mut Vec<u8>, number: usize) -> Result<(), RowFault> {
    let mut digits = Buffer::new();
    made.extend_from_slice(digits.format(number).as_bytes())?;
    Ok(())
}

/// Adds the last field of a request and what stands behind it: its length and its body, where it has
/// one.
fn add_ending(made: &mut Vec<u8>, field: &str, body: &str) -> Result<(), RowFault> {
    if body.is_empty() {
        return add_all(made, &[field, "\r\n"]);
    }
    add_all(made, &[field, "Content-Length: "])?;
    add_number(made, body.len())?;
    add_all(made, &["\r\n\r\n", body])
}

/// Adds the bytes of a request line, with these fields before the caller's: `CALLER METHOD PATH`, and
/// perhaps a body.
pub fn add_request(made: &mut Vec<u8>, fields: &[u8], line: &str) -> Result<(), RowFault> {
    let (caller, rest) = line.split_once(' ').ok_or(RowFault::Unread)?;
    let (method, rest) = rest.split_once(' ').ok_or(RowFault::Unread)?;
    let (path, body) = word_of(rest);
    let token = looked_up(&TOKENS, caller)?;
    add_all(made, &[method, " /api/0.6/", path, " HTTP/1.1\r\n"])?;
    made.extend_from_slice(fields)?;
    add_ending(made, token, body)
}

/// Adds the first line of a reply, and what stands before its length.
fn add_start(made: &mut Vec<u8>, status: &str, reason: &str) -> Result<(), RowFault> {
    add_all(made, &["HTTP/1.1 ", status, " ", reason, "\r\n", TYPE])
}

/// Adds the bytes of a reply line: `STATUS BODY`, or `STATUS close BODY` where the link is closed.
pub fn add_reply(made: &mut Vec<u8>, line: &str) -> Result<(), RowFault> {
    let (status, rest) = line.split_once(' ').ok_or(RowFault::Unread)?;
    let body = rest.strip_prefix("close ").unwrap_or(rest);
    let is_kept = body.len() == rest.len();
    let reason = looked_up(&REASONS, status)?;
    add_start(made, status, reason)?;
    add_number(made, body.len())?;
    let end = if is_kept { KEPT } else { CLOSE };
    made.extend_from_slice(end.as_bytes())?;
    made.extend_from_slice(body.as_bytes())?;
    Ok(())
}
