//! Links in memory, served to their ends, and what is left of their input then.
use crate::desks::LengthDesk;
use crate::{link_of, memory_link};
use http_link::{LinkEnd, serve_desk};
use http_wire::WireEnd;
use osm_base::{BODY_LIMIT, Memory, PIECE_LIMIT};
use row_lines::Tally;
use std::alloc::Global;

/// What must come of a link: its end, and what it wrote and left, where that is compared.
struct Outcome {
    end: LinkEnd,
    written: Option<&'static [u8]>,
    left: Option<&'static [u8]>,
}

fn is_wanted(bytes: &[u8], wanted: Option<&[u8]>) -> bool {
    match wanted {
        Some(wanted) => bytes == wanted,
        None => true,
    }
}

/// Whether that comes of a link with this input in pieces of that size.
fn comes(alloc: Global, input: &[u8], cut: usize, outcome: &Outcome) -> Result<bool, Memory> {
    let mut link = link_of(alloc, input, cut)?;
    let end = serve_desk(alloc, &mut LengthDesk, &mut link, BODY_LIMIT);
    Ok(
        end == outcome.end
            && is_wanted(link.written(), outcome.written)
            && is_wanted(link.left(), outcome.left),
    )
}

const REQUESTS: &[u8] =
    b"\r\nPUT /a HTTP/1.1\r\nA: b\r\n\r\nPOST /b HTTP/1.1\ncontent-LENGTH:  03 \n\nabcGET / HTTP/1.1\r\n\r\n";

const REPLIES: &[u8] =
    b"HTTP/1.1 200 OK\r\nContent-Type: application/json\r\nContent-Length: 1\r\n\r\n0HTTP/1.1 200 OK\r\nContent-Type: application/json\r\nContent-Length: 1\r\n\r\n3HTTP/1.1 200 OK\r\nContent-Type: application/json\r\nContent-Length: 1\r\n\r\n0";

const ANSWERED: Outcome = Outcome {
    end: LinkEnd::Ended,
    written: Some(REPLIES),
    left: None,
};

fn answers_in_any_cuts(alloc: Global) -> Result<bool, Memory> {
    for cut in 1..=REQUESTS.len() {
        if !comes(alloc, REQUESTS, cut, &ANSWERED)? {
            return Ok(false);
        }
    }
    Ok(true)
}

const CLOSING: &[u8] =
    b"GET /a HTTP/1.1\r\n\r\nGET /b HTTP/1.1\r\nConnection: close\r\n\r\nGET /c HTTP/1.1\r\n\r\n";

const CLOSED: &[u8] =
    b"HTTP/1.1 200 OK\r\nContent-Type: application/json\r\nContent-Length: 1\r\n\r\n0HTTP/1.1 200 OK\r\nContent-Type: application/json\r\nContent-Length: 1\r\nConnection: close\r\n\r\n0";

/// Names, inputs, the sizes of their pieces, and what must come of them.
const ROWS: [(&str, &[u8], usize, Outcome); 5] = [
    (
        "refuses a coding",
        b"GET / HTTP/1.1\r\nTransfer-Encoding: chunked\r\n\r\n",
        7,
        Outcome {
            end: LinkEnd::Refused(WireEnd::Coded),
            written: None,
            left: None,
        },
    ),
    (
        "refuses two lengths",
        b"GET / HTTP/1.1\r\nContent-Length: 1\r\nContent-Length: 2\r\n\r\n",
        7,
        Outcome {
            end: LinkEnd::Refused(WireEnd::BadLength),
            written: None,
            left: None,
        },
    ),
    (
        "ends inside a body",
        b"GET / HTTP/1.1\r\nContent-Length: 3\r\n\r\nab",
        7,
        Outcome {
            end: LinkEnd::Refused(WireEnd::Truncated),
            written: None,
            left: None,
        },
    ),
    (
        "a close leaves the input behind it",
        CLOSING,
        19,
        Outcome {
            end: LinkEnd::Closed,
            written: None,
            left: Some(b"GET /c HTTP/1.1\r\n\r\n"),
        },
    ),
    (
        "a close amid pipelined requests ends the link",
        CLOSING,
        100,
        Outcome {
            end: LinkEnd::Closed,
            written: Some(CLOSED),
            left: None,
        },
    ),
];

const REQUEST: &[u8] = b"GET / HTTP/1.1\r\n\r\n";

/// 1,001 requests.
fn requests(alloc: Global) -> Result<Vec<u8>, Memory> {
    let mut input = Vec::new(alloc);
    for _ in 0..1_001 {
        input.extend_from_slice(REQUEST)?;
    }
    Ok(input)
}

const LAST: Outcome = Outcome {
    end: LinkEnd::Budget,
    written: None,
    left: Some(REQUEST),
};

fn the_last_request_that_is_answered_leaves_the_next(alloc: Global) -> Result<bool, Memory> {
    let input = requests(alloc)?;
    comes(alloc, input.as_slice(), 18, &LAST)
}

/// The end of a link of that limit on bodies, which comes to the end of its input behind a head with that length.
fn end_behind_length(alloc: Global, body_limit: usize, length: usize) -> Result<LinkEnd, Memory> {
    let input = format!(in alloc; "POST / HTTP/1.1\r\nContent-Length: {length}\r\n\r\n")?;
    let mut link = link_of(alloc, input.as_bytes(), 100)?;
    Ok(serve_desk(alloc, &mut LengthDesk, &mut link, body_limit))
}

fn each_limit_on_bodies_is_the_longest_body(alloc: Global) -> Result<bool, Memory> {
    let cut = LinkEnd::Refused(WireEnd::Truncated);
    let long = LinkEnd::Refused(WireEnd::BodyLong);
    Ok(
        end_behind_length(alloc, BODY_LIMIT, 33_554_432)? == cut
            && end_behind_length(alloc, BODY_LIMIT, 33_554_433)? == long
            && end_behind_length(alloc, PIECE_LIMIT, 33_554_433)? == cut
            && end_behind_length(alloc, PIECE_LIMIT, 33_619_968)? == cut
            && end_behind_length(alloc, PIECE_LIMIT, 33_619_969)? == long
            && end_behind_length(alloc, 0, 0)? == LinkEnd::Ended
            && end_behind_length(alloc, 0, 1)? == long
            && end_behind_length(alloc, usize::MAX, usize::MAX)? == cut,
    )
}

const LONG_HEAD: &[u8] = b"POST / HTTP/1.1\r\nContent-Length: 33619968\r\n\r\n";

const LONG_REPLY: &[u8] =
    b"HTTP/1.1 200 OK\r\nContent-Type: application/json\r\nContent-Length: 1\r\n\r\n8";

/// A body of as many bytes as a piece of the feed may have, where that is the limit.
fn the_longest_piece_is_answered(alloc: Global) -> Result<bool, Memory> {
    let mut input = LONG_HEAD.to_vec(alloc)?;
    input.resize(LONG_HEAD.len() + 33_619_968, b' ')?;
    let mut link = memory_link(alloc, input.as_slice(), Vec::new(alloc), 200)?;
    let end = serve_desk(alloc, &mut LengthDesk, &mut link, PIECE_LIMIT);
    Ok(end == LinkEnd::Ended && link.written() == LONG_REPLY)
}

pub fn play<R: Print>(rt: &R, alloc: Global, tally: &mut Tally) {
    tally.note(rt, "answers in any cuts", answers_in_any_cuts(alloc));
    for (name, input, cut, outcome) in &ROWS {
        tally.note(rt, name, comes(alloc, input, *cut, outcome));
    }
    tally.note(
        rt,
        "the last request that is answered leaves the next",
        the_last_request_that_is_answered_leaves_the_next(alloc),
    );
    tally.note(
        rt,
        "each limit on bodies is the longest body",
        each_limit_on_bodies_is_the_longest_body(alloc),
    );
    tally.note(
        rt,
        "the longest piece is answered",
        the_longest_piece_is_answered(alloc),
    );
}
