//! A link over streams, and what its trace tells.
ghost use Rattle.std.specs.Prelude.{◌≡◌, ◌∷◌, ◌++◌, [], IfOk};
ghost use Rattle.osm_outside.specs.Event.{Gave, Took};

use crate::desks::LengthDesk;
use http_link::{LinkEnd, serve_desk};
use osm_base::{BODY_LIMIT, Memory};
use osm_outside::{Clock, Outside, Sink, Source};
use osm_real::StreamLink;
use row_lines::Tally;
use std::alloc::Global;
use std::io;
use std::io::{ErrorKind, Read, Write};

/// Why nothing was observed.
#[derive(Drop)]
enum Unseen {
    Failed,
    Memory,
}

/// Reads once, and copies the bytes that the trace then tells.
fn read_once<S: Source>(alloc: Global, source: &mut S) -> Result<Vec<u8>, Unseen>
    ensures { IfOk result (λ copy. (S.told source.new).trace ≡ (S.told source.old).trace ++ Gave copy.items ∷ []) }
{
    let mut place = [0; 4];
    match source.read(&mut place) {
        Ok(count) => match Vec::from_slice(alloc, &place[..count]) {
            Ok(copy) => Ok(copy),
            Err(_) => Err(Unseen::Memory),
        },
        Err(_) => Err(Unseen::Failed),
    }
}

/// Writes once, and copies the bytes that the trace then tells.
fn write_once<S: Sink>(alloc: Global, sink: &mut S, piece: &[u8]) -> Result<Vec<u8>, Unseen>
    ensures { IfOk result (λ copy. (S.told sink.new).trace ≡ (S.told sink.old).trace ++ Took copy.items ∷ []) }
{
    match sink.write(piece) {
        Ok(count) => match Vec::from_slice(alloc, &piece[..count]) {
            Ok(copy) => Ok(copy),
            Err(_) => Err(Unseen::Memory),
        },
        Err(_) => Err(Unseen::Failed),
    }
}

fn a_link_passes_bytes_and_tells_the_time(rt: HostRuntime) -> bool {
    let mut link = StreamLink::new(b"ab".as_slice(), Vec::new(rt.alloc()), rt);
    let mut place = [0; 4];
    let read = link.read(&mut place);
    let written = link.write(b"cd");
    let now = link.now();
    link.fix(5);
    read == Ok(2)
        && place == [b'a', b'b', 0, 0]
        && written == Ok(2)
        && now > 1_700_000_000
        && link.now() == 5
}

/// Whether a read gives these bytes.
fn reads<S: Source>(alloc: Global, source: &mut S, wanted: &[u8]) -> Result<bool, Unseen> {
    let given = read_once(alloc, source)?;
    Ok(given.as_slice() == wanted)
}

/// Whether a write takes all of the bytes.
fn writes<S: Sink>(alloc: Global, sink: &mut S, piece: &[u8]) -> Result<bool, Unseen> {
    let taken = write_once(alloc, sink, piece)?;
    Ok(taken.as_slice() == piece)
}

fn tells<L: Source + Sink>(alloc: Global, link: &mut L) -> Result<bool, Unseen> {
    let first = reads(alloc, link, b"ab")?;
    let written = writes(alloc, link, b"cd")?;
    let last = reads(alloc, link, b"")?;
    Ok(first && written && last)
}

fn the_trace_tells_what_was_read_and_written(rt: HostRuntime) -> Result<bool, Unseen> {
    let mut link = StreamLink::new(b"ab".as_slice(), Vec::new(rt.alloc()), rt);
    tells(rt.alloc(), &mut link)
}

/// A stream whose calls fail.
#[derive(Drop)]
struct Broken;

impl Read for Broken {
    fn read(&mut self, _buf: &mut [u8]) -> io::Result<usize> {
        Err(io::Error::from(ErrorKind::ConnectionReset))
    }
}

impl Write for Broken {
    fn write(&mut self, _buf: &[u8]) -> io::Result<usize> {
        Err(io::Error::from(ErrorKind::BrokenPipe))
    }

    fn flush(&mut self) -> io::Result<()> {
        Ok(())
    }
}

const REQUEST: &[u8] = b"GET /a HTTP/1.1\r\n\r\n";

/// A request, and then a reader that fails: the reply was written, and the link doesn't end as if its input had.
fn a_failing_reader_ends_the_link(rt: HostRuntime) -> bool {
    let reader = REQUEST.chain(Broken);
    let mut link = StreamLink::new(reader, Vec::new(rt.alloc()), rt);
    serve_desk(rt.alloc(), &mut LengthDesk, &mut link, BODY_LIMIT) == LinkEnd::ReadFault
}

fn a_failing_writer_ends_the_link(rt: HostRuntime) -> bool {
    let mut link = StreamLink::new(REQUEST, Broken, rt);
    serve_desk(rt.alloc(), &mut LengthDesk, &mut link, BODY_LIMIT) == LinkEnd::WriteFault
}

pub fn play(rt: HostRuntime, tally: &mut Tally) {
    tally.note(
        &rt,
        "a failing reader ends the link",
        Ok(a_failing_reader_ends_the_link(rt)),
    );
    tally.note(
        &rt,
        "a failing writer ends the link",
        Ok(a_failing_writer_ends_the_link(rt)),
    );
    tally.note(
        &rt,
        "a link passes bytes and tells the time",
        Ok(a_link_passes_bytes_and_tells_the_time(rt)),
    );
    let outcome = match the_trace_tells_what_was_read_and_written(rt) {
        Ok(is_right) => Ok(is_right),
        Err(Unseen::Failed) => Ok(false),
        Err(Unseen::Memory) => Err(Memory),
    };
    tally.note(&rt, "the trace tells what was read and written", outcome);
}
