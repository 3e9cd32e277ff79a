//! A link over a stream and the system's clock. An interrupted call is a fault as any other: the program handles no
//! signal, so its reads and writes are not interrupted, and calls that were tried again would need a bound.
ghost use Rattle.std.specs.Prelude.{◌≡◌, ◌≤◌, ◌<◌, length, IfOk, IsErr};
ghost use Rattle.std.specs.Io.KnownBytes.{ReadConsumes, WriteAppends};
ghost use Rattle.osm_outside.specs.Told.{AddsRead, AddsWrite, OnlyReads, OnlyWrites, Rose};
ghost use Rattle.osm_real.specs.Stream.{link_stream, stream_told, unused};

use crate::duplex::{Duplex, Pair};
use osm_outside::{Clock, Failed, Link, Outside, Sink, Source, Trace, Witness};
use receipts::Receipt;
use shared_front::{FoundFront, Front, HubName};
use std::io::{Read, Write};
use std::time::{SystemTime, UNIX_EPOCH};

/// A link that reads from a stream, writes to it and asks the system for the time.
#[derive(Drop)]
pub struct StreamLink<S, C> {
    stream: S,
    clock: C,
    fixed: Option<u64>,
    read_faults: u64,
    write_faults: u64,
    trace: Trace,
}

impl<R: Read, W: Write, C> StreamLink<Pair<R, W>, C> {
    /// A link that reads from a reader and writes to a writer, and whose clock isn't fixed.
    pub fn new(reader: R, writer: W, clock: C) -> StreamLink<Pair<R, W>, C>
        ensures unused { stream_told (λ p. R.remaining p.reader) result ≡ unused (R.remaining reader) }
    {
        StreamLink::over(Pair::new(reader, writer), clock)
    }
}

impl<S: Duplex, C> StreamLink<S, C> {
    /// A link whose clock isn't fixed.
    pub fn over(stream: S, clock: C) -> StreamLink<S, C>
        ensures unused { stream_told S.left result ≡ unused (S.left stream) }
        ensures stream { link_stream result ≡ stream }
    {
        StreamLink {
            stream,
            clock,
            fixed: None,
            read_faults: 0,
            write_faults: 0,
            trace: Trace::new(),
        }
    }

    /// The stream itself.
    pub fn into_stream(self) -> S
    where
        C: Drop,
        ensures { result ≡ link_stream self }
    {
        let StreamLink {
            stream,
            clock: _,
            fixed: _,
            read_faults: _,
            write_faults: _,
            trace: _,
        } = self;
        stream
    }
}

impl<S: Duplex, C> Outside for StreamLink<S, C> {
    ghost told = { stream_told S.left };
}

impl<S: Duplex, C> Source for StreamLink<S, C> {
    fn read(&mut self, into: &mut [u8]) -> Result<usize, Failed>
        ensures count { IfOk result (λ n. n ≤ length into.new) }
        ensures trace { AddsRead (stream_told S.left self.old) (stream_told S.left self.new) result into.new }
        ensures left { ReadConsumes (S.left (link_stream self.old)) (S.left (link_stream self.new)) result into.new }
        ensures failed { IsErr result → Rose (stream_told S.left self.old).read_faults (stream_told S.left self.new).read_faults }
        ensures keeps { OnlyReads (stream_told S.left self.old) (stream_told S.left self.new) }
        ensures held { S.held (link_stream self.new) ≡ S.held (link_stream self.old) }
    {
        match self.stream.receive(into) {
            Ok(count) => {
                self.trace = self.trace.gave(into, count);
                Ok(count)
            }
            Err(_) => {
                self.read_faults = self.read_faults.saturating_add(1);
                Err(Failed)
            }
        }
    }
}

impl<S: Duplex, C> Sink for StreamLink<S, C> {
    fn write(&mut self, piece: &[u8]) -> Result<usize, Failed>
        ensures count { IfOk result (λ n. n ≤ length piece.now) }
        ensures trace { AddsWrite (stream_told S.left self.old) (stream_told S.left self.new) result piece.now }
        ensures failed { IsErr result → Rose (stream_told S.left self.old).write_faults (stream_told S.left self.new).write_faults }
        ensures none_taken { IfOk result (λ n. n ≡ 0 → 0 < length piece.now
            → Rose (stream_told S.left self.old).write_faults (stream_told S.left self.new).write_faults) }
        ensures keeps { OnlyWrites (stream_told S.left self.old) (stream_told S.left self.new) }
        ensures held { WriteAppends (S.held (link_stream self.old)) (S.held (link_stream self.new)) result piece.now }
    {
        match self.stream.send(piece) {
            Ok(count) => {
                if count == 0 && !piece.is_empty() {
                    self.write_faults = self.write_faults.saturating_add(1);
                }
                self.trace = self.trace.took(piece, count);
                Ok(count)
            }
            Err(_) => {
                self.write_faults = self.write_faults.saturating_add(1);
                Err(Failed)
            }
        }
    }
}

impl<S: Duplex, C: std::rt::Clock> Clock for StreamLink<S, C> {
    /// Whole seconds since 1970; 0 where the system's clock can't be read or stands before 1970.
    fn now(&mut self) -> u64 {
        let moment = match self.fixed {
            Some(seconds) => seconds,
            None => seconds_since_1970(&self.clock),
        };
        self.trace = self.trace.answered(moment);
        moment
    }

    fn fix(&mut self, seconds: u64) {
        self.fixed = Some(seconds);
    }
}

fn seconds_since_1970(clock: &impl std::rt::Clock) -> u64 {
    let Ok(time) = SystemTime::now(clock) else {
        return 0;
    };
    match time.duration_since(UNIX_EPOCH) {
        Ok(since) => since.as_secs(),
        Err(_) => 0,
    }
}

impl<S: Duplex, C> Witness for StreamLink<S, C> {
    fn learn<N: HubName, E>(&mut self, found: FoundFront<N, E>) {
        self.trace = self.trace.found(&found);
    }

    fn show<K: HubName>(&mut self, receipts: &Front<K, Receipt>) {
        self.trace = self.trace.shown(receipts);
    }
}

impl<S: Duplex, C: std::rt::Clock> Link for StreamLink<S, C> {}
