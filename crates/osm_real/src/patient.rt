//! A stream that is given up where a peer takes too long.
ghost use Rattle.std.specs.Prelude.{◌≡◌, ◌↔◌, IsTrue};
ghost use Rattle.std.specs.Io.{ReadsAtMost, WritesAtMost};
ghost use Rattle.std.specs.Io.KnownBytes.{ReadConsumes, WriteAppends};
ghost use Rattle.osm_real.specs.Stream.{HasPassed, patient_over};

use crate::duplex::Duplex;
use crate::stop::{LOOK_EACH, Stop};
use std::io;
use std::io::{ErrorKind, Read, Write};
use std::rt::Clock;
use std::time::Duration;

/// How long a read waits for the peer's bytes, and a write for its room, in seconds. Then it fails, which ends the link. An
/// editor on a slow line may be silent for so long.
const PEER_WAIT: u64 = 60;

/// How many looks at the stop that takes.
const LOOKS: u64 = PEER_WAIT * 1_000 / LOOK_EACH;

/// How long reading may go on until something is written, and writing until something is read, in seconds: so long may a peer
/// take for a whole request, or to take a whole reply. The greatest body of 32 MiB passes at 112 kB a second.
const TURN_LIMIT: u64 = 300;

/// Which way the last call went.
#[derive(Clone, Copy, PartialEq, Eq)]
enum Way {
    Reads,
    Writes,
}

/// A stream whose calls fail once those of one way have gone on for too long. A peer that sends or takes a little now and then
/// can't keep it for ever. Once the stop was asked for its reads fail, and its writes a while later. The calls of the stream that
/// it is over are to give up every `LOOK_EACH` milliseconds; they are tried again for `PEER_WAIT` seconds.
#[derive(Drop)]
pub struct PatientStream<'a, S, C> {
    stream: S,
    clock: C,
    stop: &'a Stop,
    way: Way,
    /// When the calls of this way began, where the clock could be read.
    since: Option<Duration>,
}

impl<'a, S, C: Clock> PatientStream<'a, S, C> {
    /// A stream whose reads begin now.
    pub fn new(stream: S, clock: C, stop: &'a Stop) -> PatientStream<'a, S, C>
        ensures { patient_over result ≡ stream }
    {
        PatientStream {
            since: clock.monotonic().ok(),
            stream,
            clock,
            stop,
            way: Way::Reads,
        }
    }

    /// The stream itself.
    pub fn into_inner(self) -> S
    where
        C: Drop,
        ensures { result ≡ patient_over self.entry }
    {
        let PatientStream {
            stream,
            clock: _,
            stop: _,
            way: _,
            since: _,
        } = self;
        stream
    }

    /// Whether the stop ends the calls of this way.
    fn is_stopped(&self, way: Way) -> bool {
        match way {
            Way::Reads => self.stop.is_asked(),
            Way::Writes => self.stop.is_late(&self.clock),
        }
    }

    /// Goes on in this way, or fails where that has taken too long or is stopped.
    fn go_on(&mut self, way: Way) -> io::Result<()>
        ensures { patient_over self.new ≡ patient_over self.old }
    {
        let now = self.clock.monotonic().ok();
        if self.way != way {
            self.way = way;
            self.since = now;
        }
        if has_passed(self.since, now, TURN_LIMIT) || self.is_stopped(way) {
            return Err(io::Error::from(ErrorKind::TimedOut));
        }
        Ok(())
    }
}

/// Whether more than so many seconds lie between the two. Where the clock couldn't be read they don't.
pub fn has_passed(since: Option<Duration>, now: Option<Duration>, seconds: u64) -> bool
    ensures { IsTrue result ↔ HasPassed since now seconds }
{
    match (since, now) {
        (Some(since), Some(now)) => now.saturating_sub(since) > Duration::from_secs(seconds),
        _ => false,
    }
}

impl<'a, S: Read + Write, C: Clock> Duplex for PatientStream<'a, S, C> {
    ghost use Rattle.std.specs.Prelude.{None};

    // What a write does to the bytes that the same value will read isn't known, so none are told.
    ghost left = { λ _. None };

    ghost held = { λ _. None };

    #[tactic(auto, using(crate::proofs::KeptBytes::keeps_itself, crate::proofs::KeptBytes::keeps_behind, crate::proofs::KeptBytes::reads_behind, crate::proofs::KeptBytes::reads_untold))]
    fn receive(&mut self, into: &mut [u8]) -> io::Result<usize>
        ensures bound { ReadsAtMost result into.new }
        ensures bytes { ReadConsumes (S.remaining (patient_over self.old)) (S.remaining (patient_over self.new)) result into.new }
        ensures left { ReadConsumes None None result into.new }
    {
        'looks: for _ in 0..LOOKS {
            self.go_on(Way::Reads)?;
            match self.stream.read(into) {
                Err(why) if why.kind() == ErrorKind::WouldBlock => {}
                outcome => return outcome,
            }
        }
        Err(io::Error::from(ErrorKind::TimedOut))
    }

    #[tactic(auto, using(crate::proofs::KeptBytes::keeps_itself, crate::proofs::KeptBytes::keeps_behind, crate::proofs::KeptBytes::writes_behind, crate::proofs::KeptBytes::writes_untold))]
    fn send(&mut self, piece: &[u8]) -> io::Result<usize>
        ensures bound { WritesAtMost result piece.now }
        ensures bytes { WriteAppends (S.contents (patient_over self.old)) (S.contents (patient_over self.new)) result piece.now }
        ensures held { WriteAppends None None result piece.now }
    {
        'looks: for _ in 0..LOOKS {
            self.go_on(Way::Writes)?;
            match self.stream.write(piece) {
                Err(why) if why.kind() == ErrorKind::WouldBlock => {}
                outcome => return outcome,
            }
        }
        Err(io::Error::from(ErrorKind::TimedOut))
    }
}
