//! Bytes both ways.
ghost use Rattle.std.specs.Prelude.{◌≡◌};
ghost use Rattle.std.specs.Io.{ReadsAtMost, WritesAtMost};
ghost use Rattle.std.specs.Io.KnownBytes.{ReadConsumes, WriteAppends};

use std::io;
use std::io::{Read, Write};

/// What reads and writes, each without a change to the other. `Read` and `Write` alone say nothing of that for one value.
pub trait Duplex {
    ghost use Rattle.std.specs.Prelude.{ℕ, List, Option};

    // The bytes that reads will give, `None` where they aren't known.
    ghost left: { Self → Option (List ℕ) };

    // The bytes that were written, `None` where they aren't known.
    ghost held: { Self → Option (List ℕ) };

    /// Reads some bytes to the front of `into`; 0 bytes in a place that isn't empty are the end.
    fn receive(&mut self, into: &mut [u8]) -> io::Result<usize>
        ensures bound { ReadsAtMost result into.new }
        ensures left { ReadConsumes (left self.old) (left self.new) result into.new }
        ensures held { held self.new ≡ held self.old };

    /// Writes some bytes from the front of `piece`.
    fn send(&mut self, piece: &[u8]) -> io::Result<usize>
        ensures bound { WritesAtMost result piece.now }
        ensures held { WriteAppends (held self.old) (held self.new) result piece.now }
        ensures left { left self.new ≡ left self.old };
}

/// Reads from the one and writes to the other.
#[derive(Drop)]
pub struct Pair<R, W> {
    reader: R,
    writer: W,
}

impl<R, W> Pair<R, W> {
    pub fn new(reader: R, writer: W) -> Pair<R, W>
        ensures { result ≡ record { reader = reader; writer = writer } }
    {
        Pair { reader, writer }
    }
}

impl<R: Read, W: Write> Duplex for Pair<R, W> {
    ghost left = { λ p. R.remaining p.reader };

    ghost held = { λ p. W.contents p.writer };

    fn receive(&mut self, into: &mut [u8]) -> io::Result<usize> {
        self.reader.read(into)
    }

    fn send(&mut self, piece: &[u8]) -> io::Result<usize> {
        self.writer.write(piece)
    }
}
