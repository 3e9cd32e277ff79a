//! Bytes that are read from the front.
ghost use Rattle.std.specs.Prelude.{◌≡◌};
ghost use Rattle.std.specs.Int.{w64};
ghost use Rattle.packed_entry.specs.Read.{Gives, byte_at, wide_at, number_at, text_at};

use crate::faults::Fault;
use crate::fronts::{eight_bytes, first_byte, first_number, first_text};
use std::marker::Model;

/// The bytes that are left.
#[derive(Drop)]
pub(crate) struct Reader<'a> {
    rest: &'a [u8],
}

impl<'a> Model for Reader<'a> {
    ghost use Rattle.std.specs.Prelude.{ℕ, List};

    ghost Value = { List ℕ };

    ghost view = { λ r. r.rest.now };
}

impl<'a> Reader<'a> {
    pub(crate) fn new(bytes: &'a [u8]) -> Reader<'a>
        ensures { result ≡ bytes.now }
    {
        Reader { rest: bytes }
    }

    pub(crate) fn byte(&mut self) -> Result<u8, Fault>
        ensures { Gives (λ b. b) result (byte_at self.old) self.new }
    {
        let (byte, rest) = first_byte(self.rest)?;
        self.rest = rest;
        Ok(byte)
    }

    pub(crate) fn eight_bytes(&mut self) -> Result<u64, Fault>
        ensures { Gives (λ n. n) result (wide_at w64 self.old) self.new }
    {
        let (number, rest) = eight_bytes(self.rest)?;
        self.rest = rest;
        Ok(number)
    }

    pub(crate) fn number(&mut self) -> Result<u64, Fault>
        ensures { Gives (λ n. n) result (number_at self.old) self.new }
    {
        let (number, rest) = first_number(self.rest)?;
        self.rest = rest;
        Ok(number)
    }

    /// A text, where it stands.
    pub(crate) fn text(&mut self) -> Result<&'a str, Fault>
        ensures { Gives (λ t. t.now) result (text_at self.old) self.new }
    {
        let (text, rest) = first_text(self.rest)?;
        self.rest = rest;
        Ok(text)
    }
}
