//! What stands in the place of a message.
ghost use Rattle.std.specs.Prelude.{◌≡◌};
ghost use Rattle.http_wire.specs.declared.end.WireEnd.TheVariants.{Memory};

/// Why no message was read. The faults of a whole head are looked for in the order `BadHead`,
/// `Coded`, `BadLength`, `BodyLong`.
#[derive(Clone, Copy, PartialEq, Eq)]
pub enum WireEnd {
    /// The input ended between messages.
    End,
    /// The input ended inside a message.
    Truncated,
    /// The head isn't, in full, one of HTTP/1.0 or HTTP/1.1 with at most `FIELD_LIMIT` fields.
    BadHead,
    /// No head ends within `HEAD_LIMIT` bytes, counted from the end of the message before it.
    HeadLong,
    /// The Content-Length fields aren't digits that all write one number.
    BadLength,
    /// The body has more bytes than the wire's limit.
    BodyLong,
    /// The head has a Transfer-Encoding field, and no coding is read.
    Coded,
    /// Reading failed.
    ReadFault,
    /// There was no memory.
    Memory,
}

impl From<osm_base::Memory> for WireEnd {
    ghost from_gives = { λ _ end. end ≡ Memory };

    fn from(_: osm_base::Memory) -> WireEnd {
        WireEnd::Memory
    }
}
