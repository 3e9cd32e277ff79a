//! Messages one after another.
ghost use Rattle.std.specs.Prelude.{◌≡◌, [], IfOk, IsErrOf, IsFalse, is_err};
ghost use Rattle.http_wire.specs.Wire.{Reads};
ghost use Rattle.osm_outside.specs.Told.{Rose};

use crate::buffer::Buffer;
use crate::end::WireEnd;
use crate::message::{Message, read_next};
use osm_base::Memory;
use osm_outside::{Outside, Source};
use std::alloc::Global;
use std::marker::Model;

/// Reads the messages of one link. It keeps the bytes that it read past a message.
#[derive(Drop)]
pub struct Wire {
    buffer: Buffer,
    ended: bool,
    body_limit: usize,
}

impl Model for Wire {
    ghost use Rattle.http_wire.specs.Wire.{WireState};

    ghost Value = { WireState };

    ghost view = { λ w. record { kept = w.buffer; ended = w.ended; body_limit = w.body_limit } };
}

impl Wire {
    /// A wire that has read nothing. A message's body may have so many bytes.
    pub fn new(alloc: Global, body_limit: usize) -> Result<Wire, Memory>
        ensures kept { IfOk result (λ wire. wire.kept ≡ []) }
        ensures open { IfOk result (λ wire. IsFalse wire.ended) }
        ensures body_limit { IfOk result (λ wire. wire.body_limit ≡ body_limit) }
    {
        Ok(Wire {
            buffer: Buffer::new(alloc)?,
            ended: false,
            body_limit,
        })
    }

    /// Whether it has answered an end.
    pub fn ended(&self) -> bool
        ensures { result ≡ self.now.ended }
    {
        self.ended
    }

    /// Reads the next message, or the end that stands in its place. How the bytes are cut into reads makes no difference.
    pub fn read_message<S: Source>(
        &mut self,
        alloc: Global,
        source: &mut S,
    ) -> Result<Message, WireEnd>
        requires { IsFalse self.old.ended }
        ensures reads { Reads self.old.body_limit (S.told source.old) (S.told source.new) self.old.kept result self.new.kept }
        ensures fault { IsErrOf result WireEnd.ReadFault
            → Rose (S.told source.old).read_faults (S.told source.new).read_faults }
        ensures ended { self.new.ended ≡ is_err result }
        ensures body_limit { self.new.body_limit ≡ self.old.body_limit }
    {
        let result = read_next(&mut self.buffer, alloc, source, self.body_limit);
        self.ended = result.is_err();
        result
    }
}
