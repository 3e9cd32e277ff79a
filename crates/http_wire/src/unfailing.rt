//! Bytes in memory as a source.
ghost use Rattle.std.specs.Prelude.{◌≡◌, IfOk, Some};
ghost use Rattle.http_wire.specs.Unfailing.{unfailing_told};

use osm_base::{Bytes, Memory};
use osm_outside::{Failed, MemLink, Outside, Source};
use std::alloc::Global;
use std::marker::Model;

/// A source of which no read fails.
#[derive(Drop)]
pub struct Unfailing {
    link: MemLink,
}

impl Model for Unfailing {
    ghost use Rattle.std.specs.Prelude.{◌≡◌, []};
    ghost use Rattle.osm_outside.specs.Memory.{LinkState};

    ghost Value = { LinkState };

    ghost view = { λ u. u.link };

    ghost invariant = { λ u. u.link.reads.bad ≡ [] };
}

impl Outside for Unfailing {
    ghost told = { unfailing_told };
}

impl Unfailing {
    /// A source that gives these bytes.
    pub fn new(alloc: Global, bytes: Bytes) -> Result<Unfailing, Memory>
        ensures { IfOk result (λ source. (unfailing_told source).left ≡ Some bytes) }
    {
        let none = Vec::new(alloc);
        let link = MemLink::new(
            alloc,
            bytes,
            Vec::new(alloc),
            Vec::new(alloc),
            none,
            Vec::new(alloc),
            0,
        )?;
        Ok(Unfailing { link })
    }
}

impl Source for Unfailing {
    fn read(&mut self, into: &mut [u8]) -> Result<usize, Failed> {
        self.link.read(into)
    }
}
