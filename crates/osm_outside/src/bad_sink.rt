//! A link in memory whose writing stops for a moment.
ghost use Rattle.std.specs.Prelude.{◌≡◌, ◌≤◌, ◌<◌, ◌↔◌, length, IfOk, IsErr, OnErr};
ghost use Rattle.osm_outside.specs.Told.{AddsWrite, OnlyWrites, Rose};
ghost use Rattle.osm_outside.specs.Memory.{IsBad, TakesNone, after_taking, called, faulted, sink_told_of, taken_count};

use crate::memory::MemLink;
use crate::outside::{Clock, Failed, Link, Outside, Sink, Source, Witness};
use receipts::Receipt;
use shared_front::{FoundFront, Front, HubName};
use std::marker::Model;

/// A link in memory, one of whose writes takes nothing.
#[derive(Drop)]
pub struct BadSink {
    link: MemLink,
    empty_at: u64,
}

impl Model for BadSink {
    ghost use Rattle.osm_outside.specs.Memory.{SinkState};

    ghost Value = { SinkState };

    ghost view = { λ s. record { link = s.link; empty_at = s.empty_at } };
}

impl BadSink {
    /// This link, but its write of that number takes no bytes, and counts as a fault where there are some. Writes are counted
    /// from 0, with those that the link has seen already.
    pub fn new(link: MemLink, empty_at: u64) -> BadSink
        ensures { result ≡ record { link = link; empty_at = empty_at } }
    {
        BadSink { link, empty_at }
    }

    /// The link itself.
    pub fn inner(&self) -> &MemLink
        ensures { result.now ≡ self.now.link }
    {
        &self.link
    }
}

impl Outside for BadSink {
    ghost told = { sink_told_of };
}

impl Source for BadSink {
    fn read(&mut self, into: &mut [u8]) -> Result<usize, Failed> {
        self.link.read(into)
    }
}

impl Sink for BadSink {
    fn write(&mut self, piece: &[u8]) -> Result<usize, Failed>
        ensures count { IfOk result (λ n. n ≤ length piece.now) }
        ensures trace { AddsWrite (sink_told_of self.old) (sink_told_of self.new) result piece.now }
        ensures failed { IsErr result → Rose (sink_told_of self.old).write_faults (sink_told_of self.new).write_faults }
        ensures none_taken { IfOk result (λ n. n ≡ 0 → 0 < length piece.now
            → Rose (sink_told_of self.old).write_faults (sink_told_of self.new).write_faults) }
        ensures keeps { OnlyWrites (sink_told_of self.old) (sink_told_of self.new) }
        ensures fails { IsErr result ↔ IsBad self.old.link.writes }
        ensures empty { TakesNone self.old → IfOk result (λ n. n ≡ 0) }
        ensures takes { ¬ TakesNone self.old → IfOk result (λ n. n ≡ taken_count self.old.link (length piece.now)) }
        ensures ok { IfOk result (λ n. self.new ≡ record self.old { link = after_taking self.old.link piece.now n }) }
        ensures err { OnErr result (self.new ≡ record self.old {
          link = record self.old.link {
            writes = faulted (called self.old.link.writes);
          };
        }) }
    {
        if self.link.writes() == self.empty_at {
            return self.link.write_most(piece, 0);
        }
        self.link.write(piece)
    }
}

impl Clock for BadSink {
    fn now(&mut self) -> u64 {
        self.link.now()
    }

    fn fix(&mut self, seconds: u64) {
        self.link.fix(seconds);
    }
}

impl Witness for BadSink {
    fn learn<N: HubName, E>(&mut self, found: FoundFront<N, E>) {
        self.link.learn(found);
    }

    fn show<K: HubName>(&mut self, receipts: &Front<K, Receipt>) {
        self.link.show(receipts);
    }
}

impl Link for BadSink {}
