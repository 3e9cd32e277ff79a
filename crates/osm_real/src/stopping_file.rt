//! A file of the disk whose faults end the server.
ghost use Rattle.std.specs.Prelude.{◌≡◌};

use crate::named_file::NamedFile;
use crate::stop::Stop;
use copied_file::CopiedFile;
use journal_file::{Device, DeviceFailed};
use std::marker::Model;
use std::net::Net;
use std::rt::{Clock, Files};

/// A file of the disk, with a copy elsewhere or without one, that asks for a stop at the first of its calls
/// that fails, since what it is to keep can't be told of any more; and at a sync behind which another file
/// has its path, since another server may go on from that one. Contracts see it as the file and its copy.
#[derive(Drop)]
pub struct StoppingFile<'a, S: Net> {
    file: CopiedFile<S::Stream>,
    named: NamedFile,
    system: S,
    stop: &'a Stop,
}

impl<'a, S: Net> Model for StoppingFile<'a, S> {
    ghost use Rattle.copied_file.specs.Copied.{Copied};

    ghost Value = { Copied };

    ghost view = { λ f. f.file };
}

impl<'a, S: Net + Clock> StoppingFile<'a, S> {
    /// The file, which was found by that name and asks for that stop.
    pub fn new(
        file: CopiedFile<S::Stream>,
        named: NamedFile,
        system: S,
        stop: &'a Stop,
    ) -> StoppingFile<'a, S>
        ensures { result ≡ file }
    {
        StoppingFile {
            file,
            named,
            system,
            stop,
        }
    }

    /// The file itself.
    pub fn into_inner(self) -> CopiedFile<S::Stream>
    where
        S: Drop,
        ensures { result ≡ self.entry }
    {
        let StoppingFile {
            file,
            named: _,
            system: _,
            stop: _,
        } = self;
        file
    }

    /// Asks for the stop where a call failed, and gives what it came to.
    fn told(&self, outcome: Result<(), DeviceFailed>) -> Result<(), DeviceFailed>
        ensures { result ≡ outcome }
    {
        if outcome.is_err() {
            self.stop.ask(&self.system);
        }
        outcome
    }
}

impl<'a, S: Net + Clock + Files> Device for StoppingFile<'a, S> {
    ghost use Rattle.std.specs.Prelude.{length};
    ghost use Rattle.copied_file.specs.Copied.{seen_at, left_at, left_from, faults_at, counts_now, only_now};

    const ROOM: usize = <CopiedFile<S::Stream> as Device>::ROOM;

    ghost seen = { λ c. seen_at c.now };

    ghost may_leave = { λ c. left_at c.now };

    ghost moment = { λ c. length c.before };

    ghost left_since = { λ c. left_from c.now c.before };

    ghost faults = { λ c. faults_at c.now };

    fn write_at(&mut self, at: usize, bytes: &[u8]) -> Result<(), DeviceFailed> {
        let outcome = self.file.write_at(at, bytes);
        self.told(outcome)
    }

    fn lay_by(&mut self, end: usize, count: usize) -> Result<(), DeviceFailed> {
        let outcome = self.file.lay_by(end, count);
        self.told(outcome)
    }

    fn cut(&mut self, len: usize) -> Result<(), DeviceFailed> {
        let outcome = self.file.cut(len);
        self.told(outcome)
    }

    fn sync(&mut self) -> Result<(), DeviceFailed> {
        let outcome = self.file.sync();
        if self.named.is_another(&self.system) {
            self.stop.ask(&self.system);
        }
        self.told(outcome)
    }

    ghost counts_now = { λ h t c le left. counts_now h.now h.before t c left };

    ghost only_now = { λ h c left. only_now h.now h.before c left };
}
