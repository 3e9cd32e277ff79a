//! A file in memory that has room laid by, a little at a time.
ghost use Rattle.std.specs.Prelude.{◌≡◌};

use journal_file::{Device, DeviceFailed, MemFile};
use std::marker::Model;

/// A file in memory with so many bytes of room laid by at once. Contracts see it as that file.
#[derive(Drop)]
pub struct RoomyFile<const ROOM: usize> {
    file: MemFile,
}

impl<const ROOM: usize> Model for RoomyFile<ROOM> {
    ghost use Rattle.journal_file.specs.History.{History};

    ghost Value = { History };

    ghost view = { λ f. f.file };
}

impl<const ROOM: usize> RoomyFile<ROOM> {
    pub fn new(file: MemFile) -> RoomyFile<ROOM>
        ensures { result ≡ file }
    {
        RoomyFile { file }
    }

    /// The file itself.
    pub fn file(&self) -> &MemFile {
        &self.file
    }
}

impl<const ROOM: usize> Device for RoomyFile<ROOM> {
    ghost use Rattle.std.specs.Prelude.{length};
    ghost use Rattle.journal_file.specs.History.{seen_after, left_after, left_from, faults_in, counts_now, only_now};

    const ROOM: usize = ROOM;

    ghost seen = { λ h. seen_after h.first h.calls };

    ghost may_leave = { λ h c. left_after h.first h.calls c };

    ghost moment = { λ h. length h.calls };

    ghost left_since = { λ h t c. left_from h.first h.calls t c };

    ghost faults = { λ h. faults_in h.calls };

    fn write_at(&mut self, at: usize, bytes: &[u8]) -> Result<(), DeviceFailed> {
        self.file.write_at(at, bytes)
    }

    fn lay_by(&mut self, end: usize, count: usize) -> Result<(), DeviceFailed> {
        self.file.lay_by(end, count)
    }

    fn cut(&mut self, len: usize) -> Result<(), DeviceFailed> {
        self.file.cut(len)
    }

    fn sync(&mut self) -> Result<(), DeviceFailed> {
        self.file.sync()
    }

    ghost counts_now = { λ h t c le left. counts_now h.first h.calls t c left };

    ghost only_now = { λ h c left. only_now h.first h.calls c left };
}
