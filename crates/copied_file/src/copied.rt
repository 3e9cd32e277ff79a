//! A file and its copy, as one device.
ghost use Rattle.std.specs.Prelude.{◌≡◌, ◌⊎◌, IsSome, IsOk, IsErr, true, false};
ghost use Rattle.journal_file.specs.History.{opened};
ghost use Rattle.copied_file.specs.Copied.{HasJustOpened, CountsOn};

use crate::keeper::CopyLink;
use crate::trace::CopyTrace;
use journal_file::{Device, DeviceFailed, DiskFile};
use std::io::{Read, Write};
use std::marker::Model;

/// An open file of the system, and the copy of it that a keeper holds, where there is one. Each call asks
/// both, and where either failed the keeper is asked no more. Contracts see how both stand and stood.
pub struct CopiedFile<S> {
    file: DiskFile,
    copy: Option<CopyLink<S>>,
    trace: CopyTrace,
}

impl<S> Model for CopiedFile<S> {
    ghost use Rattle.copied_file.specs.Copied.{Copied, Agrees};

    ghost Value = { Copied };

    ghost view = { λ f. f.trace.copied };

    ghost invariant = { λ f. Agrees f.file f.copy f.trace.copied };
}

impl<S: Drop> Drop for CopiedFile<S> {
    fn drop(self) {
        let CopiedFile {
            file: _,
            copy: _,
            trace: _,
        } = self;
    }
}

impl<S> CopiedFile<S> {
    /// The file that was opened with these bytes, and its copy, which has them too.
    pub fn new(file: DiskFile, bytes: &[u8], copy: Option<CopyLink<S>>) -> CopiedFile<S>
        requires { file ≡ opened bytes.now }
        ensures opened { HasJustOpened bytes.now result }
        ensures counts { IsSome copy → result.now.counts ≡ true }
    {
        let trace = CopyTrace::new(bytes, copy.is_some());
        CopiedFile { file, copy, trace }
    }

    /// How long a copy counts. It does nothing.
    pub fn law(&self)
        ensures { CountsOn self.now.now self.now.before }
    {
        let _trace = &self.trace;
    }
}

/// What a call came to that asked the file and the copy, which is let go where either failed.
fn come_to<S: Drop>(
    copy: &mut Option<CopyLink<S>>,
    kept: Result<(), DeviceFailed>,
    is_done: bool,
) -> Result<(), DeviceFailed>
    ensures fine { IsOk result → (kept ≡ result) × (is_done ≡ true) }
    ensures failed { IsErr result → IsErr kept ⊎ (is_done ≡ false) }
    ensures stays { IsSome copy.new → (IsOk kept) × (is_done ≡ true) × (copy.new ≡ copy.old) }
    ensures goes { IsSome copy.old → IsOk kept → is_done ≡ true → IsSome copy.new }
{
    if is_done && kept.is_ok() {
        return kept;
    }
    *copy = None;
    Err(DeviceFailed)
}

impl<S: Read + Write + Drop> Device for CopiedFile<S> {
    ghost use Rattle.std.specs.Prelude.{length};
    ghost use Rattle.copied_file.specs.Copied.{seen_at, left_at, left_from, faults_at, counts_now, only_now};

    const ROOM: usize = DiskFile::ROOM;

    ghost seen = { λ c. seen_at c.now };

    ghost may_leave = { λ c. left_at c.now };

    ghost moment = { λ c. length c.before };

    ghost left_since = { λ c. left_from c.now c.before };

    ghost faults = { λ c. faults_at c.now };

    fn write_at(&mut self, at: usize, bytes: &[u8]) -> Result<(), DeviceFailed> {
        let kept = self.file.write_at(at, bytes);
        let Some(link) = &mut self.copy else {
            self.trace = self.trace.without(&self.file);
            return kept;
        };
        let is_done = link.write_at(at, bytes);
        self.trace = self.trace.wrote(&self.file, is_done, at, bytes);
        come_to(&mut self.copy, kept, is_done)
    }

    fn lay_by(&mut self, end: usize, count: usize) -> Result<(), DeviceFailed> {
        let kept = self.file.lay_by(end, count);
        let Some(link) = &mut self.copy else {
            self.trace = self.trace.without(&self.file);
            return kept;
        };
        let is_done = link.lay_by(end, count);
        self.trace = self.trace.laid_by(&self.file, is_done, count);
        come_to(&mut self.copy, kept, is_done)
    }

    fn cut(&mut self, len: usize) -> Result<(), DeviceFailed> {
        let kept = self.file.cut(len);
        let Some(link) = &mut self.copy else {
            self.trace = self.trace.without(&self.file);
            return kept;
        };
        let is_done = link.cut(len);
        self.trace = self.trace.cut_to(&self.file, is_done, len);
        come_to(&mut self.copy, kept, is_done)
    }

    /// Waits for the keeper behind the file's own sync: both disks are at it at once, since the keeper
    /// syncs what it is sent as it comes.
    fn sync(&mut self) -> Result<(), DeviceFailed> {
        let kept = self.file.sync();
        let Some(link) = &mut self.copy else {
            self.trace = self.trace.without(&self.file);
            return kept;
        };
        let is_done = link.sync();
        self.trace = self.trace.synced(&self.file, is_done);
        come_to(&mut self.copy, kept, is_done)
    }

    ghost counts_now = { λ h t c le left. counts_now h.now h.before t c left };

    ghost only_now = { λ h c left. only_now h.now h.before c left };
}
