//! What was asked of a file and of its copy, for contracts alone.
ghost use Rattle.std.specs.Prelude.{◌≡◌, Bool};
ghost use Rattle.std.specs.Borrow.{ftrue};
ghost use Rattle.copied_file.specs.Copied.{Copied, just_opened, without, asked, written, laid, cut, synced};

use journal_file::DiskFile;
use std::marker::{Model, Send};

/// How a file and its copy stand and stood behind each call. Only proofs read it, and it takes no bytes.
#[derive(Drop)]
pub(crate) struct CopyTrace {
    pub ghost copied: { Copied },
}

impl Model for CopyTrace {
    ghost also_owns = { λ _. ftrue };
}

// It has no bytes, so any thread may have it.
unsafe impl Send for CopyTrace {}

impl CopyTrace {
    /// However they stand.
    fn of() -> CopyTrace
        ghost copied: { Copied }
        ensures { result.copied ≡ copied }
    {
        CopyTrace {}
    }

    /// However they stand, made where the first bytes are known.
    fn begun(_bytes: &[u8], _counts: bool) -> CopyTrace
        ghost copied: { Copied }
        ensures { result.copied ≡ copied }
    {
        CopyTrace::of()
    }

    /// However they stand, made where the file and the last call are known.
    fn beside(&self, _file: &DiskFile, _done: bool, _at: usize, _bytes: &[u8]) -> CopyTrace
        ghost copied: { Copied }
        ensures { result.copied ≡ copied }
    {
        CopyTrace::of()
    }

    /// The file was opened with these bytes, and the copy has them too where it counts.
    pub(crate) fn new(bytes: &[u8], counts: bool) -> CopyTrace
        ensures { result.copied ≡ just_opened bytes.now counts }
    {
        CopyTrace::begun(bytes, counts)
    }

    /// And then the file was asked alone.
    pub(crate) fn without(&self, file: &DiskFile) -> CopyTrace
        ensures { result.copied ≡ without self.now.copied file.now }
    {
        self.beside(file, false, 0, &[])
    }

    /// And then these bytes were written from that place on, into the copy too where that is done.
    pub(crate) fn wrote(&self, file: &DiskFile, done: bool, at: usize, bytes: &[u8]) -> CopyTrace
        ensures { result.copied ≡ asked self.now.copied file.now (written done at bytes.now) }
    {
        self.beside(file, done, at, bytes)
    }

    /// And then so many zeros were laid by.
    pub(crate) fn laid_by(&self, file: &DiskFile, done: bool, count: usize) -> CopyTrace
        ensures { result.copied ≡ asked self.now.copied file.now (laid done count) }
    {
        self.beside(file, done, count, &[])
    }

    /// And then both were cut to that length.
    pub(crate) fn cut_to(&self, file: &DiskFile, done: bool, len: usize) -> CopyTrace
        ensures { result.copied ≡ asked self.now.copied file.now (cut done len) }
    {
        self.beside(file, done, len, &[])
    }

    /// And then both were synced.
    pub(crate) fn synced(&self, file: &DiskFile, done: bool) -> CopyTrace
        ensures { result.copied ≡ asked self.now.copied file.now (synced done) }
    {
        self.beside(file, done, 0, &[])
    }
}
