//! What was asked of a file, for contracts alone.
ghost use Rattle.std.specs.Prelude.{◌≡◌};
ghost use Rattle.std.specs.Borrow.{ftrue};
ghost use Rattle.journal_file.specs.History.{History, Wrote, TriedToWrite, LaidBy, TriedToLayBy, CutTo, TriedToCut, Synced, TriedToSync, opened, called};

use std::marker::{Model, Send};

/// The bytes that a file had when it was opened, and the calls since. Only proofs read them, and it
/// takes no bytes.
#[derive(Drop)]
pub(crate) struct Chronicle {
    pub ghost history: { History },
}

impl Model for Chronicle {
    ghost also_owns = { λ _. ftrue };
}

// It has no bytes, so any thread may have it.
unsafe impl Send for Chronicle {}

impl Chronicle {
    /// Whatever history.
    fn of() -> Chronicle
        ghost history: { History }
        ensures { result.history ≡ history }
    {
        Chronicle {}
    }

    /// Whatever history, made where the place and the bytes of the last call are known.
    fn beside(&self, _at: usize, _bytes: &[u8]) -> Chronicle
        ghost history: { History }
        ensures { result.history ≡ history }
    {
        Chronicle::of()
    }

    /// Whatever history, made where the first bytes are known.
    fn begun(_bytes: &[u8]) -> Chronicle
        ghost history: { History }
        ensures { result.history ≡ history }
    {
        Chronicle::of()
    }

    /// The file was opened with these bytes.
    pub(crate) fn new(bytes: &[u8]) -> Chronicle
        ensures { result.history ≡ opened bytes.now }
    {
        Chronicle::begun(bytes)
    }

    /// And then these bytes were written from that place on.
    pub(crate) fn wrote(&self, at: usize, bytes: &[u8]) -> Chronicle
        ensures { result.history ≡ called self.now.history (Wrote at bytes.now) }
    {
        self.beside(at, bytes)
    }

    /// And then a write of these bytes failed.
    pub(crate) fn tried_to_write(&self, at: usize, bytes: &[u8]) -> Chronicle
        ensures { result.history ≡ called self.now.history (TriedToWrite at bytes.now) }
    {
        self.beside(at, bytes)
    }

    /// And then so many zeros were laid by.
    pub(crate) fn laid_by(&self, count: usize) -> Chronicle
        ensures { result.history ≡ called self.now.history (LaidBy count) }
    {
        self.beside(count, &[])
    }

    /// And then laying by so many zeros failed.
    pub(crate) fn tried_to_lay_by(&self, count: usize) -> Chronicle
        ensures { result.history ≡ called self.now.history (TriedToLayBy count) }
    {
        self.beside(count, &[])
    }

    /// And then the file was cut to that length.
    pub(crate) fn cut_to(&self, len: usize) -> Chronicle
        ensures { result.history ≡ called self.now.history (CutTo len) }
    {
        self.beside(len, &[])
    }

    /// And then a cut failed.
    pub(crate) fn tried_to_cut(&self, len: usize) -> Chronicle
        ensures { result.history ≡ called self.now.history (TriedToCut len) }
    {
        self.beside(len, &[])
    }

    /// And then it was synced.
    pub(crate) fn synced(&self) -> Chronicle
        ensures { result.history ≡ called self.now.history Synced }
    {
        self.beside(0, &[])
    }

    /// And then a sync failed.
    pub(crate) fn tried_to_sync(&self) -> Chronicle
        ensures { result.history ≡ called self.now.history TriedToSync }
    {
        self.beside(0, &[])
    }
}
