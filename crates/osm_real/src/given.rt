//! What was asked of a giver of journals' files, for contracts alone.
//!
//! It tells the paths at which files were asked for, the bytes that those had which were given, and the
//! files that came back, each with its copy. That the file at a path has the bytes that were read, and
//! the copy those that were sent, is trusted.
ghost use Rattle.std.specs.Prelude.{◌≡◌};
ghost use Rattle.std.specs.Borrow.{ftrue};
ghost use Rattle.copied_file.specs.Copied.{Copied};
ghost use Rattle.journal_host.specs.Told.{JournalsTold, none_lent, asked_at, lent_at, taken_back};

use copied_file::CopiedFile;
use std::marker::Model;

/// The paths that were asked for, the bytes that were given, and the files that came back so far. Only
/// proofs read them, and it takes no bytes.
#[derive(Drop)]
pub(crate) struct GivenTrace {
    pub ghost told: { JournalsTold Copied },
}

impl Model for GivenTrace {
    ghost also_owns = { λ _. ftrue };
}

impl GivenTrace {
    /// Whatever was asked.
    fn of() -> GivenTrace
        ghost told: { JournalsTold Copied }
        ensures { result.told ≡ told }
    {
        GivenTrace {}
    }

    /// Whatever was asked, made where the path and the bytes of the last call are known.
    fn beside(&self, _path: &[u8], _bytes: &[u8]) -> GivenTrace
        ghost told: { JournalsTold Copied }
        ensures { result.told ≡ told }
    {
        GivenTrace::of()
    }

    /// Whatever was asked, made where the file that came back is known.
    fn beside_file<S>(&self, _file: &CopiedFile<S>) -> GivenTrace
        ghost told: { JournalsTold Copied }
        ensures { result.told ≡ told }
    {
        GivenTrace::of()
    }

    /// Nothing yet.
    pub(crate) fn new() -> GivenTrace
        ensures { result.told ≡ none_lent }
    {
        GivenTrace::of()
    }

    /// And then a file was asked for at that path, and none given.
    pub(crate) fn asked(&self, path: &str) -> GivenTrace
        ensures { result.told ≡ asked_at self.now.told path.now }
    {
        self.beside(path.as_bytes(), &[])
    }

    /// And then the file at that path was given, with these bytes.
    pub(crate) fn lent(&self, path: &str, bytes: &[u8]) -> GivenTrace
        ensures { result.told ≡ lent_at self.now.told path.now bytes.now }
    {
        self.beside(path.as_bytes(), bytes)
    }

    /// And then this file came back.
    pub(crate) fn back<S>(&self, file: &CopiedFile<S>) -> GivenTrace
        ensures { result.told ≡ taken_back self.now.told file.now }
    {
        self.beside_file(file)
    }
}
