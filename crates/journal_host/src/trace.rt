//! What was asked of a giver of journals' files, for contracts alone.
//!
//! It tells the paths at which files were asked for, the bytes that those had which were given, and
//! the files that came back. That the file at a path has the bytes that were read is trusted.
ghost use Rattle.std.specs.Prelude.{◌≡◌};
ghost use Rattle.std.specs.Borrow.{ftrue};
ghost use Rattle.journal_file.specs.History.{History};
ghost use Rattle.journal_host.specs.Told.{JournalsTold, none_lent, asked_at, lent_at, taken_back};

use journal_file::MemFile;
use std::marker::Model;

/// The paths that were asked for, the bytes that were given, and the files that came back so far. Only
/// proofs read them, and it takes no bytes.
#[derive(Drop)]
pub struct JournalTrace {
    pub ghost told: { JournalsTold History },
}

impl Model for JournalTrace {
    ghost also_owns = { λ _. ftrue };
}

impl JournalTrace {
    /// Whatever was asked.
    fn of() -> JournalTrace
        ghost told: { JournalsTold History }
        ensures { result.told ≡ told }
    {
        JournalTrace {}
    }

    /// Whatever was asked, made where the path and the bytes of the last call are known.
    fn beside(&self, _path: &[u8], _bytes: &[u8]) -> JournalTrace
        ghost told: { JournalsTold History }
        ensures { result.told ≡ told }
    {
        JournalTrace::of()
    }

    /// Whatever was asked, made where the file in memory that came back is known.
    fn beside_memory(&self, _file: &MemFile) -> JournalTrace
        ghost told: { JournalsTold History }
        ensures { result.told ≡ told }
    {
        JournalTrace::of()
    }

    /// Nothing yet.
    pub fn new() -> JournalTrace
        ensures { result.told ≡ none_lent }
    {
        JournalTrace::of()
    }

    /// And then a file was asked for at that path, and none given.
    pub fn asked(&self, path: &str) -> JournalTrace
        ensures { result.told ≡ asked_at self.now.told path.now }
    {
        self.beside(path.as_bytes(), &[])
    }

    /// And then the file at that path was given, with these bytes.
    pub fn lent(&self, path: &str, bytes: &[u8]) -> JournalTrace
        ensures { result.told ≡ lent_at self.now.told path.now bytes.now }
    {
        self.beside(path.as_bytes(), bytes)
    }

    /// And then this file in memory came back.
    pub fn back_of_memory(&self, file: &MemFile) -> JournalTrace
        ensures { result.told ≡ taken_back self.now.told file.now }
    {
        self.beside_memory(file)
    }
}
