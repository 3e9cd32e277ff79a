//! What gives the files of journals.
ghost use Rattle.std.specs.Prelude.{◌≡◌, ℕ, List, IfOk, MatchResult};
ghost use Rattle.journal_file.specs.Device.{Only};
ghost use Rattle.journal_host.specs.Told.{JournalsTold, asked_at, lent_at, taken_back};

use journal_file::{Device, DiskFault};
use std::alloc::Global;

/// What gives the files of journals, to be taken up and added to, and takes them back.
pub trait Journals {
    ghost use Rattle.journal_host.specs.Told.{JournalsTold};

    type File: Device + Drop + Send;

    // What it was asked for, what it gave and what came back.
    ghost told: { Self → JournalsTold Self.File };

    // What a file is that was just given for that path, beside what each device owes.
    ghost given: { List ℕ → Self.File → Type 0 };

    /// The file at that path, opened for this caller alone, and the bytes that it has, which are on
    /// the disk then. Where there is none, one is made with this header.
    fn lend(
        &mut self,
        alloc: Global,
        path: &str,
        header: &[u8],
    ) -> Result<(Self::File, Vec<u8>), DiskFault>
        ensures read { IfOk result (λ r. r.1.items ≡ Self.File.seen r.0) }
        ensures durable { IfOk result (λ r. Only (Self.File.seen r.0) (Self.File.may_leave r.0)) }
        // Since it is given, no crash leaves anything else.
        ensures moments { IfOk result (λ r. (t : ℕ) (c : List ℕ) → Self.File.left_since r.0 t c → c ≡ r.1.items) }
        ensures fine { IfOk result (λ r. Self.File.faults r.0 ≡ 0) }
        ensures given { IfOk result (λ r. given path.now r.0) }
        ensures told { MatchResult result
            (λ r. told self.new ≡ lent_at (told self.old) path.now r.1.items)
            (λ why. told self.new ≡ asked_at (told self.old) path.now) };

    /// Takes back a file that it gave. It takes no memory.
    fn back(&mut self, file: Self::File)
        ensures { told self.new ≡ taken_back (told self.old) file };
}
