//! A journal that a server goes on from, and how it is read of a file.
ghost use Rattle.std.specs.Prelude.{◌↔◌, IsTrue};

use journal_recovery::{EntryJudge, KeptText};

/// How the journal of a server is taken up.
///
/// What serves links on from it is no method here: what a method of a trait sends to threads isn't
/// covered by the check of borrows, since the bounds of its parameters hold on its own thread alone.
pub trait KeptJournal<E>: EntryJudge<E> {
    ghost use Rattle.std.specs.Prelude.{List};

    /// How entries are written, and read again, by several threads at once.
    type Text: KeptText<E> + Send;

    // Which journals links are served on from.
    ghost fits: { List E → Type 0 };

    /// Whether links are served on from that journal.
    fn fits(journal: &Self::Journal) -> bool
        ensures { IsTrue result ↔ fits (Self.entries journal.now) };
}
