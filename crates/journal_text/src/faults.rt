//! What is wrong with a text.
use osm_base::Memory;
use std::alloc::AllocFailed;

/// Why a text has no journal. `Long` comes first, then `Header`; then the first line with a fault
/// counts, and in one line `Line` goes before `Illegal`. Lines count from 1, the header included.
#[derive(Clone, Copy, PartialEq, Eq)]
pub enum JournalFault {
    /// More than `TEXT_LIMIT` bytes.
    Long,
    /// It doesn't begin with the header and byte 10.
    Header,
    /// Not the line of any entry, or not ended by byte 10.
    Line { line: u64 },
    /// The entry may not follow those before it.
    Illegal { line: u64 },
    Memory,
}

impl From<Memory> for JournalFault {
    ghost use Rattle.std.specs.Prelude.{◌≡◌};
    ghost use Rattle.journal_text.specs.declared.faults.JournalFault.{JournalFault};

    ghost from_gives = { λ _ fault. fault ≡ JournalFault.Memory };

    fn from(_refused: Memory) -> JournalFault {
        JournalFault::Memory
    }
}

impl<T: Drop> From<AllocFailed<T>> for JournalFault {
    ghost use Rattle.std.specs.Prelude.{◌≡◌};
    ghost use Rattle.journal_text.specs.declared.faults.JournalFault.{JournalFault};

    ghost from_gives = { λ _ fault. fault ≡ JournalFault.Memory };

    fn from(_refused: AllocFailed<T>) -> JournalFault {
        JournalFault::Memory
    }
}
