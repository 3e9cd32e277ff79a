//! Why a users text is refused.
use osm_base::Memory;
use std::alloc::{AllocError, AllocFailed};

/// Why a users text is refused. Lines are counted from 1, skipped ones too.
#[derive(Clone, Copy, PartialEq, Eq)]
pub enum UsersFault {
    /// More than `osm_base::USERS_LIMIT` bytes.
    Long,
    /// The bytes aren't UTF-8.
    NotUtf8,
    /// The line is neither `ID TOKEN ROLE NAME` nor `@large-from SECONDS`.
    Line { line: u64 },
    /// A line before has the id.
    DoubleId { line: u64 },
    /// A line before has the token.
    DoubleToken { line: u64 },
    /// A line before has the name.
    DoubleName { line: u64 },
    /// Memory ran out.
    Memory,
}

impl From<Memory> for UsersFault {
    ghost use Rattle.std.specs.Prelude.{◌≡◌};
    ghost use Rattle.user_table.specs.declared.faults.UsersFault.{UsersFault};

    ghost from_gives = { λ _ fault. fault ≡ UsersFault.Memory };

    fn from(_: Memory) -> UsersFault {
        UsersFault::Memory
    }
}

impl From<AllocError> for UsersFault {
    ghost use Rattle.std.specs.Prelude.{◌≡◌};
    ghost use Rattle.user_table.specs.declared.faults.UsersFault.{UsersFault};

    ghost from_gives = { λ _ fault. fault ≡ UsersFault.Memory };

    fn from(_: AllocError) -> UsersFault {
        UsersFault::Memory
    }
}

impl<T: Drop> From<AllocFailed<T>> for UsersFault {
    ghost use Rattle.std.specs.Prelude.{◌≡◌};
    ghost use Rattle.user_table.specs.declared.faults.UsersFault.{UsersFault};

    ghost from_gives = { λ _ fault. fault ≡ UsersFault.Memory };

    fn from(_: AllocFailed<T>) -> UsersFault {
        UsersFault::Memory
    }
}
