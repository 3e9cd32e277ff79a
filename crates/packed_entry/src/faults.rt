//! Why bytes give no entry.
use osm_base::Memory;
use std::alloc::{AllocError, AllocFailed};

#[derive(Clone, Copy, PartialEq, Eq)]
pub(crate) enum Fault {
    Memory,
    /// They aren't those of any entry.
    Malformed,
}

impl From<Memory> for Fault {
    ghost use Rattle.std.specs.Prelude.{◌≡◌};
    ghost use Rattle.packed_entry.specs.declared.faults.Fault.{Fault};

    ghost from_gives = { λ _ fault. fault ≡ Fault.Memory };

    fn from(_refused: Memory) -> Fault {
        Fault::Memory
    }
}

impl From<AllocError> for Fault {
    ghost use Rattle.std.specs.Prelude.{◌≡◌};
    ghost use Rattle.packed_entry.specs.declared.faults.Fault.{Fault};

    ghost from_gives = { λ _ fault. fault ≡ Fault.Memory };

    fn from(_refused: AllocError) -> Fault {
        Fault::Memory
    }
}

impl<T: Drop> From<AllocFailed<T>> for Fault {
    ghost use Rattle.std.specs.Prelude.{◌≡◌};
    ghost use Rattle.packed_entry.specs.declared.faults.Fault.{Fault};

    ghost from_gives = { λ _ fault. fault ≡ Fault.Memory };

    fn from(_refused: AllocFailed<T>) -> Fault {
        Fault::Memory
    }
}
