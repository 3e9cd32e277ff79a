//! What is wrong with a line.
use osm_base::Memory;
use std::alloc::AllocError;

/// Why a line has no entry.
#[derive(Clone, Copy, PartialEq, Eq)]
pub enum LineFault {
    /// It isn't the line of any entry.
    NotLine,
    Memory,
}

impl From<Memory> for LineFault {
    ghost use Rattle.std.specs.Prelude.{◌≡◌};
    ghost use Rattle.line_text.specs.declared.faults.LineFault.{LineFault};

    ghost from_gives = { λ _ fault. fault ≡ LineFault.Memory };

    fn from(_refused: Memory) -> LineFault {
        LineFault::Memory
    }
}

impl From<AllocError> for LineFault {
    ghost use Rattle.std.specs.Prelude.{◌≡◌};
    ghost use Rattle.line_text.specs.declared.faults.LineFault.{LineFault};

    ghost from_gives = { λ _ fault. fault ≡ LineFault.Memory };

    fn from(_refused: AllocError) -> LineFault {
        LineFault::Memory
    }
}
