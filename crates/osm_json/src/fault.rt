//! Why a body, or a value of it, was not read.
ghost use Rattle.std.specs.Prelude.{◌≡◌, Some, Ok, Err, MatchResult};

use json::Invalid;
use osm_base::Memory;
use std::alloc::{AllocError, AllocFailed};

/// Why a body was refused.
#[derive(Clone, Copy, Drop)]
pub enum BodyFault {
    NotJson,
    /// The operation of that number is malformed, or for 0 the document is.
    Shape { op: u32 },
    Memory,
}

impl From<AllocError> for BodyFault {
    ghost use Rattle.std.specs.Prelude.{◌≡◌};
    ghost use Rattle.osm_json.specs.declared.fault.BodyFault.{BodyFault};

    ghost from_gives = { λ _ fault. fault ≡ BodyFault.Memory };

    fn from(_refused: AllocError) -> BodyFault {
        BodyFault::Memory
    }
}

impl<T: Drop> From<AllocFailed<T>> for BodyFault {
    ghost use Rattle.std.specs.Prelude.{◌≡◌};
    ghost use Rattle.osm_json.specs.declared.fault.BodyFault.{BodyFault};

    ghost from_gives = { λ _ fault. fault ≡ BodyFault.Memory };

    fn from(_refused: AllocFailed<T>) -> BodyFault {
        BodyFault::Memory
    }
}

impl From<Memory> for BodyFault {
    ghost use Rattle.std.specs.Prelude.{◌≡◌};
    ghost use Rattle.osm_json.specs.declared.fault.BodyFault.{BodyFault};

    ghost from_gives = { λ _ fault. fault ≡ BodyFault.Memory };

    fn from(_refused: Memory) -> BodyFault {
        BodyFault::Memory
    }
}

/// Why the next value of a body was not read.
#[derive(Clone, Copy, Drop)]
pub(crate) enum ReadFault {
    NotJson,
    Memory,
}

impl From<Invalid> for ReadFault {
    ghost use Rattle.std.specs.Prelude.{◌≡◌};
    ghost use Rattle.osm_json.specs.declared.fault.ReadFault.{ReadFault};

    ghost from_gives = { λ _ fault. fault ≡ ReadFault.NotJson };

    fn from(_invalid: Invalid) -> ReadFault {
        ReadFault::NotJson
    }
}

impl From<AllocError> for ReadFault {
    ghost use Rattle.std.specs.Prelude.{◌≡◌};
    ghost use Rattle.osm_json.specs.declared.fault.ReadFault.{ReadFault};

    ghost from_gives = { λ _ fault. fault ≡ ReadFault.Memory };

    fn from(_refused: AllocError) -> ReadFault {
        ReadFault::Memory
    }
}

impl From<Memory> for ReadFault {
    ghost use Rattle.std.specs.Prelude.{◌≡◌};
    ghost use Rattle.osm_json.specs.declared.fault.ReadFault.{ReadFault};

    ghost from_gives = { λ _ fault. fault ≡ ReadFault.Memory };

    fn from(_refused: Memory) -> ReadFault {
        ReadFault::Memory
    }
}

impl<T: Drop> From<AllocFailed<T>> for ReadFault {
    ghost use Rattle.std.specs.Prelude.{◌≡◌};
    ghost use Rattle.osm_json.specs.declared.fault.ReadFault.{ReadFault};

    ghost from_gives = { λ _ fault. fault ≡ ReadFault.Memory };

    fn from(_refused: AllocFailed<T>) -> ReadFault {
        ReadFault::Memory
    }
}

/// Keeps what was read of a member. Of members of one name the last counts.
#[inline(always)]
pub(crate) fn keep<T>(place: &mut Option<T>, read: Result<T, ReadFault>) -> Result<(), ReadFault>
where
    T: Drop,
    ensures { MatchResult read
        (λ value. (result ≡ Ok tt) × (place.new ≡ Some value))
        (λ fault. result ≡ Err fault) }
{
    *place = Some(read?);
    Ok(())
}
