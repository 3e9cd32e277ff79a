//! Why an upload is no change.
use osm_base::Memory;
use osm_element::LocalFault;
use std::alloc::{AllocError, AllocFailed};

/// Why an upload is no change. Of the causes of one operation the lowest in this order counts.
#[derive(Clone, Copy, PartialEq, Eq)]
pub enum Cause {
    /// Memory ran out.
    Memory,
    /// A create with a positive id.
    NotNegative,
    /// A create with the placeholder of an earlier create of its kind.
    DoublePlaceholder,
    /// A negative id or reference that no earlier operation of that kind created.
    UnknownPlaceholder,
    /// A modify or delete that doesn't say which version it replaces.
    NoVersion,
    /// Tags or a content beyond a limit.
    Local(LocalFault),
    /// An operation that names another changeset. It counts only where no operation has one of the
    /// causes above.
    OtherChangeset { named: u64 },
}

/// The operation that is at fault, counted from 1, and why. `op` is 0 where memory ran out.
#[derive(Clone, Copy, PartialEq, Eq)]
pub struct ShapeFault {
    pub op: u32,
    pub cause: Cause,
}

impl ShapeFault {
    ghost use Rattle.std.specs.Prelude.{◌≡◌, ◌+◌, ◌^◌, ◌<◌, if◌then◌else◌};
    ghost use Rattle.osm_change.specs.Outcome.{fault_at, is_memory, out_of_memory};

    /// The cause at an operation's place, which is counted from 0.
    pub fn at(place: u32, cause: Cause) -> ShapeFault
        requires { place + 1 < 2 ^ 32 }
        ensures { result ≡ (if is_memory cause then out_of_memory else fault_at place cause) }
    {
        match cause {
            Cause::Memory => ShapeFault { op: 0, cause },
            _ => ShapeFault {
                op: place + 1,
                cause,
            },
        }
    }
}

impl From<Memory> for Cause {
    ghost use Rattle.std.specs.Prelude.{◌≡◌};
    ghost use Rattle.osm_change.specs.declared.causes.Cause.TheVariants as cause;

    ghost from_gives = { λ _ made. made ≡ cause.Memory };

    fn from(_: Memory) -> Self {
        Cause::Memory
    }
}

impl From<AllocError> for Cause {
    ghost use Rattle.std.specs.Prelude.{◌≡◌};
    ghost use Rattle.osm_change.specs.declared.causes.Cause.TheVariants as cause;

    ghost from_gives = { λ _ made. made ≡ cause.Memory };

    fn from(_: AllocError) -> Self {
        Cause::Memory
    }
}

impl<T: Drop> From<AllocFailed<T>> for Cause {
    ghost use Rattle.std.specs.Prelude.{◌≡◌};
    ghost use Rattle.osm_change.specs.declared.causes.Cause.TheVariants as cause;

    ghost from_gives = { λ _ made. made ≡ cause.Memory };

    fn from(_: AllocFailed<T>) -> Self {
        Cause::Memory
    }
}

impl From<AllocError> for ShapeFault {
    ghost use Rattle.std.specs.Prelude.{◌≡◌};
    ghost use Rattle.osm_change.specs.Outcome.{out_of_memory};

    ghost from_gives = { λ _ made. made ≡ out_of_memory };

    fn from(_: AllocError) -> Self {
        ShapeFault {
            op: 0,
            cause: Cause::Memory,
        }
    }
}

impl<T: Drop> From<AllocFailed<T>> for ShapeFault {
    ghost use Rattle.std.specs.Prelude.{◌≡◌};
    ghost use Rattle.osm_change.specs.Outcome.{out_of_memory};

    ghost from_gives = { λ _ made. made ≡ out_of_memory };

    fn from(_: AllocFailed<T>) -> Self {
        ShapeFault {
            op: 0,
            cause: Cause::Memory,
        }
    }
}
