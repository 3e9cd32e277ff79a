//! Why a request line has no call.
use osm_base::{Memory, Text};
use std::alloc::AllocError;

/// Why a request line has no call. The lowest that holds is named.
#[derive(Drop)]
pub enum RouteFault {
    /// The target isn't ASCII, or its path has no route.
    NoPath,
    /// The path has a route, but not for this method.
    WrongMethod,
    /// An id or a version of the path is no number.
    BadNumber,
    /// The first parameter, in the order of the route, that is needed and missing, or whose value
    /// can't be read.
    BadParameter { name: Text },
    /// Memory ran out. It can't for a route without parameters.
    Memory,
}

impl From<Memory> for RouteFault {
    ghost use Rattle.std.specs.Prelude.{◌≡◌};
    ghost use Rattle.route_table.specs.declared.faults.RouteFault.TheVariants as fault;

    ghost from_gives = { λ _ e. e ≡ fault.Memory };

    fn from(_: Memory) -> RouteFault {
        RouteFault::Memory
    }
}

impl From<AllocError> for RouteFault {
    ghost use Rattle.std.specs.Prelude.{◌≡◌};
    ghost use Rattle.route_table.specs.declared.faults.RouteFault.TheVariants as fault;

    ghost from_gives = { λ _ e. e ≡ fault.Memory };

    fn from(_: AllocError) -> RouteFault {
        RouteFault::Memory
    }
}
