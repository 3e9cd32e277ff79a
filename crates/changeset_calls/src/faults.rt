//! Why a call on a changeset has no result.
//!
//! The faults of a changeset's reads have their own type, with the one refusal that there is.
use osm_base::Memory;

/// Why a call on a changeset has no result.
#[derive(Clone, Copy)]
pub enum ChangesetFault {
    /// There never was a changeset with this id.
    NoChangeset { id: u64 },
    /// Memory ran out.
    Memory,
}

impl From<Memory> for ChangesetFault {
    ghost use Rattle.std.specs.Prelude.{◌≡◌};
    ghost use Rattle.changeset_calls.specs.declared.faults.ChangesetFault.TheVariants as fault;

    ghost from_gives = { λ _ made. made ≡ fault.Memory };

    fn from(_: Memory) -> Self {
        ChangesetFault::Memory
    }
}
