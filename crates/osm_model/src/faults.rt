//! Why a step of the plain program has no result.
use osm_base::Memory;
use osm_change::Refusal;

/// Why a command, or a step of one, has no result.
#[derive(Drop)]
pub enum Fault {
    Memory,
    Refused(Refusal),
}

impl From<Memory> for Fault {
    ghost use Rattle.std.specs.Prelude.{◌≡◌};
    ghost use Rattle.osm_model.specs.declared.faults.Fault.TheVariants as fault;

    ghost from_gives = { λ _ made. made ≡ fault.Memory };

    fn from(_: Memory) -> Self {
        Fault::Memory
    }
}

impl From<Refusal> for Fault {
    ghost use Rattle.std.specs.Prelude.{◌≡◌};
    ghost use Rattle.osm_model.specs.declared.faults.Fault.TheVariants as fault;

    ghost from_gives = { λ refusal made. made ≡ fault.Refused refusal };

    fn from(refusal: Refusal) -> Self {
        Fault::Refused(refusal)
    }
}
