//! Why a load gives no events.
use osm_base::Memory;

/// Why a load has no events.
#[derive(Clone, Copy, Debug)]
pub enum LoadFault {
    /// Memory ran out.
    Memory,
    /// A request of the load asks for no command.
    NoCommand,
}

impl From<Memory> for LoadFault {
    ghost use Rattle.std.specs.Prelude.{◌≡◌};
    ghost use Rattle.api_desk.specs.declared.load_faults.LoadFault.TheVariants as fault;

    ghost from_gives = { λ _ made. made ≡ fault.Memory };

    fn from(_: Memory) -> LoadFault {
        LoadFault::Memory
    }
}
