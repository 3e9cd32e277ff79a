//! Why a message asks for nothing, and the refusal that tells it.
use osm_base::Memory;
use osm_change::{Cause, Refusal, ShapeFault};
use osm_json::BodyFault;
use route_table::RouteFault;

/// Why a message is no request.
#[derive(Drop)]
pub enum RequestFault {
    Memory,
    Refused(Refusal),
}

impl From<Memory> for RequestFault {
    ghost use Rattle.std.specs.Prelude.{◌≡◌};
    ghost use Rattle.desk_parts.specs.declared.faults.RequestFault.TheVariants as fault;

    ghost from_gives = { λ _ made. made ≡ fault.Memory };

    fn from(_: Memory) -> Self {
        RequestFault::Memory
    }
}

impl From<Refusal> for RequestFault {
    ghost use Rattle.std.specs.Prelude.{◌≡◌};
    ghost use Rattle.desk_parts.specs.declared.faults.RequestFault.TheVariants as fault;

    ghost from_gives = { λ refusal made. made ≡ fault.Refused refusal };

    fn from(refusal: Refusal) -> Self {
        RequestFault::Refused(refusal)
    }
}

impl From<RouteFault> for RequestFault {
    ghost use Rattle.std.specs.Prelude.{◌≡◌};
    ghost use Rattle.desk_parts.specs.Faults.{of_route};

    ghost from_gives = { λ fault made. made ≡ of_route fault };

    fn from(fault: RouteFault) -> Self {
        RequestFault::Refused(match fault {
            RouteFault::Memory => return RequestFault::Memory,
            RouteFault::NoPath => Refusal::NoPath,
            RouteFault::WrongMethod => Refusal::WrongMethod,
            RouteFault::BadNumber => Refusal::BadNumber,
            RouteFault::BadParameter { name } => Refusal::BadParameter { name },
        })
    }
}

impl From<BodyFault> for RequestFault {
    ghost use Rattle.std.specs.Prelude.{◌≡◌};
    ghost use Rattle.desk_parts.specs.Faults.{of_body};

    ghost from_gives = { λ fault made. made ≡ of_body fault };

    fn from(fault: BodyFault) -> Self {
        match fault {
            BodyFault::Memory => RequestFault::Memory,
            BodyFault::NotJson => RequestFault::Refused(Refusal::NotJson),
            BodyFault::Shape { op } => RequestFault::Refused(Refusal::Shape { op: Some(op) }),
        }
    }
}

impl From<ShapeFault> for RequestFault {
    ghost use Rattle.std.specs.Prelude.{◌≡◌};
    ghost use Rattle.desk_parts.specs.Faults.{of_change};

    ghost from_gives = { λ fault made. made ≡ of_change fault };

    fn from(fault: ShapeFault) -> Self {
        let op = Some(fault.op);
        RequestFault::Refused(match fault.cause {
            Cause::Memory => return RequestFault::Memory,
            Cause::NotNegative => Refusal::NotNegative { op },
            Cause::DoublePlaceholder => Refusal::DoublePlaceholder { op },
            Cause::UnknownPlaceholder => Refusal::UnknownPlaceholder { op },
            Cause::NoVersion => Refusal::NoVersion { op },
            Cause::Local(fault) => Refusal::Local { fault, op },
            Cause::OtherChangeset { named } => Refusal::OtherChangeset { named, op },
        })
    }
}
