//! What a read selects, and why it shows nothing.
//!
//! Faults of reads name an element by its key, refusals by its id. The case of a fault for want of
//! memory, which no definition gives, is told as an arbitrary refusal.
use crate::answers::Answer;
use crate::refusals::{Refusal, Said};
use osm_base::{Ids, Key, Memory};

/// One version of an element, as a read shows it.
#[derive(Clone, Copy)]
pub struct VersionId {
    pub key: Key,
    pub number: u64,
}

/// Why a read shows no element. The first that holds counts.
#[derive(Clone, Copy)]
pub enum ReadFault {
    /// No such version; version 0 where the element never existed.
    NotFound {
        key: Key,
        version: u64,
    },
    /// The element is deleted; `version` is the current one.
    Gone {
        key: Key,
        version: u64,
    },
    /// The version has a redaction's mark, and the caller doesn't ask as a moderator.
    Redacted {
        key: Key,
        version: u64,
        redaction: u64,
    },
    /// Memory ran out.
    Memory,
}

impl From<Memory> for ReadFault {
    ghost use Rattle.std.specs.Prelude.{◌≡◌};
    ghost use Rattle.osm_change.specs.declared.reads.ReadFault.TheVariants as fault;

    ghost from_gives = { λ _ made. made ≡ fault.Memory };

    fn from(_: Memory) -> Self {
        ReadFault::Memory
    }
}

impl ReadFault {
    ghost use Rattle.std.specs.Prelude.{◌≡◌, ◌≢◌, IfOk};
    ghost use Rattle.osm_change.specs.Reads.{read_refusal};
    ghost use Rattle.osm_change.specs.declared.answers.Answer.TheVariants as answers;

    /// What the read is answered, unless memory ran out.
    pub fn answer<'a>(self) -> Result<Answer<'a>, Memory>
        ensures { IfOk result (λ answer. (answer ≡ answers.Refused (read_refusal self)) × (self ≢ ReadFault.Memory)) }
    {
        match self {
            ReadFault::NotFound { key, version } => Ok(Answer::Refused(not_found(key, version))),
            ReadFault::Gone { key, version } => Ok(Answer::Refused(Refusal::Gone {
                id: Said::Id(key.id),
                op: None,
                kind: key.kind,
                version,
            })),
            ReadFault::Redacted {
                key,
                version,
                redaction,
            } => Ok(Answer::Refused(Refusal::Redacted {
                id: Said::Id(key.id),
                redaction,
                kind: key.kind,
                version,
            })),
            ReadFault::Memory => Err(Memory),
        }
    }
}

ghost use Rattle.std.specs.Prelude.{◌≡◌};
ghost use Rattle.osm_change.specs.Reads.{not_found};

/// An element that never existed has version 0.
fn not_found(key: Key, version: u64) -> Refusal
    ensures { result ≡ not_found key version }
{
    let id = Said::Id(key.id);
    let kind = key.kind;
    if version == 0 {
        Refusal::NoElement { id, op: None, kind }
    } else {
        Refusal::NoSuchVersion { id, kind, version }
    }
}

/// Why a map call has no answer. The first that holds counts.
#[derive(Clone, Copy)]
pub enum MapFault {
    /// The area of the box in square units of 1e-7 degrees, which is above `AREA_LIMIT`.
    TooLarge { area: u64 },
    /// The visible nodes in the box, which are more than `MAP_NODE_LIMIT`.
    TooMany { nodes: u64 },
    /// Memory ran out.
    Memory,
}

impl From<Memory> for MapFault {
    ghost use Rattle.std.specs.Prelude.{◌≡◌};
    ghost use Rattle.osm_change.specs.declared.reads.MapFault.TheVariants as fault;

    ghost from_gives = { λ _ made. made ≡ fault.Memory };

    fn from(_: Memory) -> Self {
        MapFault::Memory
    }
}

/// The elements of a map call. The ids of each kind rise, each once.
#[derive(Drop)]
pub struct Selection {
    pub nodes: Ids,
    pub ways: Ids,
    pub relations: Ids,
}
