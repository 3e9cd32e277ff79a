//! Operations, the names that they use, and what they did.
ghost use Rattle.std.specs.Prelude.{◌≡◌, ◌^◌, ◌<◌};
ghost use Rattle.osm_change.specs.declared.operations.Referent.TheVariants.{Old, New};

use crate::listed::kind_of;
use osm_base::{Items, Kind, Memory, TryCopy};
use osm_element::{Content, Tags};
use std::alloc::Global;
use std::marker::Model;
use std::mem::size_of;

/// The element that an operation names: one of before the upload, by its id, or the one that an
/// earlier operation creates, by the place of that operation, counted from 0.
#[derive(Clone, Copy)]
pub enum Referent {
    Old(u64),
    New(u32),
}

/// The bits of the first place. Ids lie below them.
const FIRST_PLACE: u64 = 1 << 63;

/// A referent in 8 bytes, of which each reference of each way and relation takes one.
#[derive(Clone, Copy)]
pub struct Name {
    bits: u64,
}

const _: () = prove!(size_of::<Name>() == 8);

impl Model for Name {
    ghost use Rattle.osm_change.specs.declared.operations.Referent.{Referent};

    ghost Value = { Referent };

    ghost use Rattle.osm_change.specs.Referents.{referent_of, bits_of, AreBits, with_bits, bits-again};

    ghost view = { λ n. referent_of n.bits };

    ghost invariant = { λ n. AreBits n.bits };

    ghost inverse = { λ r. with_bits (bits_of r) };

    ghost inverse_ok = { λ n _. bits-again n };
}

impl Name {
    ghost use Rattle.osm_change.specs.Referents.{Fits};

    /// An element of before the upload.
    pub fn old(id: u64) -> Name
        requires { id < 2 ^ 63 }
        ensures { result ≡ Old id }
    {
        Name { bits: id }
    }

    /// The element that the operation at a place creates.
    pub fn new(place: u32) -> Name
        ensures { result ≡ New place }
    {
        Name {
            bits: FIRST_PLACE + u64::from(place),
        }
    }

    /// An id lies below 2^63 and a place below 2^32, in any name: a law, with nothing to do.
    pub fn fits(self)
        ensures { Fits self }
    {
        let _bits = self.bits;
    }

    /// What it names.
    pub fn referent(self) -> Referent
        ensures { result ≡ self }
    {
        match self.bits.checked_sub(FIRST_PLACE) {
            Some(place) => Referent::New(place as u32),
            None => Referent::Old(self.bits),
        }
    }
}

impl TryCopy for Name {
    fn copy(&self, _: Global) -> Result<Name, Memory> {
        Ok(*self)
    }
}

/// An element as an operation names it.
#[derive(Clone, Copy)]
pub struct Named {
    pub kind: Kind,
    pub name: Name,
}

const _: () = prove!(size_of::<Named>() == 16);

/// One operation of an upload.
#[derive(Drop)]
pub enum Op {
    Create {
        placeholder: i64,
        content: Content<Name>,
        tags: Tags,
    },
    Modify {
        name: Name,
        version: u64,
        content: Content<Name>,
        tags: Tags,
    },
    Delete {
        kind: Kind,
        name: Name,
        version: u64,
        if_unused: bool,
    },
}

impl TryCopy for Op {
    fn copy(&self, alloc: Global) -> Result<Op, Memory> {
        match self {
            Op::Create {
                placeholder,
                content,
                tags,
            } => Ok(Op::Create {
                placeholder: *placeholder,
                content: content.copy(alloc)?,
                tags: tags.copy(alloc)?,
            }),
            Op::Modify {
                name,
                version,
                content,
                tags,
            } => Ok(Op::Modify {
                name: *name,
                version: *version,
                content: content.copy(alloc)?,
                tags: tags.copy(alloc)?,
            }),
            Op::Delete {
                kind,
                name,
                version,
                if_unused,
            } => Ok(Op::Delete {
                kind: *kind,
                name: *name,
                version: *version,
                if_unused: *if_unused,
            }),
        }
    }
}

/// What an accepted operation did: made the version with this number, or left the element at it.
#[derive(Clone, Copy)]
pub enum OpDone {
    Applied { version: u64 },
    Skipped { version: u64 },
}

impl OpDone {
    ghost use Rattle.std.specs.Prelude.{◌≡◌};
    ghost use Rattle.osm_change.specs.Done.{is_applied, done_version};

    /// Whether the operation made a version.
    pub fn is_applied(self) -> bool
        ensures { result ≡ is_applied self }
    {
        match self {
            OpDone::Applied { .. } => true,
            OpDone::Skipped { .. } => false,
        }
    }

    /// The version that was made, or at which the element was left.
    pub fn version(self) -> u64
        ensures { result ≡ done_version self }
    {
        match self {
            OpDone::Applied { version } | OpDone::Skipped { version } => version,
        }
    }
}

/// One for each operation of an upload, in order.
pub type OpDones = Items<OpDone>;

/// The ids that the next elements of each kind get.
#[derive(Clone, Copy)]
pub struct FirstIds {
    pub node: u64,
    pub way: u64,
    pub relation: u64,
}

impl FirstIds {
    ghost use Rattle.std.specs.Prelude.{◌≡◌, IfOk};
    ghost use Rattle.osm_change.specs.Keys.{next_of, one_more, ids_after};

    /// The id that the next element of a kind gets.
    pub fn next(self, kind: Kind) -> u64
        ensures { result ≡ next_of self kind }
    {
        match kind {
            Kind::Node => self.node,
            Kind::Way => self.way,
            Kind::Relation => self.relation,
        }
    }

    fn one_more(self, kind: Kind) -> Result<FirstIds, Memory>
        ensures { IfOk result (λ next. next ≡ one_more self kind) }
    {
        let Some(id) = self.next(kind).checked_add(1) else {
            return Err(Memory);
        };
        match kind {
            Kind::Node => Ok(FirstIds { node: id, ..self }),
            Kind::Way => Ok(FirstIds { way: id, ..self }),
            Kind::Relation => Ok(FirstIds {
                relation: id,
                ..self
            }),
        }
    }

    /// The ids after an operation: a create takes the next one of its kind. `Memory` where no id is
    /// left, which no map comes to.
    pub fn after(self, operation: &Op) -> Result<FirstIds, Memory>
        ensures { IfOk result (λ next. next ≡ ids_after self operation.now) }
    {
        match operation {
            Op::Create { content, .. } => self.one_more(kind_of(content)),
            _ => Ok(self),
        }
    }
}
