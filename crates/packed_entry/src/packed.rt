//! A kept entry.
ghost use Rattle.std.specs.Prelude.{◌≡◌, IfOk, OnOk};
ghost use Rattle.packed_entry.specs.Packed.{packed_entry};
ghost use Rattle.packed_entry.specs.Typed.{IsEntry};

use crate::entries::{entry, put_entry};
use crate::faults::Fault;
use crate::reader::Reader;
use osm_base::Memory;
use osm_model::Entry;
use std::alloc::Global;
use std::marker::Model;

/// How many bytes are laid by for an entry while it is packed. A copy of them, which is kept, takes
/// fewer instructions than to count them before.
const SCRATCH: usize = 512;

/// An entry of the journal in few bytes. Contracts see the entry.
#[derive(Drop)]
pub struct PackedEntry {
    bytes: Vec<u8>,
}

impl Model for PackedEntry {
    ghost use Rattle.osm_model.specs.declared.commands.Entry.{Entry};

    ghost Value = { Entry };

    ghost use Rattle.packed_entry.specs.Kept.{entry_in, ArePacked};

    ghost view = { λ p. entry_in p.bytes.items };

    ghost invariant = { λ p. ArePacked p.bytes.items };
}

impl PackedEntry {
    /// The same entry in few bytes. `Memory` is the only error.
    pub fn of(alloc: Global, entry: &Entry) -> Result<PackedEntry, Memory>
        ensures { IfOk result (λ packed. packed ≡ entry.now) }
    {
        let bytes = bytes_of(alloc, entry)?;
        Ok(PackedEntry { bytes })
    }

    /// An equal entry, unpacked.
    #[tactic(auto, unfolding(crate::specs::Kept::entry_in, crate::specs::Kept::ArePacked))]
    pub fn entry(&self, alloc: Global) -> Result<Entry, Memory>
        ensures { IfOk result (λ entry. entry ≡ self.now) }
    {
        let mut reader = Reader::new(self.bytes.as_slice());
        match entry(alloc, &mut reader) {
            Ok(entry) => Ok(entry),
            Err(Fault::Memory) => Err(Memory),
            Err(Fault::Malformed) => unreachable!(),
        }
    }
}

/// The bytes of an entry, without spare room.
fn bytes_of(alloc: Global, entry: &Entry) -> Result<Vec<u8>, Memory>
    ensures bytes { IfOk result (λ bytes. bytes.items ≡ packed_entry entry.now) }
    ensures typed { OnOk result (IsEntry entry.now) }
{
    let mut scratch = Vec::with_capacity(alloc, SCRATCH)?;
    put_entry(&mut scratch, entry)?;
    Ok(Vec::from_slice(alloc, scratch.as_slice())?)
}
