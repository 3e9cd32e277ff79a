//! The entries of a journal, as it lends them.
ghost use Rattle.std.specs.Prelude.{◌≡◌, ◌<◌, ◌≤◌, ◌^◌, Some, IfOk, map, length, slice_get, take, drop};

use machine_law::Machine;
use osm_base::Memory;
use std::alloc::Global;
use std::marker::Model;

/// The most entries that a journal takes.
pub(crate) const MOST: usize = 1 << 62;

/// The entries of a journal, in the order of their commits. Contracts see the list of entries.
///
/// They lie there as the journal keeps them, and each that is asked for is made anew.
#[derive(Drop)]
pub struct Entries<'a, M: Machine> {
    kept: &'a [M::Kept],
}

impl<'a, M: Machine> Model for Entries<'a, M> {
    ghost use Rattle.std.specs.Prelude.{◌≤◌, ◌^◌, List, map, length};

    ghost Value = { List M.Entry };

    ghost view = { λ e. map M.entry_of e.kept.now };

    ghost invariant = { λ e. length e.kept.now ≤ 2 ^ 62 };
}

impl<'a, M: Machine> Entries<'a, M> {
    // The entries of which these are kept.
    pub(crate) fn of(kept: &'a [M::Kept]) -> Entries<'a, M>
        requires { length kept.now ≤ 2 ^ 62 }
        ensures { result ≡ map M.entry_of kept.now }
    {
        Entries { kept }
    }

    /// How many entries there are.
    pub fn len(&self) -> usize
        ensures length { result ≡ length self.now }
        ensures few { result ≤ 2 ^ 62 }
    {
        self.kept.len()
    }

    /// The entry at a place, from 0.
    pub fn entry(&self, alloc: Global, place: usize) -> Result<M::Entry, Memory>
        requires { place < length self.now }
        ensures { IfOk result (λ entry. slice_get self.now place ≡ Some entry) }
    {
        let kept = self.kept;
        M::entry(alloc, &kept[place])
    }

    /// The entries from a place on, counted from 0: at most so many, and fewer where the journal ends.
    pub fn part(&self, alloc: Global, from: u64, count: u64) -> Result<Vec<M::Entry>, Memory>
        ensures { IfOk result (λ part. part.items ≡ take count (drop from self.now)) }
    {
        unpacked::<M>(alloc, part_of(self.kept, from, count))
    }

    /// All entries.
    pub fn all(&self, alloc: Global) -> Result<Vec<M::Entry>, Memory>
        ensures { IfOk result (λ all. all.items ≡ self.now) }
    {
        unpacked::<M>(alloc, self.kept)
    }
}

// What is kept from a place on, at most so much.
#[tactic(auto, using(std::proofs::lemmas::List::drop_min, std::proofs::lemmas::List::take_min))]
fn part_of<T>(kept: &[T], from: u64, count: u64) -> &[T]
    ensures { result.now ≡ take count (drop from kept.now) }
{
    let rest = &kept[(from as usize).min(kept.len())..];
    &rest[..(count as usize).min(rest.len())]
}

// The entries of which these are kept.
fn unpacked<M: Machine>(alloc: Global, kept: &[M::Kept]) -> Result<Vec<M::Entry>, Memory>
    ensures { IfOk result (λ entries. entries.items ≡ map M.entry_of kept.now) }
{
    let mut entries = Vec::with_capacity(alloc, kept.len())?;
    for one in kept {
        entries.push(M::entry(alloc, one)?)?;
    }
    Ok(entries)
}
