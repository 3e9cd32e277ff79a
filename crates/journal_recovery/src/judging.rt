//! How entries that were read become a journal.
//!
//! A server has two copies of what its entries come to, and each follows and tests every entry. They
//! do so at the same time, in two threads.
ghost use Rattle.std.specs.Prelude.{◌≡◌, ◌++◌, List, IfErr, OnOk};
ghost use Rattle.journal_recovery.specs.Judged.{IsFollowed};
ghost use Rattle.journal_recovery.specs.declared.faults.TextFault.{TextFault};

use crate::faults::TextFault;
use std::alloc::Global;
use std::thread::{Threads, join};

/// Judges entries that were read, part by part, each behind those before it.
pub trait EntryJudge<E> {
    ghost use Rattle.std.specs.Prelude.{List, []};

    /// A copy of what entries come to.
    type World: Drop + Send;

    /// The entries so far, as a journal keeps them.
    type Kept: Drop + Send;

    /// A journal, with what it comes to.
    type Journal: Drop + Send;

    // The entries of a journal.
    ghost entries: { Self.Journal → List E };

    // The entries that are kept.
    ghost keeps: { Self.Kept → List E };

    // Entries that may follow one another.
    ghost is_legal: { List E → Type 0 };

    // The world is one that followed these entries, and tested each.
    ghost follows: { Self.World → List E → Type 0 };

    /// A world that has followed no entry yet.
    fn begin(alloc: Global) -> Self::World
        ensures { follows result [] };

    /// No entries.
    fn none(alloc: Global) -> Self::Kept
        ensures { keeps result ≡ [] };

    /// The world, once it has followed these entries too, each of which it tests.
    fn follow(alloc: Global, world: Self::World, part: &[E]) -> Result<Self::World, TextFault>
        ensures { (before : List E) → follows world before → IsFollowed follows is_legal (before ++ part.now) result };

    /// Keeps these entries too, which a world has followed behind those before.
    fn keep(alloc: Global, kept: &mut Self::Kept, part: Vec<E>) -> Result<(), TextFault>
        requires { (world : Self.World) × follows world (keeps kept.old ++ part.items) }
        ensures kept { OnOk result (keeps kept.new ≡ keeps kept.old ++ part.items) }
        ensures refused { IfErr result (λ fault. fault ≡ TextFault.NoJournal → (more : List E) → is_legal ((keeps kept.old ++ part.items) ++ more) → ⊥) };

    /// The journal of the entries that are kept, with the worlds that followed them.
    fn journal_of(kept: Self::Kept, first: Self::World, second: Self::World) -> Self::Journal
        requires first { follows first (keeps kept) }
        requires second { follows second (keeps kept) }
        ensures kept { entries result ≡ keeps kept }
        ensures legal { is_legal (keeps kept) };
}

/// The worlds of the two copies that a server begins with.
#[derive(Drop)]
pub(crate) struct Worlds<W> {
    pub first: W,
    pub second: W,
}

/// Both worlds, once they have followed these entries too, at the same time. Where no thread can be had
/// one follows after the other.
pub(crate) fn follow_both<R: Threads + Sync, E: Send + Sync + Drop, S: EntryJudge<E> + Send>(
    rt: &R,
    alloc: Global,
    worlds: Worlds<S::World>,
    part: &[E],
) -> Result<Worlds<S::World>, TextFault>
    ensures { (before : List E) → S.follows worlds.first before → S.follows worlds.second before
        → IsFollowed (λ w es. S.follows w.first es × S.follows w.second es) S.is_legal (before ++ part.now) result }
{
    let Worlds { first, second } = worlds;
    let follow_first = move || -> Result<S::World, TextFault>
        ensures { (before : List E) → S.follows first before → IsFollowed S.follows S.is_legal (before ++ part.entry.now) result }
    { S::follow(alloc, first, part) };
    let follow_second = move || -> Result<S::World, TextFault>
        ensures { (before : List E) → S.follows second before → IsFollowed S.follows S.is_legal (before ++ part.entry.now) result }
    { S::follow(alloc, second, part) };
    let (one, other) = join(rt, follow_first, follow_second);
    let first = match one {
        Ok(world) => world,
        Err(fault) => return Err(fault),
    };
    match other {
        Ok(second) => Ok(Worlds { first, second }),
        Err(fault) => Err(fault),
    }
}
